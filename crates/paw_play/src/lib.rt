//! Playing over a stage: lines are taken, and the pieces that they bring are shown.
#![tactic(auto)]

ghost use Rattle.std.specs.Prelude.{◌≡◌};
ghost use Rattle.paw_play.specs.Walk.{end_halt};
ghost use Rattle.paw_play.specs.inner.OnTheWay.{end_of_halt};

pub mod laws;
pub mod line;
pub mod numbers;
pub mod open;
pub mod play;
pub mod preface;
pub mod resume;
pub mod show;
pub mod trace;
pub mod walk;

use paw_base::fault::SpentKind;
use paw_journal::JournalRefusal;
use paw_reading::halt::Halt;
use paw_stage::StageCall;

/// How playing ends. Occupied: a new session was asked for, and its store has bytes already. Refused: the store gives
/// no session of the game. State: its session shows no state of the game; the offset of the first field that breaks a
/// rule. Ended: the game is over. InputEnded: no line is left at a prompt. Spent: a piece would read or hold too much.
/// TooDeep: a table was called at the deepest level. Long: the session has all the lines that it may have. Outside: a
/// call of the stage failed. Memory: lack of memory, before the first piece is shown.
#[derive(Clone, Copy, Drop, PartialEq, Eq, Debug)]
pub enum PlayEnd {
    Ended,
    InputEnded,
    Occupied { length: u64 },
    Refused(JournalRefusal),
    State { at: u64 },
    Spent(SpentKind),
    TooDeep { table: u8 },
    Long { events: u64 },
    Outside(StageCall),
    Memory,
}

/// The end of playing that this halt is.
pub(crate) fn end_of(halt: Halt) -> PlayEnd
    ensures value { result ≡ end_of_halt halt }
{
    match halt {
        Halt::Over => PlayEnd::Ended,
        Halt::Spent(kind) => PlayEnd::Spent(kind),
        Halt::TooDeep { table } => PlayEnd::TooDeep { table },
    }
}

/// The halt that this end of playing is, if it is one.
pub fn halt_of(end: PlayEnd) -> Option<Halt>
    ensures value { result ≡ end_halt end }
{
    match end {
        PlayEnd::Ended => Some(Halt::Over),
        PlayEnd::Spent(kind) => Some(Halt::Spent(kind)),
        PlayEnd::TooDeep { table } => Some(Halt::TooDeep { table }),
        PlayEnd::InputEnded
        | PlayEnd::Occupied { .. }
        | PlayEnd::Refused(_)
        | PlayEnd::State { .. }
        | PlayEnd::Long { .. }
        | PlayEnd::Outside(_)
        | PlayEnd::Memory => None,
    }
}
