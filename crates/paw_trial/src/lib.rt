//! Trials: a large game is made from a number, played half way, stopped and resumed, and summed up in one line.
#![tactic(auto)]

ghost use Rattle.std.specs.Prelude.{◌≡◌};
ghost use Rattle.paw_trial.specs.inner.Trial.{trial_end, trial_halt};

mod counting;
mod halves;
mod setup;
mod trial;

use paw_base::fault::SpentKind;
use paw_reading::halt::Halt;
pub use trial::trial_line;

/// Why a trial shows no line. Ended: the game is over. Spent: a piece would read or hold too much. TooDeep: a table was
/// called at the deepest level. Memory: lack of memory, or a call of the trial's own stage failed.
#[derive(Clone, Copy, Drop, PartialEq, Eq, Debug)]
pub enum TrialEnd {
    Ended,
    Spent(SpentKind),
    TooDeep { table: u8 },
    Memory,
}

/// The end of a trial that this halt is.
pub(crate) fn end_of(halt: Halt) -> TrialEnd
    ensures value { result ≡ trial_end halt }
{
    match halt {
        Halt::Over => TrialEnd::Ended,
        Halt::Spent(kind) => TrialEnd::Spent(kind),
        Halt::TooDeep { table } => TrialEnd::TooDeep { table },
    }
}

/// The halt that this end of a trial is, if it is one.
pub fn halt_of(end: TrialEnd) -> Option<Halt>
    ensures value { result ≡ trial_halt end }
{
    match end {
        TrialEnd::Ended => Some(Halt::Over),
        TrialEnd::Spent(kind) => Some(Halt::Spent(kind)),
        TrialEnd::TooDeep { table } => Some(Halt::TooDeep { table }),
        TrialEnd::Memory => None,
    }
}

/// What a session counts: its turns, the player's location, and how many objects they carry.
#[derive(Clone, Copy, Drop, PartialEq, Eq, Debug)]
pub(crate) struct Tally {
    pub turns: u32,
    pub at: u8,
    pub carried: u8,
}
