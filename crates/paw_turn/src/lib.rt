//! Turns: a player takes lines one by one, and gives the piece of text that each brings.
#![tactic(auto)]

ghost use Rattle.std.specs.Prelude.{◌≡◌};
ghost use Rattle.paw_turn.specs.inner.Player.{step_of, step_halt};

mod flags;
pub mod laws;
mod lines;
mod parts;
mod phase;
mod player;
mod turn;

pub use parts::Parts;
use paw_base::fault::SpentKind;
use paw_effects::act::Prompt;
use paw_reading::halt::Halt;
use phase::TurnStop;
pub use player::Player;

/// How a line ends for a player: it waits at a prompt; the game is over; the piece would read or hold too much; or a
/// table was called at the deepest level.
#[derive(Clone, Copy, Drop, PartialEq, Eq, Debug)]
pub enum Step {
    Waits(Prompt),
    Ended,
    Spent(SpentKind),
    TooDeep { table: u8 },
}

/// The step of a player whose turn stopped for this reason.
pub(crate) fn step_of(stop: TurnStop) -> Step
    ensures value { result ≡ step_of stop }
{
    match stop {
        TurnStop::Waits(prompt) => Step::Waits(prompt),
        TurnStop::Halted(Halt::Over) => Step::Ended,
        TurnStop::Halted(Halt::Spent(kind)) => Step::Spent(kind),
        TurnStop::Halted(Halt::TooDeep { table }) => Step::TooDeep { table },
    }
}

/// The halt that a line brought. None where the player waits for a line.
pub fn halt_of(step: Step) -> Option<Halt>
    ensures value { result ≡ step_halt step }
{
    match step {
        Step::Waits(_) => None,
        Step::Ended => Some(Halt::Over),
        Step::Spent(kind) => Some(Halt::Spent(kind)),
        Step::TooDeep { table } => Some(Halt::TooDeep { table }),
    }
}
