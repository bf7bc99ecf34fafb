//! The machine that reads a game's tables in written order, from one stop to the next: calls of tables, the loop over
//! objects, and the budget of condacts.
#![tactic(auto)]

mod after_condact;
mod frame;
mod kept;
mod machine;
mod objects;
mod phrase;
mod step;
mod surroundings;

pub use kept::{
    FrameFault, Frames, count_fits, has_code, is_place, may_open, parameter_of, waiting_code,
};
pub use machine::{MOST_FRAMES, Machine};
use paw_effects::act::Prompt;
use paw_reading::halt::Halt;
pub use phrase::take_phrase;
pub use surroundings::Surroundings;

/// Why the machine stopped: the outermost table was left, with an action carried out or not; the location is to be
/// described again; the game waits at a prompt; or play has ended for good before the piece was closed.
#[derive(Clone, Copy, Drop, PartialEq, Eq, Debug)]
pub enum Turned {
    Left(bool),
    Redescribe,
    Waits(Prompt),
    Halted(Halt),
}
