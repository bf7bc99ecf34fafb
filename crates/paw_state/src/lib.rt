//! The bytes that a session keeps of a game that is played, and reading them back.
#![tactic(auto)]

mod checks;
mod fields;
pub mod laws;
mod parts;
mod position_field;
#[cfg(test)]
mod tests;
mod writer;
mod writing;

pub use fields::STATE_ROOM;
pub use parts::{Restored, read_state};
pub use paw_base::layout::STATE_LENGTH;
pub use writing::write_state;

/// The offset in a state's bytes of the first field that breaks its rule, below [`STATE_LENGTH`]. A field of several
/// bytes is named at its first byte; each byte of an array is a field of its own.
#[derive(Clone, Copy, Drop, PartialEq, Eq, Debug)]
pub struct StateFault {
    pub at: u64,
}
