//! The reading of a game's tables in written order, the turn, and the reading of a list of lines: what play means.
#![tactic(auto)]

pub mod frames;
pub mod halt;
pub mod laws;
#[cfg(test)]
mod tests;
