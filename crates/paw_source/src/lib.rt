//! Sources: the text that spells a game, read line by line.
#![tactic(auto)]

mod bytes;
mod draft;
mod entries;
mod exits;
#[cfg(test)]
mod fault_tests;
pub mod laws;
mod lines;
mod objects;
pub mod refusal;
mod rows;
pub mod source;
#[cfg(test)]
mod tests;
mod texts;

pub use source::read_source;
