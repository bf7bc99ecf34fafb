//! The games of trials and their lines: each is made from a number, and is large.
#![tactic(auto)]

pub mod counts;
pub mod game;
pub mod laws;
pub mod lines;
mod lists;
mod tables;
#[cfg(test)]
mod tests;
mod texts;
mod vocabulary;

pub use counts::{line_count, location_count, object_count};
pub use game::game_of;
pub use lines::lines_of;
