//! Hosting: many players play one game, each with a session of its own that is kept in a file of the player's name.
#![tactic(auto)]

mod answer;
pub mod host;
pub mod laws;
pub mod lines;
mod names;
mod open;
pub mod outcome;
mod reply;
mod words;
