//! The top call: a command in words, over a stage.
#![tactic(auto)]

mod commands;
mod compile;
pub mod completeness;
mod decompile;
pub mod laws;
mod load;
mod open;
pub mod outcome;
mod sessions;
mod show;
#[cfg(test)]
mod tests;
pub mod top;
mod trial;
