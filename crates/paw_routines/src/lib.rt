//! Routines that a game may call: code from outside, known by the values that it gives.
#![tactic(auto)]

pub mod program;
pub mod routines;
