//! What a game changes while it is played: flags, places of objects, a saved position, four kept ones, and random
//! draws.
#![tactic(auto)]

mod draws;
mod places;
mod position;
mod set;
pub mod world;
