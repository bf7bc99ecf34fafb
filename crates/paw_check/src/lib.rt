//! What any play of a game may take at most: how many condacts and bytes a piece, and how many levels of calls.
#![tactic(auto)]

mod costs;
mod deciding;
pub mod laws;
mod measures;
mod own;
mod prints;
mod reached;
mod sets;
mod spots;
mod sums;
mod texts;
pub mod verdict;

pub use deciding::check;
