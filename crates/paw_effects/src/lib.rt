//! What one condact does: the conditions, the actions, and the texts that they print.
#![tactic(auto)]

pub mod act;
mod auto_actions;
mod chance;
pub mod condact;
mod conditions;
pub mod counts;
mod hindrances;
mod indirect;
pub mod laws;
mod lists;
mod move_actions;
mod object_actions;
mod object_search;
mod object_words;
pub mod opening;
mod positions;
pub mod presence;
mod referring;
mod signs;
pub mod text;
