//! Plain types that all other crates of the workspace name, the numbers that have names, the table of condacts, the
//! piece, the steps of a piece, and rows in memory.
#![tactic(auto)]

pub mod codes;
pub mod fault;
pub mod flags;
pub mod layout;
pub mod limits;
pub mod lists;
pub mod messages;
pub mod parts;
pub mod piece;
pub mod places;
pub mod rows;
pub mod steps;
pub mod tables;
pub mod words;
