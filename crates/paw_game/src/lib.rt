//! Games: seven lists that follow the rules, the calls that answer their parts by number, and the image of a game.
#![tactic(auto)]

mod check;
pub mod cursor;
pub mod game;
mod inspector;
pub mod lookup;
pub mod parts;
mod rows;
pub mod rules;
pub mod tables;
pub mod texts;
pub mod values;
pub mod words;
