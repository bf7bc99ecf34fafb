//! The canonical source of a game: one text for each game.
#![tactic(auto)]

mod entries;
mod exits;
mod objects;
mod printer;
mod rows;
mod texts;
mod vocabulary;

pub use printer::canonical;
