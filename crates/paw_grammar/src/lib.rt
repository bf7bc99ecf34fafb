//! What a line of a source says, token by token: numbers, words, parameters, and condacts.
#![tactic(auto)]

pub mod bounds;
pub mod condacts;
pub mod numbers;
pub mod places;
pub mod refusal;
pub mod section;
pub mod tokens;
pub mod vocabulary;
pub mod words;
