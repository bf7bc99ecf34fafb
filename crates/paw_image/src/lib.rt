//! The image of a game: the bytes that stand for it in a file, read and written.
#![tactic(auto)]

mod at_offset;
mod damage;
pub mod decoder;
pub mod encoder;
mod exits;
mod fault;
mod field_rules;
mod fields;
mod head;
mod in_place;
pub mod laws;
mod milestones;
mod objects;
mod offsets;
mod order;
mod parts;
pub mod refusal;
mod rows;
mod tables;
mod texts;
mod version;
pub mod view;
mod word_index;
mod words;
