//! The language that authors write: a source in it becomes a plain one, and each part of a plain line has its origin.
#![tactic(auto)]

pub mod author;
mod choices;
pub mod file;
pub mod fragment;
mod hooks;
mod includes;
mod joining;
mod known;
pub mod laws;
mod lines;
pub mod mistake;
mod name_rows;
mod named_lines;
mod order;
mod parts;
mod plain_sources;
mod sections;
mod table_numbers;
#[cfg(test)]
mod tests;
mod tokens;
mod units;

pub use author::plain_lines;
