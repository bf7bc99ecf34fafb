//! The lines of a source, the tokens of a line, and the bytes that a line may hold.
#![tactic(auto)]

mod bytes;
mod lines;
mod tokens;

pub use bytes::{LexFault, byte_fault, is_comment};
pub use lines::{Line, Lines};
pub use tokens::{Token, next_token};
