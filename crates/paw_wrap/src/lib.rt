//! A text in columns: its lines are broken at spaces by first fit, so that each is as long as the width allows.
#![tactic(auto)]

mod columns;
#[cfg(test)]
mod tests;

pub use columns::{WRAP_LIMIT, Wrapped, wrap};
