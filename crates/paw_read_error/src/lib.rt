//! Why something isn't read: lack of memory, or its first fault.
#![tactic(auto)]

pub mod laws;
pub mod read_error;
