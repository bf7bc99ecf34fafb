//! The journal of a session: a store of two slots, of which one shows the state and the piece of the last prompt. A
//! commit is all or nothing, whatever a crash leaves.
#![tactic(auto)]

mod changes;
mod committing;
mod drafting;
mod finding;
mod hash;
mod journal;
mod layout;
mod making;
mod reading;
mod refusal;
mod room;
mod store;
#[cfg(test)]
mod tests;

pub use hash::digest;
pub use journal::Journal;
pub use refusal::{JournalRefusal, SessionPart};
pub use room::Room;
pub use store::{Attached, attach};
