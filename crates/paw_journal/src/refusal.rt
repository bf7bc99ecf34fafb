// Why a store gives no session.

use paw_stage::StageCall;
use thiserror::Error;

/// A part of a session that can be damaged.
#[derive(Clone, Copy, Drop, PartialEq, Eq, Debug)]
pub enum SessionPart {
    Header,
    Slot,
    State,
}

/// Why a store gives no session of a game to go on with by some routines.
#[derive(Clone, Copy, Drop, PartialEq, Eq, Debug, Error)]
pub enum JournalRefusal {
    /// No session is made: the length of the store in bytes, and its first byte (0 where there is none).
    #[error("no session: length {length}, mark {mark}")]
    Unmade { length: u64, mark: u8 },
    /// A rule is broken: the first one is at this offset in its part, in bytes.
    #[error("session damaged: {part:?} at {at}")]
    Damaged { part: SessionPart, at: u64 },
    /// The session belongs to a game with another digest: that which is kept, and that which was asked for.
    #[error("session is of another game")]
    WrongGame { kept: [u8; 32], found: [u8; 32] },
    /// The session is played with routines that have another digest: that which is kept, and that which was asked for.
    #[error("session has other routines")]
    WrongRoutines { kept: [u8; 32], found: [u8; 32] },
    /// A call of the stage failed.
    #[error("a call of the stage failed: {0:?}")]
    Outside(StageCall),
}
