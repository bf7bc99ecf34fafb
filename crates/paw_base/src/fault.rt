// Refusals and faults that several crates name.

use std::alloc::{AllocError, AllocFailed};

/// There is no memory.
#[derive(Clone, Copy, Drop, PartialEq, Eq, Debug)]
pub struct NoRoom;

impl From<AllocError> for NoRoom {
    fn from(_: AllocError) -> NoRoom {
        NoRoom
    }
}

impl<T: Drop> From<AllocFailed<T>> for NoRoom {
    fn from(_: AllocFailed<T>) -> NoRoom {
        NoRoom
    }
}

/// What a piece used up: the condacts that it may read, or the text that it may hold.
#[derive(Clone, Copy, Drop, PartialEq, Eq, Debug)]
pub enum SpentKind {
    Condacts,
    Text,
}

/// The kind of a source's first fault.
#[derive(Clone, Copy, Drop, PartialEq, Eq, Debug)]
pub enum SourceKind {
    Section,
    Word,
    Number,
    Range,
    Duplicate,
    Missing,
    Extra,
    Condact,
    Text,
    TooBig,
}

/// A source's first fault: its line, counted from 1 (0 where the whole source is too long), and its kind.
#[derive(Clone, Copy, Drop, PartialEq, Eq, Debug)]
pub struct SourceFault {
    pub line: u32,
    pub kind: SourceKind,
}
