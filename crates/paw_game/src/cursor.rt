// Where reading of an entry's condacts stands.

/// A condact of an entry, by its numbers, and what a game keeps for reading on from there: in an image `offset` is
/// where its bytes begin, and `left` the number of condacts from it on.
#[derive(Clone, Copy, Drop, PartialEq, Eq, Debug)]
pub struct CondactCursor {
    pub table: u8,
    pub entry: u16,
    pub at: u8,
    pub left: u8,
    pub offset: usize,
}
