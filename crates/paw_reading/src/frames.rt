// Where reading stands.

/// A point in an open table, counted from 0 in each part, and whether an action was carried out there before it.
#[derive(Clone, Copy, Drop, PartialEq, Eq, Debug)]
pub struct Frame {
    pub table: u8,
    pub entry: u16,
    pub at: u8,
    pub acted: bool,
}

/// An open loop over the objects at a place: the level, table, entry and condact of its DOALL, its place, and the
/// object that it took last.
#[derive(Clone, Copy, Drop, PartialEq, Eq, Debug)]
pub struct OpenLoop {
    pub level: u8,
    pub table: u8,
    pub entry: u16,
    pub at: u8,
    pub place: u8,
    pub last: u8,
}
