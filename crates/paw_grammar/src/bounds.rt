// What the parameters of condacts have to be below.

/// How many system messages, messages, objects and locations a game has, and how many headers of tables its source has.
#[derive(Clone, Copy, Drop, PartialEq, Eq, Debug)]
pub struct Bounds {
    pub system: u16,
    pub messages: u16,
    pub objects: u16,
    pub locations: u16,
    pub tables: u32,
}
