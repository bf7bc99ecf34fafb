// The plain parts of a game that carry no memory of their own.

/// One condact: its code and its two parameters. A parameter that the code doesn't have is 0.
#[derive(Clone, Copy, Drop, PartialEq, Eq, Debug)]
pub struct Condact {
    pub code: u8,
    pub a: u8,
    pub b: u8,
}

/// What a game says of an object besides its text: its two words (255 for none), the place where it begins, its own
/// weight (0 to 63), and whether it is a container and may be worn.
#[derive(Clone, Copy, Drop, PartialEq, Eq, Debug)]
pub struct ObjectFacts {
    pub noun: u8,
    pub adjective: u8,
    pub start: u8,
    pub weight: u8,
    pub container: bool,
    pub wearable: bool,
}

/// How many rows each list of a game has.
#[derive(Clone, Copy, Drop, PartialEq, Eq, Debug)]
pub struct Counts {
    pub words: u16,
    pub system: u16,
    pub messages: u16,
    pub objects: u16,
    pub locations: u16,
    pub tables: u16,
}
