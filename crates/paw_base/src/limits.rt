// How long the parts of a game, its images, its sources, its pieces and its sessions may be.

/// The most bytes of a source.
pub const SOURCE_LIMIT: usize = 8_388_608;

/// The most bytes of an image.
pub const IMAGE_LIMIT: usize = 4_194_304;

/// How many letters of a word count.
pub const WORD_LENGTH: usize = 5;

/// The most words of a game.
pub const WORD_LIMIT: usize = 2000;

/// The most system messages of a game.
pub const SYSTEM_LIMIT: usize = 256;

/// The most messages of a game.
pub const MESSAGE_LIMIT: usize = 256;

/// The most objects of a game.
pub const OBJECT_LIMIT: usize = 255;

/// The fewest locations of a game.
pub const LOCATION_LEAST: usize = 1;

/// The most locations of a game.
pub const LOCATION_LIMIT: usize = 252;

/// The fewest tables of a game.
pub const TABLE_LEAST: usize = 3;

/// The most tables of a game.
pub const TABLE_LIMIT: usize = 256;

/// The most bytes of a text.
pub const TEXT_LIMIT: usize = 4095;

/// The most exits of a location.
pub const EXIT_LIMIT: usize = 255;

/// The most entries of a table.
pub const ENTRY_LIMIT: usize = 4000;

/// The most condacts of an entry.
pub const CONDACT_LIMIT: usize = 255;

/// The greatest weight of an object by itself.
pub const WEIGHT_LIMIT: u8 = 63;

/// How many levels below an object count in its weight.
pub const WEIGHT_LEVELS: usize = 10;

/// How many objects may be carried when a game starts.
pub const STARTING_CARRIED: u8 = 4;

/// The weight that may be carried when a game starts.
pub const STARTING_WEIGHT: u8 = 10;

/// How many flags a world has.
pub const FLAG_COUNT: usize = 256;

/// How many positions SAVE keeps.
pub const POSITION_COUNT: usize = 4;

/// The most bytes of a line.
pub const LINE_LIMIT: usize = 255;

/// The most bytes of a piece.
pub const PIECE_LIMIT: usize = 65_535;

/// The most condacts that may be read for a piece.
pub const READ_LIMIT: u32 = 200_000;

/// The most steps of a piece that are kept.
pub const STEP_LIMIT: usize = 1000;

/// How many levels deep tables may call one another.
pub const LEVEL_LIMIT: usize = 10;

/// The most lines of a session.
pub const EVENT_LIMIT: u64 = 1_000_000_000;
