// The tables that a turn reads by itself. All others are read only where a condact calls them.

/// The table that answers a sentence.
pub const RESPONSE_TABLE: u8 = 0;

/// The table that is read after a location was described.
pub const DESCRIBED_TABLE: u8 = 1;

/// The table that is read in each time frame.
pub const FRAME_TABLE: u8 = 2;
