// The places that aren't locations. Those below 252 are the locations, by their numbers.

/// The place of an object that isn't created.
pub const NOT_CREATED_PLACE: u8 = 252;

/// The place of an object that is worn.
pub const WORN_PLACE: u8 = 253;

/// The place of an object that is carried.
pub const CARRIED_PLACE: u8 = 254;

/// The current location, as a parameter of a condact. No object stands there.
pub const HERE_PLACE: u8 = 255;
