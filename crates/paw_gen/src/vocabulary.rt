// The values of the words that the games of all trials have.

/// ALL, by which an entry goes over objects.
pub(crate) const ALL_WORD: u8 = 20;

/// AND, which separates phrases.
pub(crate) const AND_WORD: u8 = 2;

/// DROP.
pub(crate) const DROP_WORD: u8 = 31;

/// GET.
pub(crate) const GET_WORD: u8 = 30;

/// INVEN, which lists what is held.
pub(crate) const INVEN_WORD: u8 = 33;

/// LOOK.
pub(crate) const LOOK_WORD: u8 = 32;

/// NORTH, a noun that may stand as a verb.
pub(crate) const NORTH_WORD: u8 = 2;

/// SOUTH, a noun that may stand as a verb.
pub(crate) const SOUTH_WORD: u8 = 3;
