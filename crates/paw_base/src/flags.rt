// The flags that have a meaning of their own. All others are the author's.

/// A flag that isn't 0 while it is dark.
pub const DARK_FLAG: u8 = 0;

/// How many objects are carried.
pub const CARRIED_FLAG: u8 = 1;

/// A flag that falls by one before each view.
pub const VIEW_FLAG: u8 = 2;

/// A flag that falls by one before each view while it is dark.
pub const DARK_VIEW_FLAG: u8 = 3;

/// A flag that falls by one before each view while it is dark and the light source isn't present.
pub const UNLIT_VIEW_FLAG: u8 = 4;

/// The first of the flags that fall by one in each time frame.
pub const FIRST_FRAME_FLAG: u8 = 5;

/// The last of the flags that fall by one in each time frame.
pub const LAST_FRAME_FLAG: u8 = 8;

/// A flag that falls by one in each time frame while it is dark.
pub const DARK_FRAME_FLAG: u8 = 9;

/// A flag that falls by one in each time frame while it is dark and the light source isn't present.
pub const UNLIT_FRAME_FLAG: u8 = 10;

/// The score.
pub const SCORE_FLAG: u8 = 30;

/// The low byte of the number of turns.
pub const LOW_TURNS_FLAG: u8 = 31;

/// The high byte of the number of turns.
pub const HIGH_TURNS_FLAG: u8 = 32;

/// The verb of the sentence; 255 for none, as in all words of the sentence.
pub const VERB_FLAG: u8 = 33;

/// The first noun of the sentence.
pub const NOUN_FLAG: u8 = 34;

/// The first noun's adjective.
pub const ADJECTIVE_FLAG: u8 = 35;

/// The adverb of the sentence.
pub const ADVERB_FLAG: u8 = 36;

/// How many objects may be carried.
pub const MOST_CARRIED_FLAG: u8 = 37;

/// The current location.
pub const LOCATION_FLAG: u8 = 38;

/// The system message of the prompt; 0 stands for message 2.
pub const PROMPT_FLAG: u8 = 42;

/// The preposition of the sentence.
pub const PREPOSITION_FLAG: u8 = 43;

/// The second noun of the sentence.
pub const SECOND_NOUN_FLAG: u8 = 44;

/// The second noun's adjective.
pub const SECOND_ADJECTIVE_FLAG: u8 = 45;

/// The noun that a pronoun stands for.
pub const PRONOUN_NOUN_FLAG: u8 = 46;

/// The adjective that a pronoun stands for.
pub const PRONOUN_ADJECTIVE_FLAG: u8 = 47;

/// A flag that isn't 0 while a prompt may run out of time.
pub const TIMEOUT_FLAG: u8 = 48;

/// A flag whose bit 7 says that the last line was a timeout.
pub const TIMED_OUT_FLAG: u8 = 49;

/// Bit 7 of TIMED_OUT_FLAG: whether the last line was a timeout.
pub const TIMED_OUT_BIT: u8 = 128;

/// The object that the loop over objects took last. It doesn't steer the loop.
pub const LOOP_FLAG: u8 = 50;

/// The object last referred to; 255 for none.
pub const REFERRED_FLAG: u8 = 51;

/// The greatest weight that may be carried.
pub const MOST_WEIGHT_FLAG: u8 = 52;

/// A flag whose bit 6 makes lists run on one line.
pub const LISTING_FLAG: u8 = 53;

/// Bit 6 of LISTING_FLAG: whether lists run on one line.
pub const LISTING_BIT: u8 = 64;

/// The place of the object last referred to.
pub const REFERRED_PLACE_FLAG: u8 = 54;

/// The weight of the object last referred to.
pub const REFERRED_WEIGHT_FLAG: u8 = 55;

/// Whether the object last referred to is a container: 128 if it is, 0 if not.
pub const REFERRED_CONTAINER_FLAG: u8 = 56;

/// Whether the object last referred to may be worn: 128 if it may, 0 if not.
pub const REFERRED_WEARABLE_FLAG: u8 = 57;

/// What REFERRED_CONTAINER_FLAG holds for a container, and REFERRED_WEARABLE_FLAG for what may be worn.
pub const FACT_HOLDS: u8 = 128;

/// The number of the position that SAVE keeps and LOAD takes back, modulo 4.
pub const POSITION_FLAG: u8 = 58;
