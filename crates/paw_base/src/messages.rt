// The system messages that a game prints by itself, by what they say.

/// It is dark.
pub const DARK_MESSAGE: u8 = 0;

/// What comes before the objects that can be seen.
pub const SEEN_MESSAGE: u8 = 1;

/// The prompt, where flag 42 names no other.
pub const PROMPT_MESSAGE: u8 = 2;

/// The phrase has no known word.
pub const UNKNOWN_MESSAGE: u8 = 6;

/// There is no way there.
pub const NO_WAY_MESSAGE: u8 = 7;

/// That can't be done: no such object, no such position, no such verb.
pub const IMPOSSIBLE_MESSAGE: u8 = 8;

/// What comes before the objects that are held.
pub const INVENTORY_MESSAGE: u8 = 9;

/// What comes after an object that is worn.
pub const IS_WORN_MESSAGE: u8 = 10;

/// Nothing is held.
pub const EMPTY_HANDED_MESSAGE: u8 = 11;

/// The question of QUIT.
pub const QUIT_MESSAGE: u8 = 12;

/// The question of END.
pub const AGAIN_MESSAGE: u8 = 13;

/// The last word of a game.
pub const GOODBYE_MESSAGE: u8 = 14;

/// It was done.
pub const OK_MESSAGE: u8 = 15;

/// What asks for a key.
pub const KEY_MESSAGE: u8 = 16;

/// What comes before the number of turns.
pub const TURNS_MESSAGE: u8 = 17;

/// What comes after the number of turns.
pub const TURN_MESSAGE: u8 = 18;

/// The plural ending of the word for turns.
pub const PLURAL_MESSAGE: u8 = 19;

/// What ends the line of turns.
pub const TURNS_END_MESSAGE: u8 = 20;

/// What comes before the score.
pub const SCORE_MESSAGE: u8 = 21;

/// What ends the line of the score.
pub const SCORE_END_MESSAGE: u8 = 22;

/// The object isn't worn.
pub const NOT_WORN_MESSAGE: u8 = 23;

/// The object is worn, so it can't be dropped or put away.
pub const WORN_MESSAGE: u8 = 24;

/// The object is worn or carried already.
pub const HELD_MESSAGE: u8 = 25;

/// The object isn't here.
pub const NOT_HERE_MESSAGE: u8 = 26;

/// No more objects can be carried.
pub const TOO_MANY_MESSAGE: u8 = 27;

/// The object isn't carried.
pub const NOT_CARRIED_MESSAGE: u8 = 28;

/// The object is worn already.
pub const WORN_ALREADY_MESSAGE: u8 = 29;

/// The sign at which a line is typed.
pub const LINE_MESSAGE: u8 = 33;

/// The prompt ran out of time.
pub const TIMEOUT_MESSAGE: u8 = 35;

/// The object was taken.
pub const TAKEN_MESSAGE: u8 = 36;

/// The object was put on.
pub const PUT_ON_MESSAGE: u8 = 37;

/// The object was taken off.
pub const TAKEN_OFF_MESSAGE: u8 = 38;

/// The object was dropped.
pub const DROPPED_MESSAGE: u8 = 39;

/// The object can't be worn.
pub const NOT_WEARABLE_MESSAGE: u8 = 40;

/// The object can't be taken off.
pub const NOT_REMOVABLE_MESSAGE: u8 = 41;

/// No more objects can be carried, so this one stays on.
pub const HANDS_FULL_MESSAGE: u8 = 42;

/// The object is too heavy.
pub const TOO_HEAVY_MESSAGE: u8 = 43;

/// The object was put in; a container's name follows.
pub const PUT_IN_MESSAGE: u8 = 44;

/// The object is here, and not inside; a container's name follows.
pub const NOT_TAKEN_OUT_MESSAGE: u8 = 45;

/// The object is here, and not carried.
pub const NOT_HELD_MESSAGE: u8 = 49;

/// The object is carried or here, and not worn.
pub const NOT_PUT_ON_MESSAGE: u8 = 50;

/// What ends a line with a container's name.
pub const NAME_END_MESSAGE: u8 = 51;

/// There is no such object inside; a container's name follows.
pub const NOT_INSIDE_MESSAGE: u8 = 52;

/// No object is at the place.
pub const NOTHING_THERE_MESSAGE: u8 = 53;
