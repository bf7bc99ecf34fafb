// The numbers of words: their classes, and the values that have a meaning of their own.

/// The class of verbs.
pub const VERB_CLASS: u8 = 0;

/// The class of adverbs.
pub const ADVERB_CLASS: u8 = 1;

/// The class of nouns.
pub const NOUN_CLASS: u8 = 2;

/// The class of adjectives.
pub const ADJECTIVE_CLASS: u8 = 3;

/// The class of prepositions.
pub const PREPOSITION_CLASS: u8 = 4;

/// The class of conjunctions.
pub const CONJUNCTION_CLASS: u8 = 5;

/// The class of pronouns.
pub const PRONOUN_CLASS: u8 = 6;

/// The word `*` of an entry, which matches any word.
pub const ANY_WORD: u8 = 1;

/// The word `_`: no word in a sentence or of an object, and any word in an entry.
pub const NO_WORD: u8 = 255;

/// The least value that a word may have.
pub const LEAST_WORD: u8 = 2;

/// The greatest value that a word may have.
pub const GREATEST_WORD: u8 = 254;

/// The least verb that isn't a direction.
pub const FIRST_PLAIN_VERB: u8 = 14;

/// The least noun that doesn't serve as a verb.
pub const FIRST_PLAIN_NOUN: u8 = 20;

/// The least noun that a pronoun may stand for.
pub const FIRST_NAMED_NOUN: u8 = 50;
