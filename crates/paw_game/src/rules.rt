// The rules of bytes that name a word, a place or a row.

ghost use Rattle.std.specs.Prelude.{◌≡◌, nat_lt};
ghost use Rattle.paw_base.specs.declared.words.TheConstants.{ADJECTIVE_CLASS, NOUN_CLASS};
ghost use Rattle.paw_game.specs.Game.{counts_of};
ghost use Rattle.paw_game.specs.Valid.{has_word, is_parameter, is_place, is_verb_value, is_word_or_none};
ghost use Rattle.paw_game.specs.inner.Values.{counts_in};

use crate::parts::{GameParts, Word};
use crate::values::{is_in_or_none, values_of};
use paw_base::parts::Counts;
use paw_base::places::{CARRIED_PLACE, NOT_CREATED_PLACE};
use paw_base::rows::ParamKind;
use paw_base::words::{
    ADJECTIVE_CLASS, ADVERB_CLASS, FIRST_PLAIN_NOUN, NOUN_CLASS, PREPOSITION_CLASS, VERB_CLASS,
};
use std::marker::Model;

/// How many rows each list has, even if that is more than a game may have.
#[derive(Clone, Copy, Drop)]
pub struct Lengths {
    pub words: usize,
    pub system: usize,
    pub messages: usize,
    pub objects: usize,
    pub locations: usize,
    pub tables: usize,
}

impl Lengths {
    /// These counts.
    pub fn from_counts(counts: Counts) -> Lengths
        ensures value { counts_in result ≡ counts }
    {
        Lengths {
            words: counts.words as usize,
            system: counts.system as usize,
            messages: counts.messages as usize,
            objects: counts.objects as usize,
            locations: counts.locations as usize,
            tables: counts.tables as usize,
        }
    }

    /// How many rows these lists have.
    pub(crate) fn of(parts: &GameParts) -> Lengths
        ensures value { counts_in result ≡ counts_of parts.now }
    {
        Lengths {
            words: parts.words.len(),
            system: parts.system.len(),
            messages: parts.messages.len(),
            objects: parts.objects.len(),
            locations: parts.locations.len(),
            tables: parts.tables.len(),
        }
    }
}

/// How many rows each list has, and which values the words have, by class: a table of 256 for each class, so that no
/// value is searched among the words. Contracts see counts and words.
#[derive(Drop)]
pub struct Rules<'a> {
    lengths: Lengths,
    words: &'a [Word],
    verbs: [bool; 256],
    adverbs: [bool; 256],
    nouns: [bool; 256],
    adjectives: [bool; 256],
    prepositions: [bool; 256],
}

impl<'a> Model for Rules<'a> {
    ghost use Rattle.paw_base.specs.declared.words.TheConstants.{VERB_CLASS, ADVERB_CLASS, NOUN_CLASS};
    ghost use Rattle.paw_base.specs.declared.words.TheConstants.{ADJECTIVE_CLASS, PREPOSITION_CLASS};
    ghost use Rattle.paw_game.specs.inner.Rules.{Declared};
    ghost use Rattle.paw_game.specs.inner.Values.{AreValuesOf, counts_in};

    ghost Value = { Declared };

    ghost view = { λ r. record { counts = counts_in r.lengths; words = r.words.now } };

    ghost invariant = { λ r. AreValuesOf r.verbs r.words.now VERB_CLASS
        × AreValuesOf r.adverbs r.words.now ADVERB_CLASS
        × AreValuesOf r.nouns r.words.now NOUN_CLASS
        × AreValuesOf r.adjectives r.words.now ADJECTIVE_CLASS
        × AreValuesOf r.prepositions r.words.now PREPOSITION_CLASS };
}

impl<'a> Rules<'a> {
    /// The rules for these numbers of rows, and these words.
    pub fn new(lengths: Lengths, words: &'a [Word]) -> Rules<'a>
        ensures value { result ≡ record { counts = counts_in lengths; words = words.now } }
    {
        Rules {
            lengths,
            words,
            verbs: values_of(words, VERB_CLASS),
            adverbs: values_of(words, ADVERB_CLASS),
            nouns: values_of(words, NOUN_CLASS),
            adjectives: values_of(words, ADJECTIVE_CLASS),
            prepositions: values_of(words, PREPOSITION_CLASS),
        }
    }

    /// How many rows each list has.
    pub fn lengths(&self) -> Lengths
        ensures value { counts_in result ≡ self.now.counts }
    {
        self.lengths
    }

    /// The value of a verb, or of a noun below 20.
    pub fn is_verb_value(&self, value: u8) -> bool
        ensures value { result ≡ is_verb_value self.now.words value }
    {
        self.verbs[value as usize] || value < FIRST_PLAIN_NOUN && self.nouns[value as usize]
    }

    /// The value of a noun.
    pub fn is_noun(&self, value: u8) -> bool
        ensures value { result ≡ has_word self.now.words NOUN_CLASS value }
    {
        self.nouns[value as usize]
    }

    /// 255, or the value of a noun.
    pub fn is_noun_or_none(&self, value: u8) -> bool
        ensures value { result ≡ is_word_or_none self.now.words NOUN_CLASS value }
    {
        is_in_or_none(&self.nouns, value)
    }

    /// 255, or the value of an adjective.
    pub fn is_adjective_or_none(&self, value: u8) -> bool
        ensures value { result ≡ is_word_or_none self.now.words ADJECTIVE_CLASS value }
    {
        is_in_or_none(&self.adjectives, value)
    }

    /// The number of a location.
    pub fn is_location(&self, place: u8) -> bool
        ensures value { result ≡ nat_lt place self.now.counts.locations }
    {
        (place as usize) < self.lengths.locations
    }

    /// A location, or 252 to 254.
    pub fn is_place(&self, place: u8) -> bool
        ensures value { result ≡ is_place self.now.counts.locations place }
    {
        self.is_location(place) || matches!(place, NOT_CREATED_PLACE..=CARRIED_PLACE)
    }

    /// Whether a parameter follows the rule of its kind.
    pub fn is_parameter(&self, kind: ParamKind, value: u8) -> bool
        ensures value { result ≡ is_parameter self.now.counts self.now.words kind value }
    {
        let number = value as usize;
        match kind {
            ParamKind::Absent => value == 0,
            ParamKind::Location => self.is_location(value),
            ParamKind::Place => self.is_location(value) || value >= NOT_CREATED_PLACE,
            ParamKind::Object => number < self.lengths.objects,
            ParamKind::Flag | ParamKind::Number => true,
            ParamKind::Message => number < self.lengths.messages,
            ParamKind::System => number < self.lengths.system,
            ParamKind::Table => number < self.lengths.tables,
            ParamKind::Adverb => is_in_or_none(&self.adverbs, value),
            ParamKind::Noun => self.is_noun_or_none(value),
            ParamKind::Adjective => self.is_adjective_or_none(value),
            ParamKind::Preposition => is_in_or_none(&self.prepositions, value),
        }
    }
}
