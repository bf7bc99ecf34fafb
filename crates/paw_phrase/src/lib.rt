//! Phrases: how a typed line is cut into phrases, and how a phrase becomes a sentence.
#![tactic(auto)]

ghost use Rattle.std.specs.Prelude.{◌≡◌};
ghost use Rattle.paw_phrase.specs.Sentence.{or_value, blank, with_noun, with_adjective};
ghost use Rattle.paw_phrase.specs.Sentence.{with_pronoun, with_word, sentence_finished};

use paw_base::words::{
    ADJECTIVE_CLASS, ADVERB_CLASS, FIRST_NAMED_NOUN, FIRST_PLAIN_NOUN, NO_WORD, NOUN_CLASS,
    PREPOSITION_CLASS, PRONOUN_CLASS, VERB_CLASS,
};

pub mod laws;
mod line;
mod next;
#[cfg(test)]
mod tests;
mod tokens;

pub use line::Pending;
pub use next::next_phrase;

/// A sentence: the values of its words, 255 where it has none, and the noun and adjective that a pronoun stands for
/// afterwards.
#[derive(Clone, Copy, Drop, PartialEq, Eq, Debug)]
pub struct Sentence {
    pub verb: u8,
    pub noun: u8,
    pub adjective: u8,
    pub adverb: u8,
    pub preposition: u8,
    pub second_noun: u8,
    pub second_adjective: u8,
    pub pronoun_noun: u8,
    pub pronoun_adjective: u8,
}

// A value fills a part that has none yet.
fn fill(part: &mut u8, value: u8)
    ensures value { part.new ≡ or_value part.old value }
{
    if *part == NO_WORD {
        *part = value;
    }
}

impl Sentence {
    /// No word yet; a pronoun stands for this noun and this adjective.
    pub fn blank(noun: u8, adjective: u8) -> Sentence
        ensures value { result ≡ blank noun adjective }
    {
        Sentence {
            verb: NO_WORD,
            noun: NO_WORD,
            adjective: NO_WORD,
            adverb: NO_WORD,
            preposition: NO_WORD,
            second_noun: NO_WORD,
            second_adjective: NO_WORD,
            pronoun_noun: noun,
            pronoun_adjective: adjective,
        }
    }

    // A noun becomes the first noun, or the second where there is a first; a third is ignored.
    fn add_noun(&mut self, value: u8)
        ensures value { self.new ≡ with_noun value self.old }
    {
        if self.noun == NO_WORD {
            self.noun = value;
        } else {
            fill(&mut self.second_noun, value);
        }
    }

    // An adjective belongs to the first noun while there is none yet, then to the second.
    fn add_adjective(&mut self, value: u8)
        ensures value { self.new ≡ with_adjective value self.old }
    {
        if self.noun == NO_WORD {
            fill(&mut self.adjective, value);
        } else {
            fill(&mut self.second_adjective, value);
        }
    }

    // A pronoun gives the noun and adjective that it stands for, if it stands for a noun and one of the two nouns isn't
    // there yet.
    fn add_pronoun(&mut self)
        ensures value { self.new ≡ with_pronoun self.old }
    {
        if self.pronoun_noun == NO_WORD {
            return;
        }
        if self.noun == NO_WORD {
            self.noun = self.pronoun_noun;
            self.adjective = self.pronoun_adjective;
        } else if self.second_noun == NO_WORD {
            self.second_noun = self.pronoun_noun;
            self.second_adjective = self.pronoun_adjective;
        }
    }

    // A word of this value and class is added.
    fn add(&mut self, value: u8, class: u8)
        ensures value { self.new ≡ with_word value class self.old }
    {
        match class {
            VERB_CLASS => fill(&mut self.verb, value),
            ADVERB_CLASS => fill(&mut self.adverb, value),
            NOUN_CLASS => self.add_noun(value),
            ADJECTIVE_CLASS => self.add_adjective(value),
            PREPOSITION_CLASS => fill(&mut self.preposition, value),
            PRONOUN_CLASS => self.add_pronoun(),
            _ => {}
        }
    }

    // The words of a phrase become its sentence, after this verb.
    fn finish(&mut self, earlier: u8)
        ensures value { self.new ≡ sentence_finished earlier self.old }
    {
        if self.verb == NO_WORD {
            self.verb = if self.noun < FIRST_PLAIN_NOUN {
                self.noun
            } else {
                earlier
            };
        }
        if self.noun >= FIRST_NAMED_NOUN && self.noun != NO_WORD {
            self.pronoun_noun = self.noun;
            self.pronoun_adjective = self.adjective;
        }
    }
}

/// What the next phrase is: a sentence, one with no known word, or none at all.
#[derive(Clone, Copy, Drop, PartialEq, Eq, Debug)]
pub enum Found {
    Sentence,
    Nothing,
    Empty,
}
