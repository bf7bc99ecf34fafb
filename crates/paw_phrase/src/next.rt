// Reading the next phrase.

ghost use Rattle.std.specs.Prelude.{◌≡◌, ◌≤◌, ℕ, length, drop};
ghost use Rattle.paw_phrase.specs.Sentence.{phrase_parsed};
ghost use Rattle.paw_phrase.specs.inner.Draft.{phrase_part_of, or_nothing, with_part, draft_outcome};
ghost use Rattle.paw_phrase.specs.inner.Taking.{TakesPhrase};

use crate::line::Pending;
use crate::tokens::first_lexeme;
use crate::{Found, Sentence};
use paw_base::limits::WORD_LENGTH;
use paw_base::words::CONJUNCTION_CLASS;
use paw_game::tables::Tables;

/// What a token or a separator is in a phrase.
#[derive(Clone, Copy, Drop)]
enum Part {
    Break,
    Unknown,
    Word { value: u8, class: u8 },
}

/// A phrase as far as it is read: whether it has begun and has a known word, and what its words fill.
#[derive(Clone, Copy, Drop)]
struct PhraseDraft {
    found: Found,
    words: Sentence,
}

/// A phrase that was read to its end, and where the bytes after it begin.
#[derive(Clone, Copy, Drop)]
struct PhraseReading {
    draft: PhraseDraft,
    end: usize,
}

// What a token, or a separator (None), is in a phrase.
fn part_of<T: Tables>(tables: &T, token: Option<[u8; WORD_LENGTH]>) -> Part
    ensures value { result ≡ phrase_part_of (T.game tables.now) token }
{
    match token {
        None => Part::Break,
        Some(letters) => match tables.word(&letters) {
            None => Part::Unknown,
            Some((_, CONJUNCTION_CLASS)) => Part::Break,
            Some((value, class)) => Part::Word { value, class },
        },
    }
}

impl PhraseDraft {
    // An unknown token begins a phrase.
    fn with_unknown(self) -> PhraseDraft
        ensures value { result ≡ record self { found = or_nothing self.found } }
    {
        match self.found {
            Found::Empty => PhraseDraft {
                found: Found::Nothing,
                words: self.words,
            },
            Found::Nothing | Found::Sentence => self,
        }
    }

    // The draft with one part more; None where the phrase ends.
    fn with(self, part: Part) -> Option<PhraseDraft>
        ensures value { result ≡ with_part part self }
    {
        match part {
            Part::Break => match self.found {
                Found::Empty => Some(self),
                Found::Nothing | Found::Sentence => None,
            },
            Part::Unknown => Some(self.with_unknown()),
            Part::Word { value, class } => {
                let mut words = self.words;
                words.add(value, class);
                Some(PhraseDraft {
                    found: Found::Sentence,
                    words,
                })
            }
        }
    }
}

// The next phrase of these bytes, where a pronoun stands for this noun and adjective.
fn read_phrase<T: Tables>(tables: &T, bytes: &[u8], noun: u8, adjective: u8) -> PhraseReading
    ensures within { result.end ≤ length bytes.now }
    ensures value { (earlier : ℕ) → phrase_parsed (T.game tables.now) bytes.now earlier noun adjective
        ≡ draft_outcome earlier result.draft (drop result.end bytes.now) }
{
    let mut draft = PhraseDraft {
        found: Found::Empty,
        words: Sentence::blank(noun, adjective),
    };
    let mut end = 0;
    while let Some(lexeme) = first_lexeme(&bytes[end..]) {
        end += lexeme.end;
        match draft.with(part_of(tables, lexeme.token)) {
            Some(longer) => draft = longer,
            None => return PhraseReading { draft, end },
        }
    }
    PhraseReading {
        draft,
        end: bytes.len(),
    }
}

/// Takes the next phrase of what is pending. Before the call, the pronoun fields of `sentence` say which noun and
/// adjective a pronoun stands for; the other fields are not looked at.
///
/// Sentence: `sentence` is the phrase's, with the noun and adjective that a pronoun stands for from now on, the bytes
/// after the phrase stay pending, and its verb becomes the earlier one. Nothing, for a phrase with no known word: the
/// bytes after it stay pending, and nothing else changes. Empty, where there is no phrase: nothing changes.
pub fn next_phrase<T: Tables>(tables: &T, pending: &mut Pending, sentence: &mut Sentence) -> Found
    ensures value { TakesPhrase
        (phrase_parsed (T.game tables.now) pending.old.bytes pending.old.earlier
        sentence.old.pronoun_noun sentence.old.pronoun_adjective)
        result pending.old pending.new sentence.old sentence.new }
{
    let reading = read_phrase(
        tables,
        pending.bytes(),
        sentence.pronoun_noun,
        sentence.pronoun_adjective,
    );
    let earlier = pending.earlier();
    match reading.draft.found {
        Found::Sentence => {
            *sentence = reading.draft.words;
            sentence.finish(earlier);
            pending.pass(reading.end, sentence.verb);
        }
        Found::Nothing => pending.pass(reading.end, earlier),
        Found::Empty => {}
    }
    reading.draft.found
}
