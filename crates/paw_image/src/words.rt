// The words of an image.

ghost use Rattle.paw_game.specs.Image.{word_image};
ghost use Rattle.std.specs.Prelude.{◌≡◌, []};
ghost use Rattle.paw_image.specs.Damage.{checked_word, words_above};
ghost use Rattle.paw_read_error.specs.inner.Gives.{Gives};
ghost use Rattle.paw_image.specs.inner.Words.{last_letters};
ghost use Rattle.paw_image.specs.inner.Sizes.{FitsWord};

use crate::fault::ReadFault;
use crate::fields::{fault_at, read_array, read_byte};
use crate::rows::Row;
use paw_base::limits::WORD_LENGTH;
use paw_base::words::{GREATEST_WORD, LEAST_WORD, PRONOUN_CLASS};
use paw_game::parts::Word;
use paw_game::words::are_letters;
use std::alloc::{AllocError, Global};

impl Row for Word {
    ghost spelling = { word_image };

    ghost fits = { FitsWord };

    fn length(&self) -> usize {
        WORD_LENGTH + 2
    }

    fn write(&self, out: &mut Vec<u8>) -> Result<(), AllocError> {
        out.extend_from_slice(&self.letters)?;
        out.extend_from_slice(&[self.value, self.class])
    }
}

// The word at the front, which stands above these letters.
#[tactic(auto, unfolding(crate::specs::Damage::checked_word))]
fn read_checked<'a>(before: &[u8], bytes: &'a [u8]) -> Result<(Word, &'a [u8]), ReadFault>
    ensures gives { Gives (λ x. (x.0, x.1.now)) result (checked_word before.now bytes.now) }
{
    let (letters, values) = read_array(bytes)?;
    if !are_letters(&letters) || !before.cmp(letters.as_slice()).is_lt() {
        return Err(fault_at(bytes));
    }
    let (value, classes) = read_byte(values)?;
    if value < LEAST_WORD || value > GREATEST_WORD {
        return Err(fault_at(values));
    }
    let (class, rest) = read_byte(classes)?;
    if class > PRONOUN_CLASS {
        return Err(fault_at(classes));
    }
    let word = Word {
        letters,
        value,
        class,
    };
    Ok((word, rest))
}

// The letters of the last word; none where there is no word.
fn last_letters(words: &[Word]) -> &[u8]
    ensures value { result.now ≡ last_letters words.now }
{
    match words.last() {
        Some(word) => word.letters.as_slice(),
        None => &[],
    }
}

/// The words at the front, each above the one before it.
pub fn read_words(
    alloc: Global,
    count: usize,
    bytes: &[u8],
) -> Result<(Vec<Word>, &[u8]), ReadFault>
    ensures gives { Gives (λ x. (x.0.items, x.1.now)) result (words_above [] count bytes.now) }
{
    let mut words = Vec::new(alloc);
    let mut rest = bytes;
    for _ in 0..count {
        let (word, after) = read_checked(last_letters(&words), rest)?;
        words.push(word)?;
        rest = after;
    }
    Ok((words, rest))
}
