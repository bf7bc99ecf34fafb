// Which values the words of a game have, by class.

ghost use Rattle.std.specs.Prelude.{◌≡◌, ◌||◌, ◌==◌, false};
ghost use Rattle.std.specs.List.{slice_index_or};
ghost use Rattle.paw_base.specs.declared.words.TheConstants.{NO_WORD};
ghost use Rattle.paw_game.specs.Valid.{is_wildcard};
ghost use Rattle.paw_game.specs.inner.Values.{AreValuesOf};

use crate::parts::Word;
use paw_base::words::{ANY_WORD, NO_WORD};

/// Whether a word of an entry matches any word of a sentence.
pub fn is_wildcard(value: u8) -> bool
    ensures value { result ≡ is_wildcard value }
{
    value == ANY_WORD || value == NO_WORD
}

/// Whether a table of values has this one, or it is 255, which stands for no word.
pub(crate) fn is_in_or_none(values: &[bool; 256], value: u8) -> bool
    ensures value { result ≡ ((value == NO_WORD) || slice_index_or values.now value false) }
{
    value == NO_WORD || values[value as usize]
}

/// Which values the words of a class have.
pub(crate) fn values_of(words: &[Word], class: u8) -> [bool; 256]
    ensures value { AreValuesOf result words.now class }
{
    let mut values = [false; 256];
    for word in words {
        if word.class == class {
            values[word.value as usize] = true;
        }
    }
    values
}
