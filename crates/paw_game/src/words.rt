// The rules of words.

ghost use Rattle.std.specs.Prelude.{◌≡◌, ◌<◌, [], IfSome, length};
ghost use Rattle.paw_game.specs.Valid.{are_letters, is_filled, is_letter, is_word};
ghost use Rattle.paw_game.specs.inner.Fault.{bad_word, words_fault};

use crate::parts::Word;
use crate::rows::row_fault;
use paw_base::limits::{WORD_LENGTH, WORD_LIMIT};
use paw_base::words::{GREATEST_WORD, LEAST_WORD, PRONOUN_CLASS};

/// The row to name of the words, where one breaks a rule or there are too many.
#[tactic(auto, unfolding(crate::specs::inner::Fault::words_fault))]
pub(crate) fn words_fault(words: &[Word]) -> Option<u32>
    ensures value { result ≡ words_fault words.now }
{
    row_fault(0, WORD_LIMIT, words.len(), bad_word(words))
}

// The first word that breaks a rule, or doesn't stand above the one before it.
fn bad_word(words: &[Word]) -> Option<usize>
    ensures value { result ≡ bad_word 0 [] words.now }
    ensures within { IfSome result (λ row. row < length words.now) }
{
    let mut before: &[u8] = &[];
    for (row, word) in words.iter().enumerate() {
        if !is_word(word) || !before.cmp(word.letters.as_slice()).is_lt() {
            return Some(row);
        }
        before = word.letters.as_slice();
    }
    None
}

// Whether a word follows the rules of its letters, its value and its class.
fn is_word(word: &Word) -> bool
    ensures value { result ≡ is_word word.now }
{
    are_letters(&word.letters)
        && word.value >= LEAST_WORD
        && word.value <= GREATEST_WORD
        && word.class <= PRONOUN_CLASS
}

/// Whether letters are capitals and digits, at least one, and then only spaces.
pub fn are_letters(letters: &[u8; WORD_LENGTH]) -> bool
    ensures value { result ≡ are_letters letters.now }
{
    is_letter(letters[0]) && is_filled(letters.as_slice())
}

// Whether letters are capitals and digits, and then only spaces.
fn is_filled(letters: &[u8]) -> bool
    ensures value { result ≡ is_filled letters.now }
{
    let mut filled_up = false;
    for byte in letters {
        if filled_up || !is_letter(*byte) {
            if *byte != b' ' {
                return false;
            }
            filled_up = true;
        }
    }
    true
}

fn is_letter(byte: u8) -> bool
    ensures value { result ≡ is_letter byte }
{
    byte.is_ascii_uppercase() || byte.is_ascii_digit()
}
