// The words of a game by their first letters.

ghost use Rattle.std.specs.Prelude.{◌≡◌, ◌≤◌, IfOk, IsTrue, length};
ghost use Rattle.std.specs.Option.{option_copied};
ghost use Rattle.paw_base.specs.declared.limits.TheConstants.{WORD_LIMIT};
ghost use Rattle.paw_game.specs.Tables.{word_of};
ghost use Rattle.paw_game.specs.Valid.{words_are_valid};
ghost use Rattle.paw_image.specs.inner.Groups.{group_of, first_group};
ghost use Rattle.paw_image.specs.inner.Groups.{AreBelowGroup, AreGroupStarts, GroupsRise, IsGroup, IsGroupStart};
ghost use Rattle.paw_image.specs.inner.Numbers.{letters_as_number, AreFiveBytes, AreNumbers};

use paw_base::limits::WORD_LENGTH;
use paw_game::parts::Word;
use std::alloc::{AllocError, Global};
use std::marker::Model;

/// The last group, of all first letters past Z.
const LAST_GROUP: u8 = b'Z' + 1;

/// The words of a game, at most 2,000, in order of their letters, and where those of each first letter begin. Words
/// whose first byte is the same are a group; the last group has all words that begin with a byte past Z. A word is
/// searched in its group alone, which takes fewer comparisons than among all. Contracts see the words.
#[derive(Drop)]
pub struct WordIndex {
    words: Vec<Word>,
    // The letters of each word as a number, since numbers are compared at once.
    numbers: Vec<u64>,
    // Where the words of each group begin, and where those of the last one end: 93 numbers from 0 to 2,000.
    starts: Vec<u16>,
}

impl Model for WordIndex {
    ghost use Rattle.std.specs.Prelude.{List};
    ghost use Rattle.paw_game.specs.declared.parts.Word.{Word};
    ghost use Rattle.paw_image.specs.inner.Groups.{IsWordIndex};

    ghost Value = { List Word };

    ghost view = { λ v. v.words.items };

    ghost invariant = { λ v. IsWordIndex v.words.items v.numbers.items v.starts.items };
}

// The group of a first letter.
fn group_of(letter: u8) -> u8
    ensures value { result ≡ group_of letter }
{
    letter.min(LAST_GROUP)
}

// The group of a word.
fn group_of_word(word: &Word) -> u8
    ensures value { result ≡ first_group word.now.letters }
{
    group_of(word.letters[0])
}

// Where the words of a group begin, which is not before this index.
fn start_from(words: &[Word], before: usize, group: u8) -> usize
    requires rise { GroupsRise words.now }
    requires before { AreBelowGroup words.now group before }
    ensures start { IsGroupStart words.now group result }
    ensures within { result ≤ length words.now }
{
    let mut at = before;
    while at < words.len() && group_of_word(&words[at]) < group {
        at += 1;
    }
    at
}

// Where the words of each group begin, and where those of the last one end.
fn starts_of(alloc: Global, words: &[Word]) -> Result<Vec<u16>, AllocError>
    requires rise { GroupsRise words.now }
    requires few { length words.now ≤ WORD_LIMIT }
    ensures starts { IfOk result (λ v. AreGroupStarts words.now v.items) }
{
    let mut starts = Vec::with_capacity(alloc, LAST_GROUP as usize + 2)?;
    let mut start = 0;
    for group in 0..=LAST_GROUP + 1 {
        start = start_from(words, start, group);
        starts.push(start as u16)?;
    }
    Ok(starts)
}

// Letters as a number, the first one highest, so that letters that stand later have a greater number.
fn letters_as_number(letters: &[u8; WORD_LENGTH]) -> u64
    ensures value { result ≡ letters_as_number letters.now }
    ensures five { AreFiveBytes letters.now }
{
    let [first, second, third, fourth, fifth] = *letters;
    u64::from_be_bytes([0, 0, 0, first, second, third, fourth, fifth])
}

// The letters of each word as a number.
fn numbers_of(alloc: Global, words: &[Word]) -> Result<Vec<u64>, AllocError>
    ensures numbers { IfOk result (λ v. AreNumbers words.now v.items) }
{
    let mut numbers = Vec::with_capacity(alloc, words.len())?;
    for word in words {
        numbers.push(letters_as_number(&word.letters))?;
    }
    Ok(numbers)
}

impl WordIndex {
    /// These words, the letters of each as a number, and where those of each first letter begin.
    pub fn new(alloc: Global, words: Vec<Word>) -> Result<WordIndex, AllocError>
        requires valid { IsTrue (words_are_valid words.items) }
        ensures words { IfOk result (λ v. v ≡ words.items) }
    {
        let starts = starts_of(alloc, &words)?;
        let numbers = numbers_of(alloc, &words)?;
        Ok(WordIndex {
            words,
            numbers,
            starts,
        })
    }

    // The words of the group of a first letter, and the letters of each as a number.
    fn group(&self, letter: u8) -> (&[Word], &[u64])
        ensures group { IsGroup self.now (group_of letter) result.0.now }
        ensures numbers { AreNumbers result.0.now result.1.now }
    {
        let group = group_of(letter) as usize;
        let start = self.starts[group] as usize;
        let end = self.starts[group + 1] as usize;
        (&self.words[start..end], &self.numbers[start..end])
    }

    /// The word with these letters, if there is one.
    pub fn find(&self, letters: &[u8; WORD_LENGTH]) -> Option<&Word>
        ensures value { option_copied result ≡ word_of letters.now self.now }
    {
        let (words, numbers) = self.group(letters[0]);
        let at = numbers.binary_search(&letters_as_number(letters)).ok()?;
        Some(&words[at])
    }
}
