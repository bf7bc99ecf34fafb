// The words that were declared.

ghost use Rattle.std.specs.Prelude.{◌≡◌, [], length, None, Ok, IfOk};
ghost use Rattle.std.specs.Option.{ok_or};
ghost use Rattle.paw_game.specs.Tables.{word_of};
ghost use Rattle.paw_read_error.specs.inner.Gives.{Gives};
ghost use Rattle.paw_grammar.specs.Vocabulary.{words_with, with_word_declared, declared_word, in_class, as_verb};
ghost use Rattle.paw_grammar.specs.Vocabulary.{or_none};
ghost use Rattle.paw_grammar.specs.Vocabulary.{or_any, word_or_none, verb_word, entry_verb, entry_noun};
ghost use Rattle.paw_grammar.specs.inner.WordMap.{words_in};

use crate::refusal::LineError;
use crate::tokens::Tokens;
use crate::words::letters_in;
use paw_base::fault::{NoRoom, SourceKind};
use paw_base::limits::{WORD_LENGTH, WORD_LIMIT};
use paw_base::words::{ANY_WORD, FIRST_PLAIN_NOUN, NO_WORD, NOUN_CLASS, VERB_CLASS};
use paw_game::parts::Word;
use paw_read_error::read_error::ReadError;
use std::alloc::Global;
use std::collections::BTreeMap;
use std::marker::Model;

/// What a word means: its value, and its class.
#[derive(Clone, Copy, Drop, PartialEq, Eq, Debug)]
struct WordMeaning {
    value: u8,
    class: u8,
}

// The declared word with these letters.
fn find(
    words: &BTreeMap<[u8; WORD_LENGTH], WordMeaning>,
    letters: [u8; WORD_LENGTH],
) -> Option<Word>
    ensures value { result ≡ word_of letters (words_in words.now.entries) }
{
    match words.get(&letters) {
        None => None,
        Some(meaning) => Some(Word {
            letters,
            value: meaning.value,
            class: meaning.class,
        }),
    }
}

// How many words are declared.
fn count(words: &BTreeMap<[u8; WORD_LENGTH], WordMeaning>) -> usize
    ensures value { result ≡ length (words_in words.now.entries) }
{
    words.len()
}

// Puts a word that isn't among the words in its place.
fn put(words: &mut BTreeMap<[u8; WORD_LENGTH], WordMeaning>, word: Word) -> Result<(), LineError>
    requires fresh { word_of word.letters (words_in words.old.entries) ≡ None }
    ensures gives { Gives (λ _. words_in words.new.entries) result (Ok (words_with word (words_in words.old.entries))) }
{
    let meaning = WordMeaning {
        value: word.value,
        class: word.class,
    };
    match words.insert(word.letters, meaning) {
        Ok(_) => Ok(()),
        Err(_) => Err(ReadError::Memory),
    }
}

// The words in order of their letters.
fn word_list(
    alloc: Global,
    words: &BTreeMap<[u8; WORD_LENGTH], WordMeaning>,
) -> Result<Vec<Word>, NoRoom>
    ensures value { IfOk result (λ list. list.items ≡ words_in words.now.entries) }
{
    let mut list = Vec::with_capacity(alloc, words.len())?;
    for (letters, meaning) in words {
        list.push(Word {
            letters: *letters,
            value: meaning.value,
            class: meaning.class,
        })?;
    }
    Ok(list)
}

// The value of a word, where there is one and it has this class.
fn in_class(class: u8, word: Option<Word>) -> Option<u8>
    ensures value { result ≡ in_class class word }
{
    match word {
        Some(word) if word.class == class => Some(word.value),
        _ => None,
    }
}

// The value of a word, where there is one and it is a verb or a noun below 20.
fn as_verb(word: Option<Word>) -> Option<u8>
    ensures value { result ≡ as_verb word }
{
    let word = word?;
    if word.class == VERB_CLASS || word.class == NOUN_CLASS && word.value < FIRST_PLAIN_NOUN {
        Some(word.value)
    } else {
        None
    }
}

// 255 for `_`, and otherwise this value.
fn or_none(token: &[u8], value: Option<u8>) -> Option<u8>
    ensures value { result ≡ or_none (λ _. value) token.now }
{
    match token {
        [b'_'] => Some(NO_WORD),
        _ => value,
    }
}

// 1 for `*`, 255 for `_`, and otherwise this value.
fn or_any(token: &[u8], value: Option<u8>) -> Option<u8>
    ensures value { result ≡ or_any (λ _. value) token.now }
{
    match token {
        [b'*'] => Some(ANY_WORD),
        _ => or_none(token, value),
    }
}

// The value, or Word where there is none.
fn or_word_fault(value: Option<u8>) -> Result<u8, LineError>
    ensures value { result ≡ ok_or value (ReadError.Fault SourceKind.Word) }
{
    match value {
        Some(value) => Ok(value),
        None => Err(ReadError::Fault(SourceKind::Word)),
    }
}

/// The declared words, no two with the same letters; contracts see them as a list in order of their letters.
#[derive(Drop)]
pub struct Vocabulary {
    words: BTreeMap<[u8; WORD_LENGTH], WordMeaning>,
}

impl Model for Vocabulary {
    ghost use Rattle.std.specs.Prelude.{List};
    ghost use Rattle.paw_game.specs.declared.parts.Word.{Word};
    ghost use Rattle.paw_grammar.specs.inner.WordMap.{words_in};

    ghost Value = { List Word };

    ghost view = { λ v. words_in v.words.entries };
}

impl Vocabulary {
    /// No words.
    pub fn new(alloc: Global) -> Vocabulary
        ensures value { result ≡ [] }
    {
        Vocabulary {
            words: BTreeMap::new(alloc),
        }
    }

    /// Declares a word.
    ///
    /// # Errors
    /// Duplicate exactly where its letters are declared, with any class, and otherwise TooBig exactly where there are
    /// 2,000 words. Memory where there is none.
    pub fn declare(&mut self, word: Word) -> Result<(), LineError>
        ensures gives { Gives (λ _. self.new) result (with_word_declared word self.old) }
    {
        if find(&self.words, word.letters).is_some() {
            return Err(ReadError::Fault(SourceKind::Duplicate));
        }
        if count(&self.words) == WORD_LIMIT {
            return Err(ReadError::Fault(SourceKind::TooBig));
        }
        put(&mut self.words, word)
    }

    /// The words in order of their letters.
    ///
    /// # Errors
    /// NoRoom where there is no memory.
    pub fn into_words(self, alloc: Global) -> Result<Vec<Word>, NoRoom>
        ensures value { IfOk result (λ list. list.items ≡ self) }
    {
        word_list(alloc, &self.words)
    }

    // The declared word that a token spells.
    fn find_word(&self, token: &[u8]) -> Option<Word>
        ensures value { result ≡ declared_word self.now token.now }
    {
        let letters = letters_in(token)?;
        find(&self.words, letters)
    }

    // The value of the word that a token spells, where it has this class.
    fn word_value(&self, class: u8, token: &[u8]) -> Option<u8>
        ensures value { result ≡ in_class class (declared_word self.now token.now) }
    {
        in_class(class, self.find_word(token))
    }

    // The verb value of the word that a token spells.
    fn verb_value(&self, token: &[u8]) -> Option<u8>
        ensures value { result ≡ as_verb (declared_word self.now token.now) }
    {
        as_verb(self.find_word(token))
    }

    /// Takes an object's word, or one that is a parameter: 255 for `_`, otherwise the value of the word of this class.
    ///
    /// # Errors
    /// Missing exactly where the line ends, and Word exactly where the token is no such word.
    pub fn word_or_none(&self, class: u8, tokens: &mut Tokens) -> Result<u8, LineError>
        ensures gives { Gives (λ value. (value, tokens.new)) result (word_or_none self.now class tokens.old) }
    {
        let token = tokens.token()?;
        or_word_fault(or_none(token, self.word_value(class, token)))
    }

    /// Takes the verb of an exit: the value of a verb, or of a noun below 20.
    ///
    /// # Errors
    /// As `word_or_none`.
    pub fn verb_word(&self, tokens: &mut Tokens) -> Result<u8, LineError>
        ensures gives { Gives (λ value. (value, tokens.new)) result (verb_word self.now tokens.old) }
    {
        let token = tokens.token()?;
        or_word_fault(self.verb_value(token))
    }

    /// Takes the verb of an entry: 1 for `*`, 255 for `_`, and otherwise the value of a verb, or of a noun below 20.
    ///
    /// # Errors
    /// As `word_or_none`.
    pub fn entry_verb(&self, tokens: &mut Tokens) -> Result<u8, LineError>
        ensures gives { Gives (λ value. (value, tokens.new)) result (entry_verb self.now tokens.old) }
    {
        let token = tokens.token()?;
        or_word_fault(or_any(token, self.verb_value(token)))
    }

    /// Takes the noun of an entry: 1 for `*`, 255 for `_`, and otherwise the value of a noun.
    ///
    /// # Errors
    /// As `word_or_none`.
    pub fn entry_noun(&self, tokens: &mut Tokens) -> Result<u8, LineError>
        ensures gives { Gives (λ value. (value, tokens.new)) result (entry_noun self.now tokens.old) }
    {
        let token = tokens.token()?;
        or_word_fault(or_any(token, self.word_value(NOUN_CLASS, token)))
    }
}
