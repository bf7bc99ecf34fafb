// The words of a game, and which of them stands for a value.

ghost use Rattle.std.specs.Prelude.{◌≡◌, ◌≤◌, ◌++◌, ◌∷◌, ◌==◌, List, [], OnOk, decimal, length};
ghost use Rattle.std.specs.List.{position_or_len};
ghost use Rattle.std.specs.Option.{option_map_or};
ghost use Rattle.paw_base.specs.declared.words.TheConstants.{PREPOSITION_CLASS};
ghost use Rattle.paw_print.specs.Lines.{class_name, spelled_letters, tokens_spaced};
ghost use Rattle.paw_print.specs.Lines.{first_word, value_token, verb_token, word_token};
ghost use Rattle.paw_print.specs.Canonical.{with_line_end, words_lines, with_line_ends};
ghost use Rattle.paw_print.specs.inner.Words.{HasFirst};

use crate::rows::{Written, end_line, write_header, write_number, write_token};
use paw_base::words::{
    ADJECTIVE_CLASS, ADVERB_CLASS, ANY_WORD, CONJUNCTION_CLASS, NO_WORD, NOUN_CLASS,
    PREPOSITION_CLASS, VERB_CLASS,
};
use paw_game::parts::Word;
use std::marker::Model;

/// The words of a game, and for each class and value the first of them, so that no value is searched among the words.
/// Contracts see the words.
#[derive(Drop)]
pub(crate) struct WordsByValue<'a> {
    words: &'a [Word],
    verbs: [Option<Word>; 256],
    adverbs: [Option<Word>; 256],
    nouns: [Option<Word>; 256],
    adjectives: [Option<Word>; 256],
    prepositions: [Option<Word>; 256],
}

impl<'a> Model for WordsByValue<'a> {
    ghost use Rattle.std.specs.Prelude.{List};
    ghost use Rattle.paw_base.specs.declared.words.TheConstants.{VERB_CLASS, ADVERB_CLASS, NOUN_CLASS};
    ghost use Rattle.paw_base.specs.declared.words.TheConstants.{ADJECTIVE_CLASS, PREPOSITION_CLASS};
    ghost use Rattle.paw_game.specs.declared.parts.Word.{Word};
    ghost use Rattle.paw_print.specs.inner.Words.{HasFirst};

    ghost Value = { List Word };

    ghost view = { λ v. v.words.now };

    ghost invariant = { λ v. record {
      verbs_are : HasFirst v.verbs v.words.now VERB_CLASS;
      adverbs_are : HasFirst v.adverbs v.words.now ADVERB_CLASS;
      nouns_are : HasFirst v.nouns v.words.now NOUN_CLASS;
      adjectives_are : HasFirst v.adjectives v.words.now ADJECTIVE_CLASS;
      prepositions_are : HasFirst v.prepositions v.words.now PREPOSITION_CLASS;
    } };
}

impl<'a> WordsByValue<'a> {
    pub(crate) fn new(words: &'a [Word]) -> WordsByValue<'a>
        ensures value { result ≡ words.now }
    {
        WordsByValue {
            words,
            verbs: first_words(words, VERB_CLASS),
            adverbs: first_words(words, ADVERB_CLASS),
            nouns: first_words(words, NOUN_CLASS),
            adjectives: first_words(words, ADJECTIVE_CLASS),
            prepositions: first_words(words, PREPOSITION_CLASS),
        }
    }

    /// Writes the section of the words.
    pub(crate) fn write_words(&self, out: &mut Vec<u8>) -> Written
        ensures writes { OnOk result (out.new.items ≡ out.old.items ++ with_line_ends (words_lines self.now)) }
    {
        write_header(b"/VOC", out)?;
        let words = self.words;
        for word in words {
            write_word(word, out)?;
        }
        Ok(())
    }

    // The first word of a class with a value, for the classes whose words stand in lines: verbs, adverbs, nouns,
    // adjectives and prepositions.
    fn first_word(&self, class: u8, value: u8) -> Option<Word>
        requires class { class ≤ PREPOSITION_CLASS }
        ensures word { result ≡ first_word self.now class value }
    {
        let place = value as usize;
        match class {
            VERB_CLASS => self.verbs[place],
            ADVERB_CLASS => self.adverbs[place],
            NOUN_CLASS => self.nouns[place],
            ADJECTIVE_CLASS => self.adjectives[place],
            _ => self.prepositions[place],
        }
    }

    /// Writes the token of a verb value.
    pub(crate) fn write_verb(&self, value: u8, out: &mut Vec<u8>) -> Written
        ensures writes { OnOk result (out.new.items ≡ out.old.items ++ verb_token self.now value) }
    {
        let verb = self.first_word(VERB_CLASS, value);
        write_value(value, verb.or(self.first_word(NOUN_CLASS, value)), out)
    }

    /// Writes the token of a value of a class after one space.
    pub(crate) fn write_value_of(&self, class: u8, value: u8, out: &mut Vec<u8>) -> Written
        requires class { class ≤ PREPOSITION_CLASS }
        ensures writes { OnOk result (out.new.items ≡ out.old.items ++ 32 ∷ value_token self.now class value) }
    {
        out.push(b' ')?;
        write_value(value, self.first_word(class, value), out)
    }
}

// The first word of the class with each value.
fn first_words(words: &[Word], class: u8) -> [Option<Word>; 256]
    ensures value { HasFirst result words.now class }
{
    let mut first = [None; 256];
    for word in words {
        if word.class == class {
            let place = word.value as usize;
            first[place] = first[place].or(Some(*word));
        }
    }
    first
}

// Writes a value where words stand: `*` for 1, `_` for 255, and otherwise its word.
fn write_value(value: u8, word: Option<Word>, out: &mut Vec<u8>) -> Written
    ensures writes { OnOk result (out.new.items ≡ out.old.items ++ word_token value word) }
{
    match value {
        ANY_WORD => out.extend_from_slice(b"*"),
        NO_WORD => out.extend_from_slice(b"_"),
        _ => write_letters(word, out),
    }
}

// Writes the letters of a word; nothing where there is none.
fn write_letters(word: Option<Word>, out: &mut Vec<u8>) -> Written
    ensures writes { OnOk result (out.new.items ≡ out.old.items ++ option_map_or spelled_letters word []) }
{
    match word {
        Some(word) => out.extend_from_slice(letters_of(&word)),
        None => Ok(()),
    }
}

// The letters of a word, without the spaces that fill them up.
fn letters_of(word: &Word) -> &[u8]
    ensures value { result.now ≡ spelled_letters word.now }
{
    let count = letter_count(&word.letters);
    &word.letters[..count]
}

// How many letters stand before the first space.
fn letter_count(letters: &[u8]) -> usize
    ensures value { result ≡ position_or_len (λ b. b == 32) letters.now }
    ensures within { result ≤ length letters.now }
{
    letters.iter().take_while(|letter| **letter != b' ').count()
}

// The name of a class of words.
fn class_name(class: u8) -> &'static [u8]
    ensures value { result.now ≡ class_name class }
{
    match class {
        VERB_CLASS => b"verb",
        ADVERB_CLASS => b"adverb",
        NOUN_CLASS => b"noun",
        ADJECTIVE_CLASS => b"adjective",
        PREPOSITION_CLASS => b"preposition",
        CONJUNCTION_CLASS => b"conjunction",
        _ => b"pronoun",
    }
}

// Writes the line of a word.
fn write_word(word: &Word, out: &mut Vec<u8>) -> Written
    ensures writes { let tokens = spelled_letters word.now ∷ decimal word.now.value ∷ class_name word.now.class ∷ [] in
        OnOk result (out.new.items ≡ out.old.items ++ with_line_end (tokens_spaced tokens)) }
{
    out.extend_from_slice(letters_of(word))?;
    write_number(word.value as usize, out)?;
    write_token(class_name(word.class), out)?;
    end_line(out)
}
