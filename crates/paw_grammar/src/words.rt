// How words, classes and kinds are spelled.

ghost use Rattle.std.specs.Prelude.{◌≡◌, ◌<◌, ◌&&◌};
ghost use Rattle.std.specs.List.{list_all, position};
ghost use Rattle.std.specs.Char.{is_ascii_alphanumeric};
ghost use Rattle.paw_read_error.specs.inner.Gives.{Gives};
ghost use Rattle.paw_grammar.specs.Tokens.{is_named};
ghost use Rattle.paw_grammar.specs.Vocabulary.{is_word_token, letters_of, letters_in, word, class_names};
ghost use Rattle.paw_grammar.specs.Vocabulary.{index_among, class, kind_named, object_kind};

use crate::refusal::LineError;
use crate::tokens::{Tokens, is_named};
use paw_base::fault::SourceKind;
use paw_base::limits::WORD_LENGTH;
use paw_read_error::read_error::ReadError;

/// The names of the classes of words, by class; conjunctions and pronouns are the last.
static CLASS_NAMES: [&[u8]; 7] = [
    b"VERB",
    b"ADVERB",
    b"NOUN",
    b"ADJECTIVE",
    b"PREPOSITION",
    b"CONJUNCTION",
    b"PRONOUN",
];

fn are_letters(token: &[u8]) -> bool
    ensures value { result ≡ list_all is_ascii_alphanumeric token.now }
{
    token.iter().all(|byte| byte.is_ascii_alphanumeric())
}

fn is_word_token(token: &[u8]) -> bool
    ensures value { result ≡ is_word_token token.now }
{
    !token.is_empty() && are_letters(token)
}

// The letters of a word: capitals, cut to five, filled up with spaces.
fn letters_of(token: &[u8]) -> [u8; WORD_LENGTH]
    ensures value { result ≡ letters_of token.now }
{
    let mut letters = [b' '; WORD_LENGTH];
    let len = token.len().min(WORD_LENGTH);
    letters[..len].copy_from_slice(&token[..len]);
    letters.make_ascii_uppercase();
    letters
}

/// The five letters of a token that spells a word.
pub(crate) fn letters_in(token: &[u8]) -> Option<[u8; WORD_LENGTH]>
    ensures value { result ≡ letters_in token.now }
{
    if is_word_token(token) {
        Some(letters_of(token))
    } else {
        None
    }
}

/// Takes a word, declared or not: its letters and digits as capitals, cut to five, filled up with spaces.
///
/// # Errors
/// Missing exactly where the line ends, and Word exactly where the token has another byte.
pub fn word(tokens: &mut Tokens) -> Result<[u8; WORD_LENGTH], LineError>
    ensures gives { Gives (λ letters. (letters, tokens.new)) result (word tokens.old) }
{
    let token = tokens.token()?;
    match letters_in(token) {
        None => Err(ReadError::Fault(SourceKind::Word)),
        Some(letters) => Ok(letters),
    }
}

/// The index of the name that a token is, in any case of letters.
pub(crate) fn index_among(names: &[&[u8]], token: &[u8]) -> Option<usize>
    ensures value { result ≡ position (λ name. is_named token.now name.now) names.now }
{
    names.iter().position(|name| is_named(token, name))
}

// The class that a token names, in any case of letters.
fn class_named(token: &[u8]) -> Option<u8>
    ensures value { result ≡ index_among class_names token.now }
{
    let class = index_among(&CLASS_NAMES, token)?;
    Some(class as u8)
}

/// Takes the name of a class of words: 0 for `verb`, and then `adverb`, `noun`, `adjective`, `preposition`,
/// `conjunction` and `pronoun`.
///
/// # Errors
/// Missing exactly where the line ends, and Word exactly where the token isn't one of these names.
pub fn class(tokens: &mut Tokens) -> Result<u8, LineError>
    ensures gives { Gives (λ class. (class, tokens.new)) result (class tokens.old) }
{
    let token = tokens.token()?;
    match class_named(token) {
        None => Err(ReadError::Fault(SourceKind::Word)),
        Some(class) => Ok(class),
    }
}

// What a kind says of an object: whether it is a container, and whether it may be worn.
fn kind_named(token: &[u8]) -> Option<(bool, bool)>
    ensures value { result ≡ kind_named token.now }
{
    if is_named(token, b"-") {
        Some((false, false))
    } else if is_named(token, b"C") {
        Some((true, false))
    } else if is_named(token, b"W") {
        Some((false, true))
    } else if is_named(token, b"CW") {
        Some((true, true))
    } else {
        None
    }
}

/// Takes the kind of an object, `-`, `C`, `W` or `CW`: whether it is a container, and whether it may be worn.
///
/// # Errors
/// Missing exactly where the line ends, and Word exactly where the token isn't one of these.
pub fn object_kind(tokens: &mut Tokens) -> Result<(bool, bool), LineError>
    ensures gives { Gives (λ kind. (kind, tokens.new)) result (object_kind tokens.old) }
{
    let token = tokens.token()?;
    match kind_named(token) {
        None => Err(ReadError::Fault(SourceKind::Word)),
        Some(kind) => Ok(kind),
    }
}
