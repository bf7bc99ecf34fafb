// The tokens of a line that is in its parts.

ghost use Rattle.std.specs.Prelude.{◌≡◌, ◌==◌, true, drop, IfOk, count_by, slice_get};
ghost use Rattle.std.specs.Option.{option_copied};
ghost use Rattle.paw_read_error.specs.inner.Gives.{Gives};
ghost use Rattle.paw_author.specs.Tokens.{starts_with_byte, is_token, line_tokens, bytes_if_any, token_at, token_count, is_same};
ghost use Rattle.paw_author.specs.Tokens.{first_bytes, origin_of, line_origin, token_origin, leading_word, starts_with_slash};
ghost use Rattle.paw_author.specs.Tokens.{is_quoted, without_quotes, unquoted_from, is_closed, nothing_behind, text_ends, texts_end};

use crate::fragment::{Fragment, Origin};
use crate::mistake::{AuthorError, wrong_line};
use crate::parts::is_gap;
use paw_base::fault::SourceKind;
use paw_read_error::read_error::ReadError;
use std::alloc::{AllocError, Global};

// ---- tokens ----

/// Whether bytes begin with this one.
pub(crate) fn starts_with_byte(byte: u8, bytes: &[u8]) -> bool
    ensures value { result ≡ starts_with_byte byte bytes.now }
{
    match bytes {
        [first, ..] => *first == byte,
        [] => false,
    }
}

/// Whether the bytes of a part are a token.
pub(crate) fn are_token(part: &[u8]) -> bool
    ensures value { result ≡ is_token part.now }
{
    match part {
        [first, ..] => !(is_gap(*first) || *first == b';'),
        [] => false,
    }
}

/// Whether a part is a token.
pub(crate) fn is_token(part: &Fragment) -> bool
    ensures value { result ≡ is_token part.now.bytes }
{
    are_token(part.bytes.as_slice())
}

/// A token without its first byte.
pub(crate) fn without_first(token: &[u8]) -> &[u8]
    ensures value { result.now ≡ drop 1 token.now }
{
    match token {
        [_, rest @ ..] => rest,
        [] => token,
    }
}

/// The token of a line with this index.
pub(crate) fn token(line: &[Fragment], index: usize) -> Option<&Fragment>
    ensures value { option_copied result ≡ slice_get (line_tokens line.now) index }
{
    let mut skipped = index;
    for part in line {
        if is_token(part) {
            if skipped == 0 {
                return Some(part);
            }
            skipped -= 1;
        }
    }
    None
}

// The bytes of a part, if there is one.
fn bytes_if_any(part: Option<&Fragment>) -> &[u8]
    ensures value { result.now ≡ bytes_if_any (option_copied part.entry) }
{
    match part {
        Some(part) => part.bytes.as_slice(),
        None => &[],
    }
}

/// The bytes of a line's token with this index; none where there is no such token.
pub(crate) fn token_at(index: usize, line: &[Fragment]) -> &[u8]
    ensures value { result.now ≡ token_at index line.now }
{
    bytes_if_any(token(line, index))
}

/// How many tokens a line has.
pub(crate) fn token_count(line: &[Fragment]) -> usize
    ensures value { result ≡ token_count line.now }
{
    line.iter().filter(|part| is_token(*part)).count()
}

/// Whether a word is this name, in any case of letters.
pub(crate) fn is_same(word: &[u8], name: &[u8]) -> bool
    ensures value { result ≡ is_same word.now name.now }
{
    word.eq_ignore_ascii_case(name)
}

// ---- how a line begins ----

/// The bytes of the first part of a line.
pub(crate) fn first_bytes(line: &[Fragment]) -> &[u8]
    ensures value { result.now ≡ first_bytes line.now }
{
    bytes_if_any(line.first())
}

/// Where a part begins. What isn't there begins nowhere.
pub(crate) fn origin_of(part: Option<&Fragment>) -> Origin
    ensures value { result ≡ origin_of (option_copied part.entry) }
{
    match part {
        Some(part) => part.origin,
        None => Origin {
            file: 0,
            line: 0,
            column: 0,
        },
    }
}

/// Where a line begins.
pub(crate) fn line_origin(line: &[Fragment]) -> Origin
    ensures value { result ≡ line_origin line.now }
{
    origin_of(line.first())
}

/// Where the token of a line with this index stands.
pub(crate) fn token_origin(index: usize, line: &[Fragment]) -> Origin
    ensures value { result ≡ token_origin index line.now }
{
    origin_of(token(line, index))
}

// Whether the first part of a line is a token.
fn begins_with_token(line: &[Fragment]) -> bool
    ensures value { result ≡ is_token (first_bytes line.now) }
{
    match line.first() {
        Some(part) => is_token(part),
        None => false,
    }
}

/// The token that a line begins with; none where a blank stands first.
pub(crate) fn leading_word(line: &[Fragment]) -> &[u8]
    ensures value { result.now ≡ leading_word line.now }
{
    if begins_with_token(line) {
        first_bytes(line)
    } else {
        &[]
    }
}

/// Whether a line begins with `/`.
pub(crate) fn starts_with_slash(line: &[Fragment]) -> bool
    ensures value { result ≡ starts_with_slash line.now }
{
    starts_with_byte(b'/', first_bytes(line))
}

// ---- texts in quotes ----

/// Whether a part is a text in quotes.
pub(crate) fn is_quoted(part: &[u8]) -> bool
    ensures value { result ≡ is_quoted part.now }
{
    starts_with_byte(b'"', part)
}

// What a text says after its first quote.
#[tactic(auto, using(crate::proofs::Quoted::one_unquoted, crate::proofs::Quoted::none_unquoted))]
fn unquoted_behind(alloc: Global, rest: &[u8]) -> Result<Vec<u8>, AllocError>
    ensures value { IfOk result (λ bytes. bytes.items ≡ unquoted_from true rest.now) }
{
    let mut inside = true;
    let mut bytes = Vec::new(alloc);
    for byte in rest {
        if *byte != b'"' {
            if !inside {
                return Ok(bytes);
            }
            bytes.push(*byte)?;
        } else if inside {
            inside = false;
        } else {
            bytes.push(*byte)?;
            inside = true;
        }
    }
    Ok(bytes)
}

/// What a text in quotes says.
///
/// # Errors
/// Where there is no memory.
#[tactic(auto, unfolding(crate::specs::Tokens::unquoted_from))]
pub(crate) fn without_quotes(alloc: Global, text: &[u8]) -> Result<Vec<u8>, AllocError>
    ensures value { IfOk result (λ bytes. bytes.items ≡ without_quotes text.now) }
{
    match text {
        [_, rest @ ..] => unquoted_behind(alloc, rest),
        [] => Ok(Vec::new(alloc)),
    }
}

// How many quotes a text has.
fn quote_count(text: &[u8]) -> usize
    ensures value { result ≡ count_by (λ b. b == 34) text.now }
{
    text.iter().filter(|byte| **byte == b'"').count()
}

// Whether a text has its last quote.
fn is_closed(text: &[u8]) -> bool
    ensures value { result ≡ is_closed text.now }
{
    quote_count(text) % 2 == 0
}

// Looks whether a token stands right after a text.
fn nothing_behind(parts: &[Fragment]) -> Result<(), AuthorError>
    ensures gives { Gives (λ _. tt) result (nothing_behind parts.now) }
{
    match parts {
        [] => Ok(()),
        [part, ..] => {
            if is_token(part) {
                return Err(ReadError::Fault(wrong_line(part.origin, SourceKind::Text)));
            }
            Ok(())
        }
    }
}

// Looks whether a part ends, where it is a text, and no token stands right after it.
fn text_ends(part: &Fragment, parts: &[Fragment]) -> Result<(), AuthorError>
    ensures gives { Gives (λ _. tt) result (text_ends part.now parts.now) }
{
    let bytes = part.bytes.as_slice();
    if !is_quoted(bytes) {
        Ok(())
    } else if is_closed(bytes) {
        nothing_behind(parts)
    } else {
        Err(ReadError::Fault(wrong_line(part.origin, SourceKind::Text)))
    }
}

/// Looks whether each text of a line ends.
///
/// # Errors
/// Fault where one doesn't.
#[tactic(auto, unfolding(crate::specs::Tokens::texts_end))]
pub(crate) fn texts_end(line: &[Fragment]) -> Result<(), AuthorError>
    ensures gives { Gives (λ _. tt) result (texts_end line.now) }
{
    let mut left = line;
    while let Some((part, parts)) = left.split_first() {
        text_ends(part, parts)?;
        left = parts;
    }
    Ok(())
}
