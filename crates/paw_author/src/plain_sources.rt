// Sources that are plain already: no line has anything of what authors may write beyond it.

ghost use Rattle.std.specs.Prelude.{◌≡◌, ◌||◌, not};
ghost use Rattle.std.specs.List.{list_all, list_any};
ghost use Rattle.paw_author.specs.Tokens.{is_token, is_same};
ghost use Rattle.paw_author.specs.PlainSources.{own_words, has_own_word, is_plain_table, is_plain_item, is_plain_token};
ghost use Rattle.paw_author.specs.PlainSources.{is_plain_data, is_plain_mark, is_plain_line, section_behind, text_behind};
ghost use Rattle.paw_author.specs.PlainSources.{are_plain, is_plain_source};

use crate::fragment::{Fragment, LineInParts};
use crate::sections::{EXITS, WORDS, has_texts, header_section, is_number, is_table_header};
use crate::tokens::{
    is_same, is_token, leading_word, starts_with_byte, starts_with_slash, token_at, token_count,
    without_first,
};

/// The words that only an author's source has at the head of a line.
static OWN_WORDS: [&[u8]; 8] = [
    b"/NAMES",
    b"/KINDS",
    b"/THINGS",
    b"/INCLUDE",
    b"/HOOK",
    b"/IF",
    b"/ELSE",
    b"/ENDIF",
];

// Whether a word is one of these names.
fn is_one_of(names: &[&[u8]], word: &[u8]) -> bool
    ensures value { result ≡ list_any (λ name. is_same word.now name.now) names.now }
{
    names.iter().any(|name| is_same(word, name))
}

// Whether a line begins with a word that only an author's source has.
fn has_own_word(line: &[Fragment]) -> bool
    ensures value { result ≡ has_own_word line.now }
{
    is_one_of(&OWN_WORDS, leading_word(line))
}

// Whether the header of a table has no name.
fn is_plain_table(line: &[Fragment]) -> bool
    ensures value { result ≡ is_plain_table line.now }
{
    let count = token_count(line);
    count == 1 || count == 2 && is_number(token_at(1, line))
}

// Whether an item has a number and no name.
fn is_plain_item(section: usize, line: &[Fragment]) -> bool
    ensures value { result ≡ is_plain_item section line.now }
{
    let number = without_first(leading_word(line));
    if section == EXITS {
        is_number(number)
    } else {
        !has_texts(section) || is_number(number) && token_count(line) == 1
    }
}

// Whether a token may stand in a plain row.
fn is_plain_token(token: &[u8]) -> bool
    ensures value { result ≡ is_plain_token token.now }
{
    !(starts_with_byte(b'"', token)
        || starts_with_byte(b'\'', token)
        || starts_with_byte(b'+', token)
        || starts_with_byte(b'<', token))
}

// Whether a part is no token, or one that may stand in a plain row.
fn is_plain_part(part: &Fragment) -> bool
    ensures value { result ≡ (not (is_token part.now.bytes) || is_plain_token part.now.bytes) }
{
    !is_token(part) || is_plain_token(part.bytes.as_slice())
}

// Whether all tokens of a row may stand in a plain row.
fn has_plain_tokens(line: &[Fragment]) -> bool
    ensures value { result ≡ list_all (λ part. not (is_token part.bytes) || is_plain_token part.bytes) line.now }
{
    line.iter().all(|part| is_plain_part(part))
}

// Whether a row has only tokens that may stand in a plain row; one of words has three of them.
fn is_plain_data(section: usize, line: &[Fragment]) -> bool
    ensures value { result ≡ is_plain_data section line.now }
{
    let count = token_count(line);
    has_plain_tokens(line) && (section != WORDS || count == 0 || count == 3)
}

// Whether a line that begins with `/` is plain.
fn is_plain_mark(section: usize, line: &[Fragment]) -> bool
    ensures value { result ≡ is_plain_mark section line.now }
{
    if has_own_word(line) {
        false
    } else if is_table_header(line) {
        is_plain_table(line)
    } else {
        header_section(line).is_some() || is_plain_item(section, line)
    }
}

// Whether a line is plain in this section; `text` says whether it stands below an item with a text.
fn is_plain_line(section: usize, text: bool, line: &[Fragment]) -> bool
    ensures value { result ≡ is_plain_line section text line.now }
{
    if starts_with_slash(line) {
        is_plain_mark(section, line)
    } else {
        text || is_plain_data(section, line)
    }
}

// The section after a line.
fn section_behind(section: usize, line: &[Fragment]) -> usize
    ensures value { result ≡ section_behind section line.now }
{
    if starts_with_slash(line) {
        header_section(line).unwrap_or(section)
    } else {
        section
    }
}

// Whether what stands below a line is a text.
fn text_behind(section: usize, text: bool, line: &[Fragment]) -> bool
    ensures value { result ≡ text_behind section text line.now }
{
    if starts_with_slash(line) {
        header_section(line).is_none() && has_texts(section)
    } else {
        text
    }
}

/// Whether the lines of a file are a plain source.
#[tactic(auto, unfolding(crate::specs::PlainSources::are_plain))]
pub(crate) fn is_plain_source(lines: &[LineInParts]) -> bool
    ensures value { result ≡ is_plain_source lines.now }
{
    let mut left = lines;
    let mut section = 0;
    let mut text = false;
    while let Some((line, below)) = left.split_first() {
        let parts = line.parts.as_slice();
        if !is_plain_line(section, text, parts) {
            return false;
        }
        text = text_behind(section, text, parts);
        section = section_behind(section, parts);
        left = below;
    }
    true
}
