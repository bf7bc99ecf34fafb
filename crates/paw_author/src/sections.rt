// Which section a line belongs to.

ghost use Rattle.std.specs.Prelude.{◌≡◌, ◌≤◌, ◌+◌};
ghost use Rattle.std.specs.List.{position};
ghost use Rattle.std.specs.Option.{option_map};
ghost use Rattle.paw_author.specs.Tokens.{is_same};
ghost use Rattle.paw_author.specs.Sections.{number_after, is_number, written_number, table_section, index_of_name, headers};
ghost use Rattle.paw_author.specs.Sections.{is_table_header, header_section, has_texts, has_items, has_facts, is_table_section};

use crate::fragment::Fragment;
use crate::tokens::{is_same, leading_word, token_at};

/// The headers of sections but tables, in the order in which the sections come out; the first is that of section 1.
static HEADERS: [&[u8]; 11] = [
    b"/NAMES", b"/KINDS", b"/THINGS", b"/LNG", b"/VOC", b"/STX", b"/MTX", b"/OTX", b"/LTX",
    b"/CON", b"/OBJ",
];

/// The section of names, which doesn't come out.
pub(crate) const NAMES: usize = 1;

/// The section of kinds.
const KINDS: usize = 2;

/// The section of things.
const THINGS: usize = 3;

/// The section of letters, the first of those with texts.
const LETTERS: usize = 4;

/// The section of words, the first that each plain source has.
pub(crate) const WORDS: usize = 5;

/// The section of exits, the first after those with texts.
pub(crate) const EXITS: usize = 10;

/// The section of objects.
pub(crate) const OBJECTS: usize = 11;

/// The section of table 0; that of table n is n further on.
pub(crate) const TABLES: usize = 12;

/// The section of the tables that have a name and no number yet. What stays there comes out elsewhere.
pub(crate) const NAMED_TABLES: usize = 268;

/// How many sections come out. What stands above the first header of a file is section 0.
pub(crate) const SECTIONS: usize = 268;

/// How many numbers a table may have.
const TABLE_NUMBERS: u16 = 256;

// The number that decimal digits are; 256 stands for any number from there on.
#[tactic(auto, using(crate::proofs::Digits::one_digit, crate::proofs::Digits::no_digit))]
fn number_for(word: &[u8]) -> Option<u16>
    ensures value { result ≡ number_after 0 word.now }
{
    let mut number: u16 = 0;
    for byte in word {
        if !byte.is_ascii_digit() {
            return None;
        }
        number = (10 * number + u16::from(*byte - b'0')).min(TABLE_NUMBERS);
    }
    Some(number)
}

/// Whether a token is a number in decimal digits.
pub(crate) fn is_number(token: &[u8]) -> bool
    ensures value { result ≡ is_number token.now }
{
    !token.is_empty() && number_for(token).is_some()
}

/// The number that a word is; 256 stands for any number from there on.
pub(crate) fn written_number(word: &[u8]) -> Option<u16>
    ensures value { result ≡ written_number word.now }
{
    if is_number(word) {
        number_for(word)
    } else {
        None
    }
}

// The section of the table that a word names.
fn table_section(word: &[u8]) -> usize
    ensures value { result ≡ table_section word.now }
{
    if word.is_empty() {
        return NAMED_TABLES;
    }
    match number_for(word) {
        None => NAMED_TABLES,
        Some(number) => {
            if number < TABLE_NUMBERS {
                TABLES + number as usize
            } else {
                NAMED_TABLES
            }
        }
    }
}

// The index of the name that a word is, in any case of letters.
fn index_of_name(names: &[&[u8]], word: &[u8]) -> Option<usize>
    ensures value { result ≡ position (λ name. is_same word.now name.now) names.now }
{
    names.iter().position(|name| is_same(word, name))
}

// The section that a header other than that of a table begins.
fn plain_section(word: &[u8]) -> Option<usize>
    ensures value { result ≡ option_map (λ i. i + 1) (index_of_name headers word.now) }
{
    let index = index_of_name(&HEADERS, word)?;
    Some(index + 1)
}

/// Whether a line is the header of a table.
pub(crate) fn is_table_header(line: &[Fragment]) -> bool
    ensures value { result ≡ is_table_header line.now }
{
    is_same(leading_word(line), b"/PRO")
}

/// The section that a line begins, where it is a header.
pub(crate) fn header_section(line: &[Fragment]) -> Option<usize>
    ensures value { result ≡ header_section line.now }
{
    if is_table_header(line) {
        Some(table_section(token_at(1, line)))
    } else {
        plain_section(leading_word(line))
    }
}

/// Whether a section holds texts below items.
pub(crate) fn has_texts(section: usize) -> bool
    ensures value { result ≡ has_texts section }
{
    LETTERS <= section && section < EXITS && section != WORDS
}

/// Whether a section holds items.
pub(crate) fn has_items(section: usize) -> bool
    ensures value { result ≡ has_items section }
{
    has_texts(section) || section == EXITS || section == KINDS || section == THINGS
}

/// Whether a section holds facts of kinds or things.
pub(crate) fn has_facts(section: usize) -> bool
    ensures value { result ≡ has_facts section }
{
    section == KINDS || section == THINGS
}

/// Whether a section is a table.
pub(crate) fn is_table_section(section: usize) -> bool
    ensures value { result ≡ is_table_section section }
{
    TABLES <= section
}
