// What a game's lists hold at a number.

ghost use Rattle.std.specs.Prelude.{◌≡◌, ◌<◌, IsTrue, drop, slice_get};
ghost use Rattle.std.specs.Option.{option_copied, option_map};
ghost use Rattle.paw_game.specs.Valid.{words_rise};
ghost use Rattle.paw_game.specs.Tables.{condact_at, entry_at, exit_at, exit_of, facts_at, head_at};
ghost use Rattle.paw_game.specs.Tables.{is_for, matches, word_at, word_of};
ghost use Rattle.paw_game.specs.inner.Tables.{first_match, match_at, text_at};

use crate::parts::{Entry, Exit, GamePart, GameParts, ObjectRow, Text, Word};
use paw_base::limits::WORD_LENGTH;
use paw_base::parts::{Condact, ObjectFacts};
use paw_base::words::{ANY_WORD, NO_WORD};

pub(crate) fn facts_at(parts: &GameParts, object: u8) -> Option<ObjectFacts>
    ensures value { result ≡ facts_at parts.now object }
{
    let row = parts.objects.get(object as usize)?;
    Some(row.facts)
}

pub(crate) fn text_at(parts: &GameParts, part: GamePart, number: u8) -> Option<&[u8]>
    ensures value { option_copied result ≡ text_at parts.now part number }
{
    match part {
        GamePart::System => text_in(parts.system.as_slice(), number),
        GamePart::Messages => text_in(parts.messages.as_slice(), number),
        GamePart::Objects => object_text(parts.objects.as_slice(), number),
        GamePart::Locations => text_in(parts.locations.as_slice(), number),
        GamePart::Words | GamePart::Exits | GamePart::Tables => None,
    }
}

// The bytes of a text, if there is one with this number.
fn text_in(texts: &[Text], number: u8) -> Option<&[u8]>
    ensures value { option_copied result ≡ slice_get texts.now number }
{
    let text = texts.get(number as usize)?;
    Some(text.rows.as_slice())
}

fn object_text(objects: &[ObjectRow], number: u8) -> Option<&[u8]>
    ensures value { option_copied result ≡ option_map (λ row. row.text) (slice_get objects.now number) }
{
    let row = objects.get(number as usize)?;
    let text = &row.text;
    Some(text.rows.as_slice())
}

pub(crate) fn exit_at(parts: &GameParts, location: u8, verb: u8) -> Option<u8>
    ensures value { result ≡ exit_at parts.now location verb }
{
    let exits = parts.exits.get(location as usize)?;
    exit_of(exits.rows.as_slice(), verb)
}

// The location to which the exit of this verb leads, if there is one.
fn exit_of(exits: &[Exit], verb: u8) -> Option<u8>
    ensures value { result ≡ exit_of exits.now verb }
{
    for exit in exits {
        if exit.verb == verb {
            return Some(exit.to);
        }
    }
    None
}

pub(crate) fn head_at(parts: &GameParts, table: u8, entry: u16) -> Option<(u8, u8)>
    ensures value { result ≡ head_at parts.now table entry }
{
    let entry = entry_at(parts, table, entry)?;
    Some((entry.verb, entry.noun))
}

pub(crate) fn condact_at(parts: &GameParts, table: u8, entry: u16, at: u8) -> Option<Condact>
    ensures value { result ≡ condact_at parts.now table entry at }
{
    let entry = entry_at(parts, table, entry)?;
    let condacts = &entry.condacts;
    condacts.rows.get(at as usize).copied()
}

fn entry_at(parts: &GameParts, table: u8, entry: u16) -> Option<&Entry>
    ensures value { option_copied result ≡ entry_at parts.now table entry }
{
    let table = parts.tables.get(table as usize)?;
    table.rows.get(entry as usize)
}

/// The least entry of a table, not below `from`, that matches this verb and noun.
pub(crate) fn match_at(parts: &GameParts, table: u8, from: u16, verb: u8, noun: u8) -> Option<usize>
    ensures value { result ≡ match_at parts.now table from verb noun }
{
    let table = parts.tables.get(table as usize)?;
    first_match(table.rows.as_slice(), from as usize, verb, noun)
}

// The first of these entries, from number `from` on, that matches this verb and noun.
fn first_match(entries: &[Entry], from: usize, verb: u8, noun: u8) -> Option<usize>
    ensures value { result ≡ first_match verb noun from (drop from entries.now) }
{
    for entry in from..entries.len() {
        if matches(&entries[entry], verb, noun) {
            return Some(entry);
        }
    }
    None
}

// Whether an entry is for this verb and this noun.
fn matches(entry: &Entry, verb: u8, noun: u8) -> bool
    ensures value { result ≡ matches verb noun entry.now }
{
    is_for(entry.verb, verb) && is_for(entry.noun, noun)
}

/// Whether an entry's word matches this one; 1 and 255 match any.
pub fn is_for(word: u8, flag: u8) -> bool
    ensures value { result ≡ is_for word flag }
{
    word == ANY_WORD || word == NO_WORD || word == flag
}

pub(crate) fn word_at(parts: &GameParts, letters: &[u8; WORD_LENGTH]) -> Option<(u8, u8)>
    requires sorted { IsTrue (words_rise parts.now.words) }
    ensures value { result ≡ word_at parts.now letters.now }
{
    let word = word_of(letters, parts.words.as_slice())?;
    Some((word.value, word.class))
}

// The word with these letters, of words that rise by their letters.
fn word_of<'a>(letters: &[u8; WORD_LENGTH], words: &'a [Word]) -> Option<&'a Word>
    requires sorted { IsTrue (words_rise words.now) }
    ensures value { option_copied result ≡ word_of letters.now words.now }
{
    let letters_of = |word: &Word| -> [u8; WORD_LENGTH]
        ensures value { result ≡ word.now.letters }
    { word.letters };
    let at = words.binary_search_by_key(letters, letters_of).ok()?;
    Some(&words[at])
}
