// Words, objects and exits.

ghost use Rattle.std.specs.Prelude.{◌≡◌, ◌++◌, ◌<◌, ◌≤◌, IfOk};
ghost use Rattle.paw_base.specs.declared.limits.TheConstants.{LOCATION_LIMIT};
ghost use Rattle.paw_gen.specs.Trial.{named_words, object_facts, object_letters, trial_object};
ghost use Rattle.paw_gen.specs.Trial.{object_word, ring_exits, rows};

use crate::texts::numbered_text;
use crate::vocabulary::{
    ALL_WORD, AND_WORD, DROP_WORD, GET_WORD, INVEN_WORD, LOOK_WORD, NORTH_WORD, SOUTH_WORD,
};
use paw_base::fault::NoRoom;
use paw_base::parts::ObjectFacts;
use paw_base::words::{CONJUNCTION_CLASS, FIRST_NAMED_NOUN, NO_WORD, NOUN_CLASS, VERB_CLASS};
use paw_game::parts::{Exit, Exits, ObjectRow, Word};
use std::alloc::Global;

// The words other than the objects' nouns.
fn named_words() -> [Word; 8]
    ensures value { result ≡ named_words }
{
    [
        Word::new(*b"ALL  ", ALL_WORD, NOUN_CLASS),
        Word::new(*b"AND  ", AND_WORD, CONJUNCTION_CLASS),
        Word::new(*b"DROP ", DROP_WORD, VERB_CLASS),
        Word::new(*b"GET  ", GET_WORD, VERB_CLASS),
        Word::new(*b"INVEN", INVEN_WORD, VERB_CLASS),
        Word::new(*b"LOOK ", LOOK_WORD, VERB_CLASS),
        Word::new(*b"NORTH", NORTH_WORD, NOUN_CLASS),
        Word::new(*b"SOUTH", SOUTH_WORD, NOUN_CLASS),
    ]
}

// The letters of an object's noun: T and three digits.
fn object_letters(number: u16) -> [u8; 5]
    requires number { number < 1000 }
    ensures value { result ≡ object_letters number }
{
    let hundreds = b'0' + (number / 100) as u8;
    let tens = b'0' + (number / 10 % 10) as u8;
    let ones = b'0' + (number % 10) as u8;
    [b'T', hundreds, tens, ones, b' ']
}

// An object's noun.
fn object_word(number: u16) -> Word
    requires number { number < 200 }
    ensures value { result ≡ object_word number }
{
    Word::new(
        object_letters(number),
        FIRST_NAMED_NOUN + number as u8,
        NOUN_CLASS,
    )
}

/// The words, in the order of their letters.
pub(crate) fn words(alloc: Global, objects: u16) -> Result<Vec<Word>, NoRoom>
    requires objects { objects ≤ 200 }
    ensures value { IfOk result (λ words. words.items ≡ named_words ++ rows objects object_word) }
{
    let mut words = Vec::from_slice(alloc, &named_words())?;
    for number in 0..objects {
        words.push(object_word(number))?;
    }
    Ok(words)
}

// The facts of an object: where it begins, and its weight.
fn object_facts(locations: u16, number: u16) -> ObjectFacts
    requires some { 0 < locations }
    requires locations { locations ≤ LOCATION_LIMIT }
    requires number { number < 200 }
    ensures value { result ≡ object_facts locations number }
{
    ObjectFacts {
        noun: FIRST_NAMED_NOUN + number as u8,
        adjective: NO_WORD,
        start: (7 * number % locations) as u8,
        weight: (number % 4) as u8,
        container: false,
        wearable: false,
    }
}

/// The objects in a game with this number of locations.
pub(crate) fn objects(alloc: Global, locations: u16, objects: u16) -> Result<Vec<ObjectRow>, NoRoom>
    requires some { 0 < locations }
    requires locations { locations ≤ LOCATION_LIMIT }
    requires objects { objects ≤ 200 }
    ensures value { IfOk result (λ all. all.items ≡ rows objects (trial_object locations)) }
{
    let mut all = Vec::new(alloc);
    for number in 0..objects {
        all.push(ObjectRow {
            text: numbered_text(alloc, b"thing ", number, b"")?,
            facts: object_facts(locations, number),
        })?;
    }
    Ok(all)
}

// The ways out of a location of the ring.
fn ring_exits(alloc: Global, locations: u16, number: u16) -> Result<Exits, NoRoom>
    requires some { 0 < locations }
    requires locations { locations ≤ LOCATION_LIMIT }
    requires number { number < locations }
    ensures value { IfOk result (λ exits. exits ≡ ring_exits locations number) }
{
    let north = Exit {
        verb: NORTH_WORD,
        to: ((number + 1) % locations) as u8,
    };
    let south = Exit {
        verb: SOUTH_WORD,
        to: ((number + locations - 1) % locations) as u8,
    };
    Ok(Exits::from_slice(alloc, &[north, south])?)
}

/// The ways out of all locations.
pub(crate) fn exits(alloc: Global, locations: u16) -> Result<Vec<Exits>, NoRoom>
    requires some { 0 < locations }
    requires locations { locations ≤ LOCATION_LIMIT }
    ensures value { IfOk result (λ all. all.items ≡ rows locations (ring_exits locations)) }
{
    let mut all = Vec::new(alloc);
    for number in 0..locations {
        all.push(ring_exits(alloc, locations, number)?)?;
    }
    Ok(all)
}
