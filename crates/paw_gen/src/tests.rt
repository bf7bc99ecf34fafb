// The games of some trials.

use crate::{game_of, lines_of};
use paw_game::parts::{GameParts, Text};
use std::alloc::Global;
use std::process::Abort;
use std::test::Fail;

/// Trials: the number, and how many locations, objects and lines it has.
static SIZES: [(u16, usize, usize, usize); 8] = [
    (0, 20, 10, 10),
    (1, 21, 11, 11),
    (89, 109, 99, 99),
    (90, 110, 100, 10),
    (99, 119, 109, 19),
    (199, 219, 109, 29),
    (200, 20, 10, 30),
    (9999, 219, 109, 19),
];

// Checks that a game has these numbers of locations and of objects, and the words and messages that go with them.
fn has_rows(rt: &impl Abort, parts: &GameParts, locations: usize, objects: usize) {
    assert_eq!(rt; parts.locations.len(), locations);
    assert_eq!(rt; parts.exits.len(), locations);
    assert_eq!(rt; parts.objects.len(), objects);
    assert_eq!(rt; parts.words.len(), objects + 8);
    assert_eq!(rt; parts.system.len(), 54);
}

// Checks that a trial has a game of this size, and this number of lines.
fn is_of_size(
    rt: &impl Abort,
    alloc: Global,
    &(n, locations, objects, lines): &(u16, usize, usize, usize),
) -> Result<(), Fail> {
    let game = game_of(alloc, n)?;
    has_rows(rt, game.parts(), locations, objects);
    assert_eq!(rt; lines_of(alloc, n)?.len(), lines);
    Ok(())
}

#[test]
fn a_trial_is_as_large_as_its_number_says(rt: HostRuntime) -> Result<(), Fail> {
    let alloc = rt.alloc();
    for size in &SIZES {
        is_of_size(&rt, alloc, size)?;
    }
    Ok(())
}

// Checks the bytes of a text.
fn text_is(rt: &impl Abort, texts: &[Text], at: usize, bytes: &[u8]) {
    match texts.get(at) {
        Some(text) => assert_eq!(rt; text.rows.as_slice(), bytes),
        None => assert!(rt; false),
    }
}

// Checks the last of each kind in the largest game.
fn has_last_rows(rt: &impl Abort, parts: &GameParts) {
    text_is(rt, &parts.locations, 218, b"Place 218.");
    text_is(rt, &parts.system, 53, b"s53");
    let word = parts.words.get(116).map(|word| (word.letters, word.value));
    assert_eq!(rt; word, Some((*b"T108 ", 158)));
    let facts = parts.objects.get(108).map(|object| object.facts);
    assert_eq!(rt;
        facts.map(|facts| (facts.noun, facts.start, facts.weight)),
        Some((158, 99, 0))
    );
}

#[test]
fn a_trial_has_the_rows_that_its_number_says(rt: HostRuntime) -> Result<(), Fail> {
    let alloc = rt.alloc();
    let game = game_of(alloc, 9999)?;
    has_last_rows(&rt, game.parts());
    let lines = lines_of(alloc, 9999)?;
    text_is(&rt, &lines, 17, b"SOUTH AND GET ALL");
    text_is(&rt, &lines, 18, b"NORTH");
    Ok(())
}
