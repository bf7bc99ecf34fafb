// Phrases of lines; and what the crates below promise of condacts, games, pieces and steps. Those tests stand here,
// where few functions are proved once more with them.

mod condacts;
mod games;
mod piece;
mod steps;

use crate::{Found, Pending, Sentence, next_phrase};
use paw_base::limits::LINE_LIMIT;
use paw_base::words::NO_WORD;
use paw_game::game::Game;
use paw_game::parts::{Exits, GameParts, Table, Text, Word};
use std::alloc::Global;
use std::process::Abort;
use std::test::Fail;

/// The words of a small game, by their letters: letters, value, class.
const WORDS: [([u8; 5], u8, u8); 38] = [
    (*b"ALL  ", 20, 2),
    (*b"AND  ", 2, 5),
    (*b"BACK ", 41, 0),
    (*b"BAG  ", 52, 2),
    (*b"BRICK", 55, 2),
    (*b"COAT ", 54, 2),
    (*b"DEEP ", 45, 0),
    (*b"DROP ", 31, 0),
    (*b"EXCEP", 2, 4),
    (*b"GET  ", 30, 0),
    (*b"HALVE", 48, 0),
    (*b"I    ", 36, 0),
    (*b"IN   ", 3, 4),
    (*b"IT   ", 2, 6),
    (*b"LAMP ", 50, 2),
    (*b"LOOK ", 35, 0),
    (*b"N    ", 2, 2),
    (*b"NEST ", 44, 0),
    (*b"NORTH", 2, 2),
    (*b"POUCH", 53, 2),
    (*b"PUT  ", 34, 0),
    (*b"QUICK", 2, 1),
    (*b"QUIT ", 37, 0),
    (*b"RED  ", 2, 3),
    (*b"REMOV", 33, 0),
    (*b"S    ", 3, 2),
    (*b"SHAKE", 42, 0),
    (*b"SOUTH", 3, 2),
    (*b"STORE", 40, 0),
    (*b"SWORD", 51, 2),
    (*b"TAKE ", 30, 0),
    (*b"THEN ", 2, 5),
    (*b"TIME ", 39, 0),
    (*b"TURNS", 47, 0),
    (*b"TWIST", 43, 0),
    (*b"WAIT ", 38, 0),
    (*b"WEAK ", 46, 0),
    (*b"WEAR ", 32, 0),
];

fn game(alloc: Global) -> Result<Game, Fail> {
    let words = WORDS
        .iter()
        .map(|&(letters, value, class)| Word::new(letters, value, class))
        .collect(alloc)?;
    let game = Game::new(GameParts {
        words,
        system: Vec::new(alloc),
        messages: Vec::new(alloc),
        objects: Vec::new(alloc),
        locations: vec![in alloc; Text::new(alloc)]?,
        exits: vec![in alloc; Exits::new(alloc)]?,
        tables: vec![in alloc; Table::new(alloc), Table::new(alloc), Table::new(alloc)]?,
    })?;
    Ok(game)
}

/// No word.
const N: u8 = NO_WORD;

/// The verb before each line of the tables.
const EARLIER: u8 = 30;

/// Before each line a pronoun stands for the noun 52 and the adjective 7.
const BEFORE: Sentence = Sentence {
    verb: 1,
    noun: 2,
    adjective: 3,
    adverb: 4,
    preposition: 5,
    second_noun: 6,
    second_adjective: 7,
    pronoun_noun: 52,
    pronoun_adjective: 7,
};

// The next phrase of a line, the sentence then, and what stays pending.
fn phrase_of(rt: &impl Abort, game: &Game, line: &[u8]) -> (Found, Sentence, Pending) {
    assert!(rt; line.len() <= LINE_LIMIT);
    let mut pending = Pending::of(line, EARLIER);
    let mut sentence = BEFORE;
    let found = next_phrase(game, &mut pending, &mut sentence);
    (found, sentence, pending)
}

// Verb, noun, adjective, adverb, preposition, second noun, second adjective.
fn words_of(s: &Sentence) -> [u8; 7] {
    [
        s.verb,
        s.noun,
        s.adjective,
        s.adverb,
        s.preposition,
        s.second_noun,
        s.second_adjective,
    ]
}

/// Lines, and the words of their first phrase.
static FILLED: [(&[u8], [u8; 7]); 20] = [
    // Small letters are read as capitals, and any byte but letters, digits and separators is a blank.
    (b"wear\xffthe-lamp'", [32, 50, N, N, N, N, N]),
    // Five letters decide which word it is, and digits are letters.
    (b"REMOVALS LAMP", [33, 50, N, N, N, N, N]),
    (b"WEAR LAMPS", [32, N, N, N, N, N, N]),
    (b"WEAR2 LAMP", [30, 50, N, N, N, N, N]),
    // A noun below 20 stands for a verb that is left out, and otherwise the earlier verb does.
    (b"N", [2, 2, N, N, N, N, N]),
    (b"WAIT NORTHWARDS", [38, 2, N, N, N, N, N]),
    (b"ALL", [30, 20, N, N, N, N, N]),
    (b"RED", [30, N, 2, N, N, N, N]),
    // The first verb counts, and the first two nouns.
    (b"DROP GET LAMP SWORD BAG", [31, 50, N, N, N, 51, N]),
    (b"DROP ALL EXCEPT SWORD", [31, 20, N, N, 2, 51, N]),
    // An adjective belongs to the noun after it, or to the second noun once the first is there.
    (b"TAKE THE RED LAMP QUICKLY", [30, 50, 2, 2, N, N, N]),
    (b"PUT LAMP RED IN BAG", [34, 50, N, N, 3, 52, 2]),
    // A pronoun overwrites an adjective; after two nouns it is ignored.
    (b"DROP IT", [31, 52, 7, N, N, N, N]),
    (b"DROP RED IT IN BAG", [31, 52, 7, N, 3, 52, N]),
    (b"PUT LAMP IN IT", [34, 50, N, N, 3, 52, 7]),
    (b"PUT LAMP IN RED IT", [34, 50, N, N, 3, 52, 7]),
    (b"PUT IT IN IT", [34, 52, 7, N, 3, 52, 7]),
    (b"PUT LAMP SWORD IT", [34, 50, N, N, N, 51, N]),
    // Unknown tokens are skipped.
    (b"PLEASE WAIT AROUND HERE", [38, N, N, N, N, N, N]),
    (b"IN", [30, N, N, N, 3, N, N]),
];

#[test]
fn words_fill_a_sentence(rt: HostRuntime) -> Result<(), Fail> {
    let game = game(rt.alloc())?;
    for &(line, words) in &FILLED {
        let (found, sentence, pending) = phrase_of(&rt, &game, line);
        assert_eq!(rt;
            (found, words_of(&sentence)),
            (Found::Sentence, words),
            "{line:?}"
        );
        assert!(rt; pending.bytes().is_empty() && pending.earlier() == sentence.verb);
    }
    Ok(())
}

/// Lines, and the noun and the adjective that a pronoun stands for after them.
static NAMED: [(&[u8], [u8; 2]); 7] = [
    (b"WAIT", [52, 7]),
    (b"N", [52, 7]),
    (b"GET ALL", [52, 7]),
    (b"GET LAMP", [50, N]),
    (b"GET RED LAMP", [50, 2]),
    (b"GET LAMP RED SWORD", [50, N]),
    (b"DROP IT", [52, 7]),
];

#[test]
fn pronouns_stand_for_what_was_named(rt: HostRuntime) -> Result<(), Fail> {
    let game = game(rt.alloc())?;
    for &(line, [noun, adjective]) in &NAMED {
        let (_, sentence, _) = phrase_of(&rt, &game, line);
        let named = (sentence.pronoun_noun, sentence.pronoun_adjective);
        assert_eq!(rt; named, (noun, adjective), "{line:?}");
    }
    Ok(())
}

// It is still a known word.
#[test]
fn a_pronoun_that_stands_for_nothing_is_ignored(rt: HostRuntime) -> Result<(), Fail> {
    let game = game(rt.alloc())?;
    let mut pending = Pending::new();
    pending.set(b"DROP IT");
    let mut sentence = Sentence {
        pronoun_noun: N,
        ..BEFORE
    };
    let found = next_phrase(&game, &mut pending, &mut sentence);
    assert_eq!(rt; found, Found::Sentence);
    assert_eq!(rt; words_of(&sentence), [31, N, N, N, N, N, N]);
    Ok(())
}

/// Lines, and what of them stays pending after their first phrase.
static PARTED: [(&[u8], &[u8]); 8] = [
    (b"GET LAMP AND SWORD THEN DROP IT", b" SWORD THEN DROP IT"),
    (b" SWORD THEN DROP IT", b" DROP IT"),
    (b"TURNS, WAIT", b" WAIT"),
    (b"GET LAMP AND, SWORD", b", SWORD"),
    (b", SWORD", b""),
    (b"GET \"LAMP\"", b"LAMP\""),
    (b"AND THEN .,;:!?\" WAIT!", b""),
    (b"WAIT. ", b" "),
];

#[test]
fn separators_and_conjunctions_part_phrases(rt: HostRuntime) -> Result<(), Fail> {
    let game = game(rt.alloc())?;
    for &(line, rest) in &PARTED {
        let (found, _, pending) = phrase_of(&rt, &game, line);
        assert_eq!(rt; found, Found::Sentence, "{line:?}");
        assert_eq!(rt; pending.bytes(), rest, "{line:?}");
    }
    Ok(())
}

/// Lines without a word that is known up to a separator, and what of them stays pending.
static UNKNOWN: [(&[u8], &[u8]); 2] = [(b"XYZZY PLUGH; LOOK", b" LOOK"), (b"LAMPS", b"")];

/// Lines without a token but separators and conjunctions.
static EMPTY: [&[u8]; 4] = [b"", b"AND THEN .,;:!?\"", b" - ", &[b' '; LINE_LIMIT]];

// Checks what a line without a sentence gives, and what of it stays pending.
fn changes_little(rt: &impl Abort, game: &Game, line: &[u8], wanted: Found, rest: &[u8]) {
    let (found, sentence, pending) = phrase_of(rt, game, line);
    assert!(rt; found == wanted && sentence == BEFORE, "{line:?}");
    assert_eq!(rt; pending.bytes(), rest, "{line:?}");
    assert_eq!(rt; pending.earlier(), EARLIER);
}

#[test]
fn other_phrases_change_little(rt: HostRuntime) -> Result<(), Fail> {
    let game = game(rt.alloc())?;
    for &(line, rest) in &UNKNOWN {
        changes_little(&rt, &game, line, Found::Nothing, rest);
    }
    for line in &EMPTY {
        changes_little(&rt, &game, line, Found::Empty, line);
    }
    Ok(())
}

#[test]
fn lines_are_set_and_dropped(rt: HostRuntime) -> Result<(), Fail> {
    let mut pending = Pending::of(b"GET LAMP", 30);
    pending.drop_line();
    assert!(rt; pending.bytes().is_empty() && pending.earlier() == 30);
    pending.set(b"WAIT");
    assert_eq!(rt;
        (pending.bytes(), pending.earlier()),
        (b"WAIT".as_slice(), N)
    );
    let new = Pending::new();
    assert!(rt; new.bytes().is_empty() && new.earlier() == N);
    Ok(())
}
