// The games of the tests: one that asks inside calls and loops, and one that never reaches a prompt.

use paw_base::codes::{
    ANYKEY, AT, ATGT, DESC, DOALL, DONE, END, GT, LET, MESSAGE, MINUS, NOTDONE, OK, PARSE, PROCESS,
    QUIT,
};
use paw_base::flags::{LOCATION_FLAG, TIMEOUT_FLAG};
use paw_base::parts::ObjectFacts;
use paw_base::places::{CARRIED_PLACE, HERE_PLACE, WORN_PLACE};
use paw_base::words::{
    ADJECTIVE_CLASS, CONJUNCTION_CLASS, NO_WORD, NOUN_CLASS, PREPOSITION_CLASS, PRONOUN_CLASS,
    VERB_CLASS,
};
use paw_game::game::Game;
use paw_game::parts::{Entry, Exits, GameParts, ObjectRow, Table, Text, Word};
use std::alloc::{AllocError, Global};
use std::test::Fail;

/// The words, by their letters.
const WORDS: [([u8; 5], u8, u8); 23] = [
    (*b"ALL  ", 20, NOUN_CLASS),
    (*b"AND  ", 2, CONJUNCTION_CLASS),
    (*b"AWAY ", 41, VERB_CLASS),
    (*b"COAT ", 54, NOUN_CLASS),
    (*b"DEEP ", 34, VERB_CLASS),
    (*b"EXCEP", 2, PREPOSITION_CLASS),
    (*b"FALL ", 44, VERB_CLASS),
    (*b"GO   ", 30, VERB_CLASS),
    (*b"IT   ", 2, PRONOUN_CLASS),
    (*b"LAMP ", 50, NOUN_CLASS),
    (*b"LOOK ", 36, VERB_CLASS),
    (*b"NEST ", 33, VERB_CLASS),
    (*b"NO   ", 40, VERB_CLASS),
    (*b"QUIT ", 35, VERB_CLASS),
    (*b"RED  ", 2, ADJECTIVE_CLASS),
    (*b"SHAKE", 31, VERB_CLASS),
    (*b"SPIN ", 43, VERB_CLASS),
    (*b"SWORD", 51, NOUN_CLASS),
    (*b"TIME ", 38, VERB_CLASS),
    (*b"TURN ", 39, VERB_CLASS),
    (*b"TWIST", 32, VERB_CLASS),
    (*b"WAIT ", 37, VERB_CLASS),
    (*b"WHERE", 42, VERB_CLASS),
];

/// A flag that counts calls.
const CALLS: u8 = 60;

/// The number of system messages.
const SYSTEM_TEXTS: usize = 36;

// The system message of a number; the others are empty.
fn system_text(number: usize) -> &'static str {
    match number {
        2 => "What now?",
        6 => "I don't understand.",
        7 => "I can't go that way.",
        8 => "I can't do that.",
        12 => "Are you sure? ",
        13 => "Another go? ",
        14 => "Goodbye.",
        15 => "OK.",
        16 => "Press a key. ",
        33 => "> ",
        35 => "Time passes.",
        _ => "",
    }
}

const MESSAGES: [&str; 4] = [
    "You shake the _.",
    "Done.",
    "Here the _ is.",
    "A wind blows.",
];

/// The locations; that of SPIN has no text.
const LOCATIONS: [&str; 4] = ["A hall.", "A garden.", "", "A well."];

/// The objects: the text, the noun, the adjective, and the place at the start.
const OBJECTS: [(&str, u8, u8, u8); 3] = [
    ("lamp", 50, 2, 0),
    ("sword", 51, NO_WORD, 0),
    ("coat", 54, NO_WORD, CARRIED_PLACE),
];

/// A condact's code and its parameters.
type Code = (u8, u8, u8);

/// An entry: verb, noun and condacts.
type Row = (u8, u8, &'static [Code]);

/// SHAKE, TWIST and TURN go round the objects here; NEST calls as deep as it may, and DEEP deeper; QUIT asks twice;
/// SPIN and FALL never end.
const RESPONSES: [Row; 19] = [
    (31, 20, &[(DOALL, HERE_PLACE, 0)]),
    (31, NO_WORD, &[(PROCESS, 3, 0), (DONE, 0, 0)]),
    (32, 20, &[(DOALL, HERE_PLACE, 0)]),
    (32, NO_WORD, &[(PROCESS, 4, 0), (MESSAGE, 1, 0)]),
    (33, NO_WORD, &[(LET, CALLS, 9), (PROCESS, 5, 0), (OK, 0, 0)]),
    (
        34,
        NO_WORD,
        &[(LET, CALLS, 10), (PROCESS, 5, 0), (OK, 0, 0)],
    ),
    (35, NO_WORD, &[(QUIT, 0, 0), (END, 0, 0)]),
    (36, NO_WORD, &[(DESC, 0, 0)]),
    (37, NO_WORD, &[(OK, 0, 0)]),
    (38, NO_WORD, &[(LET, TIMEOUT_FLAG, 5), (DONE, 0, 0)]),
    (39, 20, &[(DOALL, HERE_PLACE, 0)]),
    (39, NO_WORD, &[(PARSE, 0, 0), (MESSAGE, 2, 0), (DONE, 0, 0)]),
    (40, NO_WORD, &[(PROCESS, 6, 0)]),
    (40, NO_WORD, &[(MESSAGE, 1, 0), (DONE, 0, 0)]),
    (41, NO_WORD, &[(PROCESS, 7, 0), (MESSAGE, 1, 0)]),
    (42, 20, &[(DOALL, WORN_PLACE, 0)]),
    (42, NO_WORD, &[(MESSAGE, 1, 0), (DONE, 0, 0)]),
    (43, NO_WORD, &[(LET, LOCATION_FLAG, 2), (DESC, 0, 0)]),
    (44, NO_WORD, &[(LET, LOCATION_FLAG, 3), (DESC, 0, 0)]),
];

const CALLS_8: [Row; 1] = [(NO_WORD, NO_WORD, &[(PROCESS, 8, 0)])];

const ASKS: [Row; 1] = [(NO_WORD, NO_WORD, &[(QUIT, 0, 0), (MESSAGE, 0, 0)])];

const WAITS_IN_A_LOOP: [Row; 2] = [
    (NO_WORD, NO_WORD, &[(DOALL, CARRIED_PLACE, 0)]),
    (NO_WORD, NO_WORD, &[(ANYKEY, 0, 0), (MESSAGE, 0, 0)]),
];

const CALLS_ITSELF: [Row; 1] = [(
    NO_WORD,
    NO_WORD,
    &[(GT, CALLS, 0), (MINUS, CALLS, 1), (PROCESS, 5, 0)],
)];

const IS_NOT_DONE: [Row; 2] = [
    (NO_WORD, NO_WORD, &[(MESSAGE, 2, 0), (NOTDONE, 0, 0)]),
    (NO_WORD, NO_WORD, &[(MESSAGE, 1, 0)]),
];

const GOES_AWAY: [Row; 1] = [(
    NO_WORD,
    NO_WORD,
    &[(LET, LOCATION_FLAG, 1), (DESC, 0, 0), (MESSAGE, 2, 0)],
)];

/// Describes the locations of SPIN and FALL again.
const WAS_DESCRIBED: [Row; 4] = [
    (NO_WORD, NO_WORD, &[(AT, 1, 0), (MESSAGE, 3, 0)]),
    (NO_WORD, NO_WORD, &[(ATGT, 1, 0), (DESC, 0, 0)]),
    (NO_WORD, NO_WORD, &[(DONE, 0, 0)]),
    (NO_WORD, NO_WORD, &[(MESSAGE, 2, 0)]),
];

const TABLES: [&[Row]; 9] = [
    &RESPONSES,
    &CALLS_8,
    &[],
    &ASKS,
    &WAITS_IN_A_LOOP,
    &CALLS_ITSELF,
    &IS_NOT_DONE,
    &GOES_AWAY,
    &WAS_DESCRIBED,
];

/// Describes each location again.
const DESCRIBES_AGAIN: [&[Row]; 3] = [&[], &[(NO_WORD, NO_WORD, &[(DESC, 0, 0)])], &[]];

fn texts(alloc: Global, rows: &[&str]) -> Result<Vec<Text>, AllocError> {
    let mut texts = Vec::new(alloc);
    for row in rows {
        texts.push(Text::from_slice(alloc, row.as_bytes())?)?;
    }
    Ok(texts)
}

fn words(alloc: Global) -> Result<Vec<Word>, AllocError> {
    WORDS
        .iter()
        .map(|&(letters, value, class)| Word::new(letters, value, class))
        .collect(alloc)
}

fn system(alloc: Global) -> Result<Vec<Text>, AllocError> {
    let mut texts = Vec::new(alloc);
    for number in 0..SYSTEM_TEXTS {
        let text = system_text(number);
        texts.push(Text::from_slice(alloc, text.as_bytes())?)?;
    }
    Ok(texts)
}

fn objects(alloc: Global) -> Result<Vec<ObjectRow>, AllocError> {
    let mut objects = Vec::new(alloc);
    for (name, noun, adjective, start) in OBJECTS {
        objects.push(ObjectRow {
            text: Text::from_slice(alloc, name.as_bytes())?,
            facts: ObjectFacts {
                noun,
                adjective,
                start,
                weight: 1,
                container: false,
                wearable: false,
            },
        })?;
    }
    Ok(objects)
}

fn no_exits(alloc: Global, count: usize) -> Result<Vec<Exits>, AllocError> {
    let mut exits = Vec::new(alloc);
    for _ in 0..count {
        exits.push(Exits::new(alloc))?;
    }
    Ok(exits)
}

fn table(alloc: Global, rows: &[Row]) -> Result<Table, AllocError> {
    let mut entries = Vec::new(alloc);
    for (verb, noun, codes) in rows {
        entries.push(Entry::from_codes(alloc, *verb, *noun, codes)?)?;
    }
    Ok(Table { rows: entries })
}

fn tables(alloc: Global, rows: &[&[Row]]) -> Result<Vec<Table>, AllocError> {
    let mut tables = Vec::new(alloc);
    for of_table in rows {
        tables.push(table(alloc, of_table)?)?;
    }
    Ok(tables)
}

/// A game that asks inside calls and loops.
pub(super) fn asking_game(alloc: Global) -> Result<Game, Fail> {
    let game = Game::new(GameParts {
        words: words(alloc)?,
        system: system(alloc)?,
        messages: texts(alloc, &MESSAGES)?,
        objects: objects(alloc)?,
        locations: texts(alloc, &LOCATIONS)?,
        exits: no_exits(alloc, LOCATIONS.len())?,
        tables: tables(alloc, &TABLES)?,
    })?;
    Ok(game)
}

/// A game of one location with this text, which is described again each time that it was.
pub(super) fn endless_game(alloc: Global, location: &str) -> Result<Game, Fail> {
    let game = Game::new(GameParts {
        words: Vec::new(alloc),
        system: Vec::new(alloc),
        messages: Vec::new(alloc),
        objects: Vec::new(alloc),
        locations: texts(alloc, &[location])?,
        exits: no_exits(alloc, 1)?,
        tables: tables(alloc, &DESCRIBES_AGAIN)?,
    })?;
    Ok(game)
}
