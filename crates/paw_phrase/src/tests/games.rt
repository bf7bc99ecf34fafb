// A small game, made, read by number, and broken part by part.

use paw_base::codes::{DONE, LET, MESSAGE};
use paw_base::parts::{Condact, Counts, ObjectFacts};
use paw_base::places::WORN_PLACE;
use paw_base::words::{ANY_WORD, NO_WORD, NOUN_CLASS, VERB_CLASS};
use paw_game::game::Game;
use paw_game::parts::{Entry, Exit, Exits, GamePart, GameParts, ObjectRow, Table, Text, Word};
use paw_game::tables::Tables;
use std::alloc::{AllocError, Global};
use std::test::Fail;

const LAMP: ObjectFacts = ObjectFacts {
    noun: 50,
    adjective: NO_WORD,
    start: WORN_PLACE,
    weight: 1,
    container: false,
    wearable: true,
};

// Two locations, one north of the other, a lamp, and two entries.
fn small(alloc: Global) -> Result<GameParts, AllocError> {
    let words = vec![in alloc;
        Word::new(*b"GET  ", 30, VERB_CLASS),
        Word::new(*b"LAMP ", 50, NOUN_CLASS),
        Word::new(*b"N    ", 2, NOUN_CLASS),
        Word::new(*b"S    ", 3, NOUN_CLASS),
    ]?;
    let north = Exits::from_slice(alloc, &[Exit { verb: 2, to: 1 }])?;
    let south = Exits::from_slice(alloc, &[Exit { verb: 3, to: 0 }])?;
    let get = Entry::from_codes(alloc, 30, 50, &[(MESSAGE, 0, 0), (DONE, 0, 0)])?;
    let any = Entry::from_codes(alloc, NO_WORD, ANY_WORD, &[])?;
    let entries = vec![in alloc; get, any]?;
    Ok(GameParts {
        words,
        system: vec![in alloc; Text::from_slice(alloc, b"It is dark.")?]?,
        messages: vec![in alloc; Text::from_slice(alloc, b"Taken.")?]?,
        objects: vec![in alloc; object(alloc, b"a lamp", LAMP)?]?,
        locations: vec![in alloc; Text::from_slice(alloc, b"A hall.")?, Text::new(alloc)]?,
        exits: vec![in alloc; north, south]?,
        tables: vec![in alloc;
            Table { rows: entries },
            Table::new(alloc),
            Table::new(alloc),
        ]?,
    })
}

fn object(alloc: Global, text: &[u8], facts: ObjectFacts) -> Result<ObjectRow, AllocError> {
    let text = Text::from_slice(alloc, text)?;
    Ok(ObjectRow { text, facts })
}

fn fault(parts: GameParts) -> Option<(GamePart, u32)> {
    let fault = Game::new(parts).err()?;
    Some((fault.part, fault.row))
}

// The small game with one part broken at its end.
fn parts_with_fault(alloc: Global, part: GamePart) -> Result<GameParts, AllocError> {
    let mut parts = small(alloc)?;
    match part {
        GamePart::Words => parts.words.push(Word::new(*b"ROPE ", 51, NOUN_CLASS))?,
        GamePart::System => parts.system.push(Text::from_slice(alloc, b";")?)?,
        GamePart::Messages => {
            let text = Text::from_slice(alloc, b"One.\n/Two.")?;
            parts.messages.push(text)?;
        }
        GamePart::Objects => {
            let heavy = ObjectFacts { weight: 64, ..LAMP };
            parts.objects.push(object(alloc, b"a stone", heavy)?)?;
        }
        GamePart::Locations => parts.locations.clear(),
        GamePart::Exits => {
            parts.exits.pop();
        }
        GamePart::Tables => {
            parts.tables.pop();
        }
    }
    Ok(parts)
}

// The small game, where the second location leads to a third, which isn't there.
fn leads_nowhere(alloc: Global) -> Result<GameParts, AllocError> {
    let mut parts = small(alloc)?;
    parts.exits.pop();
    let nowhere = Exits::from_slice(alloc, &[Exit { verb: 3, to: 2 }])?;
    parts.exits.push(nowhere)?;
    Ok(parts)
}

// The small game with too many messages.
fn talks_much(alloc: Global) -> Result<GameParts, AllocError> {
    let mut parts = small(alloc)?;
    for _ in 0..256 {
        parts.messages.push(Text::new(alloc))?;
    }
    Ok(parts)
}

// The small game with two bad messages after a good one, and a bad object in an earlier row.
fn broken_twice(alloc: Global) -> Result<GameParts, AllocError> {
    let mut parts = parts_with_fault(alloc, GamePart::Objects)?;
    for line in [b"Go.".as_slice(), b"/Stay.", b";"] {
        parts.messages.push(Text::from_slice(alloc, line)?)?;
    }
    Ok(parts)
}

#[test]
fn names_the_first_fault(rt: HostRuntime) -> Result<(), Fail> {
    let alloc = rt.alloc();
    for (part, row) in [
        (GamePart::Words, 4),
        (GamePart::System, 1),
        (GamePart::Messages, 1),
        (GamePart::Objects, 1),
        (GamePart::Locations, 0),
        (GamePart::Exits, 1),
        (GamePart::Tables, 2),
    ] {
        let parts = parts_with_fault(alloc, part)?;
        assert_eq!(rt; fault(parts), Some((part, row)));
    }
    Ok(())
}

#[test]
fn names_limits_and_places(rt: HostRuntime) -> Result<(), Fail> {
    let alloc = rt.alloc();
    assert_eq!(rt; fault(leads_nowhere(alloc)?), Some((GamePart::Exits, 1)));
    assert_eq!(rt; fault(talks_much(alloc)?), Some((GamePart::Messages, 256)));
    Ok(())
}

#[test]
fn names_the_least_row_of_the_first_part(rt: HostRuntime) -> Result<(), Fail> {
    let parts = broken_twice(rt.alloc())?;
    assert_eq!(rt; fault(parts), Some((GamePart::Messages, 2)));
    Ok(())
}

#[test]
fn tells_objects_and_texts(rt: HostRuntime) -> Result<(), Fail> {
    let game = Game::new(small(rt.alloc())?).ok().ok_or("refused")?;
    let counts = Counts {
        words: 4,
        system: 1,
        messages: 1,
        objects: 1,
        locations: 2,
        tables: 3,
    };
    assert_eq!(rt; game.counts(), counts);
    assert_eq!(rt; game.facts(0), Some(LAMP));
    let hall = game.text(GamePart::Locations, 0).ok_or("no text")?;
    assert_eq!(rt; hall, b"A hall.".as_slice());
    assert_eq!(rt; game.exit(1, 3), Some(0));
    Ok(())
}

#[test]
fn tells_entries(rt: HostRuntime) -> Result<(), Fail> {
    let game = Game::new(small(rt.alloc())?).ok().ok_or("refused")?;
    let done = Condact {
        code: DONE,
        a: 0,
        b: 0,
    };
    assert_eq!(rt; game.head(0, 1), Some((NO_WORD, ANY_WORD)));
    assert_eq!(rt; game.condact(0, 0, 1), Some(done));
    let mut cursor = game.cursor(0, 0, 1);
    assert_eq!(rt; game.next_condact(&mut cursor), Some(done));
    assert_eq!(rt; (cursor.table, cursor.entry, cursor.at), (0, 0, 2));
    assert_eq!(rt; game.next_condact(&mut cursor), None);
    for (from, noun, want) in [(0, 50, Some(0)), (0, 51, Some(1)), (2, 50, None)] {
        assert_eq!(rt; game.next_match(0, from, 30, noun), want);
    }
    Ok(())
}

#[test]
fn tells_words(rt: HostRuntime) -> Result<(), Fail> {
    let game = Game::new(small(rt.alloc())?).ok().ok_or("refused")?;
    assert_eq!(rt; game.word(b"LAMP "), Some((50, NOUN_CLASS)));
    assert_eq!(rt; game.word(b"S    "), Some((3, NOUN_CLASS)));
    assert_eq!(rt; game.word(b"SOUTH"), None);
    Ok(())
}

#[test]
fn makes_parts(rt: HostRuntime) -> Result<(), Fail> {
    let alloc = rt.alloc();
    let go = Word::new(*b"GO   ", 30, VERB_CLASS);
    assert_eq!(rt; go.letters.as_slice(), b"GO   ".as_slice());
    assert_eq!(rt; (go.value, go.class), (30, VERB_CLASS));
    let text = Text::from_slice(alloc, b"Taken.")?;
    assert_eq!(rt; text.rows.as_slice(), b"Taken.".as_slice());
    let exits = Exits::from_slice(alloc, &[Exit { verb: 2, to: 1 }])?;
    assert_eq!(rt; exits.rows.as_slice(), [Exit { verb: 2, to: 1 }].as_slice());
    let entry = Entry::from_codes(alloc, 30, NO_WORD, &[(LET, 60, 9)])?;
    let sets = Condact {
        code: LET,
        a: 60,
        b: 9,
    };
    assert_eq!(rt; (entry.verb, entry.noun), (30, NO_WORD));
    assert_eq!(rt; entry.condacts.rows.as_slice(), [sets].as_slice());
    Ok(())
}

#[test]
fn makes_empty_parts(rt: HostRuntime) -> Result<(), Fail> {
    assert!(rt; Text::new(rt.alloc()).rows.is_empty());
    assert!(rt; Exits::new(rt.alloc()).rows.is_empty());
    assert!(rt; Table::new(rt.alloc()).rows.is_empty());
    Ok(())
}
