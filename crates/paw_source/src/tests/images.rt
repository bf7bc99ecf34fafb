// Images that are read and written, by both readers. They stand here, where few functions are proved once more with
// them.

use paw_base::parts::{Condact, Counts, ObjectFacts};
use paw_game::parts::GamePart;
use paw_game::tables::Tables;
use paw_image::decoder::decode;
use paw_image::encoder::{encode, image_length};
use paw_image::refusal::ImageRefusal;
use paw_image::view::View;
use std::alloc::{AllocError, Global};
use std::process::Abort;
use std::test::Fail;

/// Two rooms, four words, nine system messages, a message, and no object.
const TWO_ROOMS: [u8; 134] = [
    80, 65, 87, 73, 1, 4, 0, 9, 0, 1, 0, 0, 0, 2, 0, 3, 0, 76, 79, 79, 75, 32, 30, 0, 78, 32, 32,
    32, 32, 2, 2, 83, 32, 32, 32, 32, 3, 2, 83, 73, 78, 71, 32, 31, 0, 0, 0, 0, 0, 1, 0, 62, 0, 0,
    0, 0, 0, 0, 5, 0, 87, 104, 97, 116, 63, 7, 0, 78, 111, 32, 119, 97, 121, 46, 3, 0, 78, 111, 46,
    7, 0, 76, 97, 32, 108, 97, 46, 10, 5, 0, 72, 97, 108, 108, 46, 5, 0, 89, 97, 114, 100, 46, 1,
    2, 1, 1, 3, 0, 3, 0, 30, 255, 1, 30, 31, 255, 3, 1, 1, 50, 0, 32, 31, 255, 3, 0, 1, 49, 0, 30,
    0, 0, 0, 0,
];

/// One location with an empty text, and three empty tables.
const SMALLEST: [u8; 26] = [
    80, 65, 87, 73, 1, 0, 0, 0, 0, 0, 0, 0, 0, 1, 0, 3, 0, 0, 0, 0, 0, 0, 0, 0, 0, 0,
];

/// Four words, a message, an object, a location, and an entry with two condacts.
const LANTERN: [u8; 87] = [
    80, 65, 87, 73, 1, 4, 0, 0, 0, 1, 0, 1, 0, 1, 0, 3, 0, 71, 69, 84, 32, 32, 30, 0, 76, 65, 77,
    80, 32, 50, 2, 76, 65, 78, 84, 69, 50, 2, 84, 65, 75, 69, 32, 30, 0, 6, 0, 84, 97, 107, 101,
    110, 46, 6, 0, 97, 32, 108, 97, 109, 112, 50, 255, 0, 1, 7, 0, 65, 32, 99, 97, 118, 101, 46, 0,
    1, 0, 30, 50, 2, 51, 0, 32, 0, 0, 0, 0,
];

/// Two messages, a location, and an entry that twice sets flag 100 and prints the message that the flag names.
const FLAGGED: [u8; 45] = [
    80, 65, 87, 73, 2, 0, 0, 0, 0, 2, 0, 0, 0, 1, 0, 3, 0, 1, 0, 97, 1, 0, 98, 0, 0, 0, 0, 0, 1, 0,
    255, 255, 4, 70, 100, 1, 178, 100, 70, 100, 9, 178, 100, 0, 0,
];

/// The condacts of the entry of the lantern game.
const MESSAGE: Condact = Condact {
    code: 51,
    a: 0,
    b: 0,
};

const DONE: Condact = Condact {
    code: 32,
    a: 0,
    b: 0,
};

// Checks that an image is written as it was read.
fn is_written_again(rt: &impl Abort, alloc: Global, image: &[u8]) -> Result<(), Fail> {
    let game = decode(alloc, image)?;
    let again = encode(alloc, &game)?;
    assert_eq!(rt; again.as_slice(), image);
    Ok(())
}

#[test]
fn images_are_read_and_written_again(rt: HostRuntime) -> Result<(), Fail> {
    is_written_again(&rt, rt.alloc(), &TWO_ROOMS)?;
    is_written_again(&rt, rt.alloc(), &SMALLEST)?;
    is_written_again(&rt, rt.alloc(), &LANTERN)?;
    is_written_again(&rt, rt.alloc(), &FLAGGED)
}

#[test]
fn the_lantern_game_is_told(rt: HostRuntime) -> Result<(), Fail> {
    let game = decode(rt.alloc(), &LANTERN)?;
    let parts = game.parts();
    assert_eq!(rt; parts.words.len(), 4);
    assert_eq!(rt; parts.words[2].letters, *b"LANTE");
    assert_eq!(rt; (parts.words[2].value, parts.words[2].class), (50, 2));
    assert_eq!(rt; parts.messages.len(), 1);
    assert_eq!(rt; parts.messages[0].rows.as_slice(), b"Taken.".as_slice());
    assert_eq!(rt; parts.objects.len(), 1);
    let lamp = &parts.objects[0];
    assert_eq!(rt; lamp.text.rows.as_slice(), b"a lamp".as_slice());
    assert_eq!(rt;
        (
            lamp.facts.noun,
            lamp.facts.adjective,
            lamp.facts.start,
            lamp.facts.weight
        ),
        (50, 255, 0, 1)
    );
    assert!(rt; !lamp.facts.container && !lamp.facts.wearable);
    Ok(())
}

#[test]
fn a_table_of_the_lantern_game(rt: HostRuntime) -> Result<(), Fail> {
    let game = decode(rt.alloc(), &LANTERN)?;
    let tables = &game.parts().tables;
    assert_eq!(rt; tables.len(), 3);
    assert_eq!(rt; tables[0].rows.len(), 1);
    let entry = &tables[0].rows[0];
    assert_eq!(rt; (entry.verb, entry.noun), (30, 50));
    assert_eq!(rt; entry.condacts.rows.as_slice(), [MESSAGE, DONE].as_slice());
    Ok(())
}

// The offset at which bytes are damaged, as both readers name it; None where they differ.
fn damaged_at(alloc: Global, bytes: &[u8]) -> Option<u64> {
    let seen = View::new(alloc, bytes).err()?;
    let read = decode(alloc, bytes).err()?;
    match (seen, read) {
        (ImageRefusal::Damaged { at }, ImageRefusal::Damaged { at: same }) if at == same => Some(
            at,
        ),
        _ => None,
    }
}

// The image with these bytes from an offset on.
fn image_with(
    alloc: Global,
    image: &[u8],
    place: usize,
    bytes: &[u8],
) -> Result<Vec<u8>, AllocError> {
    let mut changed = image.to_vec(alloc)?;
    for (step, byte) in bytes.iter().enumerate() {
        let here = place.saturating_add(step);
        if here < changed.len() {
            changed[here] = *byte;
        }
    }
    Ok(changed)
}

/// The first changed offset of an image, what stands there, and the offset of the fault.
type Change<'a> = (usize, &'a [u8], u64);

// Checks that both readers name the fault of an image with a change.
fn change_is_named(
    rt: &impl Abort,
    alloc: Global,
    image: &[u8],
    (place, bytes, at): Change<'_>,
) -> Result<(), Fail> {
    let changed = image_with(alloc, image, place, bytes)?;
    assert_eq!(rt; damaged_at(alloc, &changed), Some(at), "changed at {place}");
    Ok(())
}

/// Changes of the lantern game.
static CHANGES: [Change<'static>; 14] = [
    (0, b"Q", 0),
    (4, &[2], 4),
    (5, &[0xD1, 0x07], 5),
    (24, b"GET  ", 24),
    (22, &[1], 22),
    (45, &[0, 16], 45),
    (47, b"/", 47),
    (61, &[51], 61),
    (63, &[1], 63),
    (75, &[0xA1, 0x0F], 75),
    (77, &[31], 77),
    (80, &[108], 80),
    (81, &[1], 81),
    (85, &[161, 15], 85),
];

#[test]
fn every_damaged_byte_is_named(rt: HostRuntime) -> Result<(), Fail> {
    for &change in &CHANGES {
        change_is_named(&rt, rt.alloc(), &LANTERN, change)?;
    }
    Ok(())
}

/// Changes of a game with indirect condacts.
static FLAGGED_CHANGES: [Change<'static>; 12] = [
    (4, &[0], 4),
    (4, &[1], 36),
    (4, &[3], 4),
    (36, &[108], 36),
    (36, &[127], 36),
    // INVEN has no parameter, and neither PROCESS nor DOALL nor a code that isn't a condact's can be indirect.
    (36, &[157], 36),
    (36, &[213], 36),
    (36, &[214], 36),
    (36, &[236], 36),
    // No condact is indirect: the version is named where nothing else is wrong.
    (36, &[50, 1, 70, 100, 9, 50, 0], 4),
    (36, &[50, 1, 70, 100, 9, 50, 2], 42),
    (36, &[50, 1, 70, 100, 9, 50, 0, 161, 15], 43),
];

#[test]
fn damage_of_version_2_is_named(rt: HostRuntime) -> Result<(), Fail> {
    for &change in &FLAGGED_CHANGES {
        change_is_named(&rt, rt.alloc(), &FLAGGED, change)?;
    }
    Ok(())
}

#[test]
fn bytes_too_many_come_before_the_version(rt: HostRuntime) -> Result<(), Fail> {
    let alloc = rt.alloc();
    let mut longer = image_with(alloc, &FLAGGED, 36, &[50, 1, 70, 100, 9, 50, 0])?;
    longer.push(0)?;
    assert_eq!(rt; damaged_at(alloc, &longer), Some(45));
    assert_eq!(rt; damaged_at(alloc, &FLAGGED[..37]), Some(37));
    Ok(())
}

#[test]
fn both_tell_an_indirect_condact(rt: HostRuntime) -> Result<(), Fail> {
    let prints = Condact {
        code: 178,
        a: 100,
        b: 0,
    };
    let game = decode(rt.alloc(), &FLAGGED)?;
    let view = View::new(rt.alloc(), &FLAGGED)?;
    assert_eq!(rt; game.condact(1, 0, 3), Some(prints));
    assert_eq!(rt; view.condact(1, 0, 3), Some(prints));
    Ok(())
}

// The smallest image with a byte after it.
fn one_too_many(alloc: Global) -> Result<Vec<u8>, AllocError> {
    let mut longer = SMALLEST.to_vec(alloc)?;
    longer.push(0)?;
    Ok(longer)
}

// Two exits of a location with one verb.
fn one_exit_twice(alloc: Global) -> Result<Vec<u8>, AllocError> {
    let mut twice = TWO_ROOMS[..102].to_vec(alloc)?;
    twice.extend_from_slice(&[2, 2, 1, 2, 0])?;
    twice.extend_from_slice(&TWO_ROOMS[105..])?;
    Ok(twice)
}

// Checks that both readers name the fault of an image that is cut.
fn cut_is_named(rt: &impl Abort, alloc: Global, image: &[u8], at: u64) {
    assert_eq!(rt; damaged_at(alloc, image), Some(at));
}

#[test]
fn cuts_and_bytes_too_many_are_named(rt: HostRuntime) -> Result<(), Fail> {
    let alloc = rt.alloc();
    cut_is_named(&rt, alloc, &[], 0);
    cut_is_named(&rt, alloc, &LANTERN[..50], 47);
    cut_is_named(&rt, alloc, &SMALLEST[..25], 24);
    cut_is_named(&rt, alloc, &TWO_ROOMS[..133], 132);
    let longer = one_too_many(alloc)?;
    assert_eq!(rt; damaged_at(alloc, &longer), Some(26));
    // The later one's verb is named.
    let twice = one_exit_twice(alloc)?;
    assert_eq!(rt; damaged_at(alloc, &twice), Some(105));
    Ok(())
}

#[test]
fn an_image_of_thousands_of_bytes(rt: HostRuntime) -> Result<(), Fail> {
    let mut image = b"PAWI\x01\x00\x00\x00\x00\xC8\x00\x00\x00\x01\x00\x03\x00".to_vec(rt.alloc())?;
    for _ in 0..200 {
        image.extend_from_slice(b"\x15\x00You shake the lantern")?;
    }
    image.extend_from_slice(&[0; 9])?;
    let game = decode(rt.alloc(), &image)?;
    assert_eq!(rt; image_length(&game), 4626);
    let again = encode(rt.alloc(), &game)?;
    assert_eq!(rt; again.as_slice(), image.as_slice());
    Ok(())
}

/// Two words, a location, and a table whose entries have a verb, any verb, or none.
const MATCHES: [u8; 55] = [
    80, 65, 87, 73, 1, 2, 0, 0, 0, 0, 0, 0, 0, 1, 0, 3, 0, 71, 69, 84, 32, 32, 30, 0, 76, 65, 77,
    80, 32, 50, 2, 0, 0, 0, 5, 0, 30, 50, 0, 255, 50, 0, 30, 255, 0, 1, 50, 0, 30, 50, 0, 0, 0, 0,
    0,
];

// The next matches of the table, for numbers of entries, verbs and nouns.
fn next_matches<T: Tables>(tables: &T) -> [Option<u16>; 10] {
    [
        tables.next_match(0, 0, 30, 50),
        tables.next_match(0, 1, 30, 50),
        tables.next_match(0, 2, 30, 50),
        tables.next_match(0, 4, 30, 50),
        tables.next_match(0, 5, 30, 50),
        tables.next_match(0, 0, 99, 50),
        tables.next_match(0, 2, 99, 50),
        tables.next_match(0, 4, 99, 50),
        tables.next_match(0, 0, 30, 60),
        tables.next_match(3, 0, 30, 50),
    ]
}

// The entry of the cursor at the next match.
fn cursor_entry<T: Tables>(tables: &T, table: u8, from: u16, verb: u8, noun: u8) -> Option<u16> {
    let cursor = tables.match_cursor(table, from, verb, noun)?;
    Some(cursor.entry)
}

// The entries of the cursors at the same matches.
fn cursor_entries<T: Tables>(tables: &T) -> [Option<u16>; 10] {
    [
        cursor_entry(tables, 0, 0, 30, 50),
        cursor_entry(tables, 0, 1, 30, 50),
        cursor_entry(tables, 0, 2, 30, 50),
        cursor_entry(tables, 0, 4, 30, 50),
        cursor_entry(tables, 0, 5, 30, 50),
        cursor_entry(tables, 0, 0, 99, 50),
        cursor_entry(tables, 0, 2, 99, 50),
        cursor_entry(tables, 0, 4, 99, 50),
        cursor_entry(tables, 0, 0, 30, 60),
        cursor_entry(tables, 3, 0, 30, 50),
    ]
}

/// The entries of these matches.
const FOUND: [Option<u16>; 10] = [
    Some(0),
    Some(1),
    Some(2),
    Some(4),
    None,
    Some(1),
    Some(3),
    None,
    Some(2),
    None,
];

// Checks that a reader finds them, and that its cursors do.
fn finds_each_match<T: Tables>(rt: &impl Abort, tables: &T) {
    assert_eq!(rt; next_matches(tables), FOUND);
    assert_eq!(rt; cursor_entries(tables), FOUND);
}

#[test]
fn both_find_the_next_match(rt: HostRuntime) -> Result<(), Fail> {
    finds_each_match(&rt, &decode(rt.alloc(), &MATCHES)?);
    finds_each_match(&rt, &View::new(rt.alloc(), &MATCHES)?);
    Ok(())
}

/// The entries of MATCHES, each of which sets the flag of its number to 9; the third is done then.
const SETTINGS: [u8; 71] = [
    80, 65, 87, 73, 1, 2, 0, 0, 0, 0, 0, 0, 0, 1, 0, 3, 0, 71, 69, 84, 32, 32, 30, 0, 76, 65, 77,
    80, 32, 50, 2, 0, 0, 0, 5, 0, 30, 50, 1, 70, 0, 9, 255, 50, 1, 70, 1, 9, 30, 255, 2, 70, 2, 9,
    32, 1, 50, 1, 70, 3, 9, 30, 50, 1, 70, 4, 9, 0, 0, 0, 0,
];

// The condact that sets a flag to 9.
fn setting(flag: u8) -> Condact {
    Condact {
        code: 70,
        a: flag,
        b: 9,
    }
}

// The first two condacts that are read on from the cursor at the next match.
fn read_from_match<T: Tables>(tables: &T, from: u16, verb: u8, noun: u8) -> [Option<Condact>; 2] {
    match tables.match_cursor(0, from, verb, noun) {
        Some(cursor) => {
            let mut cursor = cursor;
            let first = tables.next_condact(&mut cursor);
            let second = tables.next_condact(&mut cursor);
            [first, second]
        }
        None => [None, None],
    }
}

// What is read on from a match at hand, from those that are searched for, and where there is none.
fn read_from_matches<T: Tables>(tables: &T) -> [[Option<Condact>; 2]; 6] {
    [
        read_from_match(tables, 0, 30, 50),
        read_from_match(tables, 0, 99, 50),
        read_from_match(tables, 0, 30, 60),
        read_from_match(tables, 2, 99, 50),
        read_from_match(tables, 4, 30, 50),
        read_from_match(tables, 4, 99, 50),
    ]
}

// Checks that a reader reads each of these condacts.
fn reads_each_setting<T: Tables>(rt: &impl Abort, tables: &T) {
    let want = [
        [Some(setting(0)), None],
        [Some(setting(1)), None],
        [Some(setting(2)), Some(DONE)],
        [Some(setting(3)), None],
        [Some(setting(4)), None],
        [None, None],
    ];
    assert_eq!(rt; read_from_matches(tables), want);
}

#[test]
fn both_read_on_from_the_next_match(rt: HostRuntime) -> Result<(), Fail> {
    reads_each_setting(&rt, &decode(rt.alloc(), &SETTINGS)?);
    reads_each_setting(&rt, &View::new(rt.alloc(), &SETTINGS)?);
    Ok(())
}

// The facts of an object that isn't a container and can't be worn.
fn facts(noun: u8, adjective: u8, start: u8, weight: u8) -> ObjectFacts {
    ObjectFacts {
        noun,
        adjective,
        start,
        weight,
        container: false,
        wearable: false,
    }
}

// Whether a game is that of the lantern.
fn is_lantern<T: Tables>(tables: &T) -> bool {
    let counts = Counts {
        words: 4,
        system: 0,
        messages: 1,
        objects: 1,
        locations: 1,
        tables: 3,
    };
    let lamp = facts(50, 255, 0, 1);
    tables.counts() == counts
        && tables.facts(0) == Some(lamp)
        && tables.facts(1).is_none()
        && tables.text(GamePart::Messages, 0) == Some(b"Taken.".as_slice())
        && tables.text(GamePart::Objects, 0) == Some(b"a lamp".as_slice())
        && tables.text(GamePart::Locations, 1).is_none()
        && tables.head(0, 0) == Some((30, 50))
        && tables.word(b"TAKE ") == Some((30, 0))
        && tables.word(b"DROP ").is_none()
}

// The condacts of the first entry.
fn condacts<T: Tables>(tables: &T) -> [Option<Condact>; 3] {
    [
        tables.condact(0, 0, 0),
        tables.condact(0, 0, 1),
        tables.condact(0, 0, 2),
    ]
}

// Checks that a reader gives the lantern, and the condacts of its entry.
fn tells_the_lantern<T: Tables>(rt: &impl Abort, tables: &T) {
    assert!(rt; is_lantern(tables));
    assert_eq!(rt; condacts(tables), [Some(MESSAGE), Some(DONE), None]);
}

#[test]
fn both_tell_the_lantern(rt: HostRuntime) -> Result<(), Fail> {
    tells_the_lantern(&rt, &decode(rt.alloc(), &LANTERN)?);
    tells_the_lantern(&rt, &View::new(rt.alloc(), &LANTERN)?);
    Ok(())
}

/// How many condacts the entries of a table have.
const ENTRY_LENGTHS: [u8; 6] = [0, 1, 8, 9, 64, 255];

// The condact of this number: one, two or three bytes.
fn condact_of(number: u8) -> Condact {
    let (code, a, b) = match number % 3 {
        0 => (32, 0, 0),
        1 => (11, number, 0),
        _ => (70, number, 255 - number),
    };
    Condact { code, a, b }
}

// An image with a table whose entries have these numbers of condacts.
fn of_many_lengths(alloc: Global) -> Result<Vec<u8>, AllocError> {
    let mut image = SMALLEST[..20].to_vec(alloc)?;
    image.extend_from_slice(&[6, 0])?;
    for count in ENTRY_LENGTHS {
        image.extend_from_slice(&[255, 255, count])?;
        for number in 0..count {
            let Condact { code, a, b } = condact_of(number);
            match number % 3 {
                0 => image.push(code)?,
                1 => image.extend_from_slice(&[code, a])?,
                _ => image.extend_from_slice(&[code, a, b])?,
            }
        }
    }
    image.extend_from_slice(&[0; 4])?;
    Ok(image)
}

// Whether each entry has its condacts, and none past the last.
fn has_each_condact<T: Tables>(tables: &T) -> bool {
    for (entry, count) in ENTRY_LENGTHS.iter().enumerate() {
        let entry = entry as u16;
        for at in 0..*count {
            if tables.condact(0, entry, at) != Some(condact_of(at)) {
                return false;
            }
        }
        if tables.condact(0, entry, *count).is_some() {
            return false;
        }
    }
    true
}

#[test]
fn both_tell_each_condact(rt: HostRuntime) -> Result<(), Fail> {
    let image = of_many_lengths(rt.alloc())?;
    let game = decode(rt.alloc(), &image)?;
    let view = View::new(rt.alloc(), &image)?;
    assert!(rt; has_each_condact(&game));
    assert!(rt; has_each_condact(&view));
    Ok(())
}

#[test]
fn a_view_lends_its_bytes(rt: HostRuntime) -> Result<(), Fail> {
    let view = View::new(rt.alloc(), &LANTERN)?;
    assert_eq!(rt; view.span(GamePart::Messages, 0), Some((47, 53)));
    assert_eq!(rt; view.span(GamePart::Objects, 0), Some((55, 61)));
    assert_eq!(rt; view.span(GamePart::Messages, 1), None);
    assert_eq!(rt;
        view.entry(0, 0),
        Some([0x1E, 0x32, 2, 0x33, 0, 0x20].as_slice())
    );
    assert_eq!(rt; view.entry(0, 1), None);
    assert_eq!(rt; view.bytes(), LANTERN.as_slice());
    let rooms = View::new(rt.alloc(), &TWO_ROOMS)?;
    assert_eq!(rt; rooms.exit(1, 3), Some(0));
    assert_eq!(rt; rooms.exit(1, 2), None);
    Ok(())
}

// An image with all seven classes of words, a text of 300 bytes, a container, a thing that may be worn, an entry with
// 255 condacts, and a condact with two parameters.
fn every_kind(alloc: Global) -> Result<Vec<u8>, AllocError> {
    let mut image = b"PAWI\x01\x07\x00\x00\x00\x01\x00\x02\x00\x01\x00\x03\x00".to_vec(alloc)?;
    image.extend_from_slice(b"ABLE \x1E\x00BADLY\x1F\x01COAT \x32\x02DARK \x28\x03")?;
    image.extend_from_slice(b"EX   \x3C\x04FOR  \x3D\x05IT   \x3E\x06")?;
    image.extend_from_slice(&[44, 1])?;
    image.extend_from_slice(&[b'm'; 300])?;
    image.extend_from_slice(b"\x04\x00sack\x32\x28\x00\x45\x04\x00coat\x32\xFF\xFD\xBF")?;
    image.extend_from_slice(b"\x05\x00Here.\x00")?;
    image.extend_from_slice(&[2, 0, 30, 50, 255])?;
    image.extend_from_slice(&[32; 255])?;
    image.extend_from_slice(&[1, 255, 1, 70, 60, 9, 0, 0, 0, 0])?;
    Ok(image)
}

// What a reader gives of the seven words.
fn classes<T: Tables>(tables: &T) -> [Option<(u8, u8)>; 7] {
    [
        tables.word(b"ABLE "),
        tables.word(b"BADLY"),
        tables.word(b"COAT "),
        tables.word(b"DARK "),
        tables.word(b"EX   "),
        tables.word(b"FOR  "),
        tables.word(b"IT   "),
    ]
}

// Whether the objects and the condacts of the game are as they were written.
fn has_every_kind<T: Tables>(tables: &T) -> bool {
    let sack = ObjectFacts {
        container: true,
        ..facts(50, 40, 0, 5)
    };
    let coat = ObjectFacts {
        wearable: true,
        ..facts(50, 255, 253, 63)
    };
    let set = Condact {
        code: 70,
        a: 60,
        b: 9,
    };
    tables.facts(0) == Some(sack)
        && tables.facts(1) == Some(coat)
        && tables.text(GamePart::Messages, 0) == Some([b'm'; 300].as_slice())
        && tables.condact(0, 0, 254) == Some(DONE)
        && tables.condact(0, 0, 255).is_none()
        && tables.condact(0, 1, 0) == Some(set)
        && tables.head(0, 1) == Some((1, 255))
}

/// The values and the classes of the seven words.
const OF_SEVEN_WORDS: [Option<(u8, u8)>; 7] = [
    Some((30, 0)),
    Some((31, 1)),
    Some((50, 2)),
    Some((40, 3)),
    Some((60, 4)),
    Some((61, 5)),
    Some((62, 6)),
];

// Checks that a reader gives them, the objects and the condacts.
fn tells_every_kind<T: Tables>(rt: &impl Abort, tables: &T) {
    assert_eq!(rt; classes(tables), OF_SEVEN_WORDS);
    assert!(rt; has_every_kind(tables));
}

// Checks that both readers do, and that the image is written again.
fn both_tell(rt: &impl Abort, alloc: Global, image: &[u8]) -> Result<(), Fail> {
    tells_every_kind(rt, &decode(alloc, image)?);
    tells_every_kind(rt, &View::new(alloc, image)?);
    is_written_again(rt, alloc, image)
}

#[test]
fn both_tell_every_kind_of_row(rt: HostRuntime) -> Result<(), Fail> {
    let image = every_kind(rt.alloc())?;
    both_tell(&rt, rt.alloc(), &image)
}

// The condact of this number, plain or indirect: one, two or three bytes.
fn any_condact_of(number: u8) -> Condact {
    let (code, a, b) = match number % 4 {
        0 => (32, 0, 0),
        1 => (178, number, 0),
        2 => (70, number, 255 - number),
        _ => (139, number, 0),
    };
    Condact { code, a, b }
}

// An image with a table that has an entry of 20 condacts, and an empty one.
fn of_twenty(alloc: Global) -> Result<Vec<u8>, AllocError> {
    let mut image = image_with(alloc, &SMALLEST[..20], 4, &[2])?;
    image.extend_from_slice(&[2, 0, 255, 255, 20])?;
    for number in 0..20 {
        let Condact { code, a, b } = any_condact_of(number);
        match number % 4 {
            0 => image.push(code)?,
            2 => image.extend_from_slice(&[code, a, b])?,
            _ => image.extend_from_slice(&[code, a])?,
        }
    }
    image.extend_from_slice(&[255, 255, 0, 0, 0, 0, 0])?;
    Ok(image)
}

// Whether a cursor reads on over the entry of 20 condacts from each of them on, and stays past the last one.
fn reads_on<T: Tables>(tables: &T) -> bool {
    for from in 0..21 {
        let mut cursor = tables.cursor(0, 0, from);
        for at in from..20 {
            if cursor.at != at || tables.next_condact(&mut cursor) != Some(any_condact_of(at)) {
                return false;
            }
        }
        let last = cursor;
        if tables.next_condact(&mut cursor).is_some() || cursor != last {
            return false;
        }
    }
    true
}

// Whether no condact stands at this offset.
fn reads_nothing<T: Tables>(tables: &T, table: u8, entry: u16, at: u8) -> bool {
    let mut cursor = tables.cursor(table, entry, at);
    tables.next_condact(&mut cursor).is_none()
        && (cursor.table, cursor.entry, cursor.at) == (table, entry, at)
}

// Whether no condact stands in an empty entry, past the entries, past the tables, and far past the last condact.
fn reads_none_elsewhere<T: Tables>(tables: &T) -> bool {
    reads_nothing(tables, 0, 1, 0)
        && reads_nothing(tables, 0, 2, 0)
        && reads_nothing(tables, 3, 0, 0)
        && reads_nothing(tables, 0, 0, 255)
}

#[test]
fn both_read_on_from_a_cursor(rt: HostRuntime) -> Result<(), Fail> {
    let image = of_twenty(rt.alloc())?;
    let game = decode(rt.alloc(), &image)?;
    let view = View::new(rt.alloc(), &image)?;
    assert!(rt; reads_on(&game));
    assert!(rt; reads_on(&view));
    assert!(rt; reads_none_elsewhere(&game));
    assert!(rt; reads_none_elsewhere(&view));
    Ok(())
}
