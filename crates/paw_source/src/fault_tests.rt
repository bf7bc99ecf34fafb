// Sources with a fault: its line and its kind, as the rules of the grammar give them.

use crate::read_source;
use crate::refusal::SourceRefusal;
use paw_base::fault::SourceKind::{
    Condact, Duplicate, Extra, Missing, Number, Range, Section, Text, TooBig, Word,
};
use paw_base::fault::{SourceFault, SourceKind};
use std::alloc::{AllocError, Global};
use std::process::Abort;
use std::test::Fail;

/// What stands before the text sections: eight words.
const WORDS: &str =
    "/VOC\nGET 30 verb\nTAKE 30 verb\nN 2 noun\nLAMP 50 noun\nRED 2 adjective\nSLOW 2 adverb\n\
IN 3 preposition\nAND 2 conjunction\n";

/// What stands between the words and the exits: two messages, two objects, two locations.
const TEXTS: &str =
    "/STX\n/0\n>\n/MTX\n/0\na\n/1\nb\n/OTX\n/0\nlamp\n/1\nbag\n/LTX\n/0\nHall.\n/1\nYard.\n";

/// An exit, and the rows of the two objects.
const ROWS: &str = "/CON\n/0\nN 1\n/OBJ\n0 0 1 - LAMP RED\n1 CARRIED 63 CW _ _\n";

/// The header of the words.
const AT_WORDS: &[&str] = &["/VOC\n"];

/// Up to the header of the system messages.
const AT_TEXTS: &[&str] = &[WORDS, "/STX\n"];

/// Up to the header of the exits, with two locations.
const AT_EXITS: &[&str] = &[WORDS, TEXTS, "/CON\n"];

/// Up to the header of the objects' rows, with two objects and two locations.
const AT_OBJECTS: &[&str] = &[WORDS, TEXTS, "/CON\n/OBJ\n"];

/// Up to the header of table 0, the only one: two messages, one system message, two objects, two locations.
const AT_ENTRIES: &[&str] = &[WORDS, TEXTS, ROWS, "/PRO 0\n"];

/// A kind of fault, and lines of which the last has the first fault, one of this kind.
type Cases = (SourceKind, &'static [&'static str]);

/// Before the words, and the headers.
const HEADERS: [Cases; 3] = [
    (
        Section,
        &[
            "GET 30 verb\n",
            "/STX\n",
            "/voc\n/0\n",
            "; note\n\n/VOC\n/MTX\n",
            "/VOC\n/VOC\n",
            "/STX 1\n",
            "/\n",
            "/ VOC\n",
            "/V0C\n",
            "/0C\n",
            "/-1\n",
            "/PRO 0\n",
            "/PRO\n",
            ";\x01\r\x02\n/STX\n",
        ],
    ),
    (Extra, &["/VOC 1\n"]),
    (Text, &["/VOC\x7f\n", " ; \x01\n", "/VOC\r", "/VOC\r\r\n"]),
];

/// After the header of the words.
const OF_WORDS: [Cases; 8] = [
    (Missing, &["GET\n", "GET 30\n", "GET 30 ; verb\n"]),
    (Number, &["GET x verb\n", "GET -1 verb\n", "GET x\n"]),
    (
        Range,
        &[
            "GET 1 verb\n",
            "GET 255 verb\n",
            "GET 65538 verb\n",
            "GET 99999999999999999999 verb\n",
            "GET 1 verb 2\n",
        ],
    ),
    (
        Word,
        &[
            "GE-T 30 verb\n",
            "_ 30 verb\n",
            "* x verb\n",
            "GET 30 verbs\n",
            "GET 30 verbs 1\n",
        ],
    ),
    (Extra, &["GET 30 verb 1\n", "GET 30 verb\nGET 30 verb 1\n"]),
    (
        Duplicate,
        &[
            "GET 30 verb\nGET 31 noun\n",
            "LANTERN 30 noun\n\nlanteXX 31 verb\n",
            "GET 254 verb\nGET 002 VERB\n",
        ],
    ),
    (Section, &["\tGET 30 verb\t;\n 7 2 noun\n/MTX\n"]),
    (Text, &["GET 30 verb\x7f\n"]),
];

/// After the header of the system messages.
const OF_TEXTS: [Cases; 5] = [
    (
        Section,
        &[
            "words\n",
            " \t; note\n\nwords\n",
            "/0\n/OTX\n",
            "/00\n/1x\n",
            "/0\nx\n/MTX\nx\n",
        ],
    ),
    (Range, &["/1\n", "/0\n/0\n", "/0\n/2\n", "/300\n"]),
    (
        Extra,
        &[
            "/0 x\n",
            "/1 x\n",
            "/0\n\n /1\n;\x01\n/MTX x\n",
            "/MTX\n/OTX\n/LTX\n/CON 0\n",
        ],
    ),
    (
        Text,
        &["/0\na\tb\n", "/0\n\x7f\n", "/0\na ; \x01\n", "/0\na\r"],
    ),
    (
        Missing,
        &[
            "/0\n/1\n/MTX\n/0\n/OTX\n/LTX\n/CON\n",
            "/MTX\n/OTX\n/LTX\n/con ; none\n",
        ],
    ),
];

/// After the header of the exits.
const OF_EXITS: [Cases; 7] = [
    (Section, &["N 1\n", "/0\nN 1\n/1\nN 0\n/PRO 0\n"]),
    (
        Range,
        &["/2\n", "/1\n/0\n", "/0\n/00\n", "/0\nN 2\n", "/0\nN 252\n"],
    ),
    (Extra, &["/0 1\n", "/9 1\n", "/0\nN 1 2\n"]),
    (Missing, &["/0\nN\n"]),
    (Number, &["/0\nN x\n", "/0\nN HERE\n", "/0\nN WORN\n"]),
    (
        Word,
        &["/0\nS 1\n", "/0\nIN 1\n", "/0\nLAMP 1\n", "/0\n_ 1\n"],
    ),
    (Duplicate, &["/0\nN 1\nn 0\n", "/0\nGET 1\n\nTAKE 1\n"]),
];

/// After the header of the objects' rows.
const OF_OBJECTS: [Cases; 6] = [
    (Section, &["/0\n", "/PRO 255\n", "/PRO 1\n", "/PROX 0\n"]),
    (
        Missing,
        &[
            "0\n",
            "0 0 1 - LAMP\n",
            "0 0 1 - LAMP _\n/PRO 0\n",
            "/PRO\n",
            "/pro ; 0\n",
            "/PRO 0\n",
            "/PRO 00\n",
        ],
    ),
    (
        Number,
        &[
            "x\n",
            "0 HERE 1 - LAMP _\n",
            "0 HALL 1 - LAMP _\n",
            "0 0 x - LAMP _\n",
            "/PRO x\n",
            "/PRO 0x\n",
            "/PRO _\n",
        ],
    ),
    (
        Range,
        &[
            "1 0 1 - LAMP _\n",
            "1\n",
            "0 2 1 - LAMP _\n",
            "0 251 1 - LAMP _\n",
            "0 255 1 - LAMP _\n",
            "0 0 64 - LAMP _\n",
            "0 worn 0 cw lamp red\n1 notcreated 0 c _ _\n2 0 0 - _ _\n",
            "/PRO 256\n",
            "/PRO 300 x\n",
            "/PRO 99999999999999999999\n",
        ],
    ),
    (
        Word,
        &[
            "0 0 1 X LAMP _\n",
            "0 0 1 WC LAMP _\n",
            "0 0 1 - GET _\n",
            "0 0 1 - * _\n",
            "0 0 1 - LAMP LAMP\n",
        ],
    ),
    (
        Extra,
        &["0 0 1 - LAMP _ 1\n", "0 0 1 - LAMP _\n/PRO 0 x\n", "/0 x\n"],
    ),
];

/// After the header of table 0.
const OF_ENTRIES: [Cases; 8] = [
    (
        Section,
        &[
            " DONE\n",
            "_ _ DONE\n/PRO 1\n\tDONE\n",
            "/PRO 0\n",
            "/PRO 2\n",
            "/CON\n",
            "/0\n",
        ],
    ),
    (
        Missing,
        &["GET\n", "_ _ MES\n", "_ _ LET 0\n", "/PRO 1\n/PRO\n"],
    ),
    (
        Word,
        &[
            "FOO _\n",
            "FOO\n",
            "LAMP _\n",
            "RED _\n",
            "GET GET\n",
            "GET RED\n",
            "_ _ ADVERB RED\n",
            "_ _ ADVERB 2\n",
            "_ _ PREP *\n",
            "_ _ PREP _ PREP IN NOUN2 LAMP ADJECT2 RED NOUN2 GET\n",
        ],
    ),
    (
        Condact,
        &["* * MUS 1\n", "N N done 2\n", "_ _ DONE ; x\n  x\n"],
    ),
    (
        Number,
        &[
            "_ _ MES x\n",
            "_ _ MES _\n",
            "_ _ AT WORN\n",
            "_ _ AT HERE\n",
            "_ _ DOALL HEAR\n",
        ],
    ),
    (
        Range,
        &[
            "_ _ MES 2\n",
            "_ _ MES 1 MES 0 MESSAGE 2\n",
            "_ _ SYSMESS 1\n",
            "_ _ PRESENT 2\n",
            "_ _ AT 2\n",
            "_ _ DOALL 251\n",
            "_ _ DOALL 256\n",
            "_ _ DOALL here DOALL 255 DOALL carried PLACE 0 2\n",
            "_ _ LET 256 0\n",
            "_ _ LET 0 256\n",
            "_ _ LET 256 x\n",
            "_ _ PROCESS 1\n",
            "_ _ PROCESS 0\n/PRO 1\n_ _ PROCESS 1 PROCESS 2\n",
        ],
    ),
    (Text, &["_ _ MES 2 \x7f\n"]),
    (Extra, &["/PRO 1 1\n"]),
];

/// Faults in a line before the last, or after it: what stands before, the lines, the number of the faulty one among
/// them, and the kind.
static ELSEWHERE: [(&[&str], &str, u32, SourceKind); 8] = [
    (&[], "", 1, Missing),
    (&[], "; nothing\n", 2, Missing),
    (&[], "/VOC", 2, Missing),
    (AT_WORDS, "GET 1 verb\nGET x verb\n", 1, Range),
    (AT_TEXTS, "/MTX\n/OTX\n/LTX\n/CON\n/LTX\n", 4, Missing),
    (AT_ENTRIES, "_ _ MUS\n_ _ MES 2\n", 1, Condact),
    (AT_ENTRIES, "/PRO 01\n", 2, Missing),
    (AT_ENTRIES, "_ _ DONE\n/PRO 1", 3, Missing),
];

fn fault_in(alloc: Global, source: &[u8]) -> Result<Option<SourceFault>, Fail> {
    match read_source(alloc, source) {
        Ok(_) => Ok(None),
        Err(SourceRefusal::Fault(fault)) => Ok(Some(fault)),
        Err(SourceRefusal::Memory) => Err(Fail::from(AllocError)),
    }
}

// The parts, one after another.
fn join(alloc: Global, parts: &[&str]) -> Result<Vec<u8>, AllocError> {
    let mut source = Vec::new(alloc);
    for part in parts {
        source.extend_from_slice(part.as_bytes())?;
    }
    Ok(source)
}

fn lines_in(source: &[u8]) -> u32 {
    let mut lines = 0u32;
    for byte in source {
        if *byte == b'\n' {
            lines = lines.saturating_add(1);
        }
    }
    lines
}

// The number of the last line.
fn last_line(source: &[u8]) -> u32 {
    let ended = lines_in(source);
    if source.ends_with(b"\n") {
        ended
    } else {
        ended.saturating_add(1)
    }
}

// Whether the last line of this text, after what stands before it, has the first fault, one of this kind.
fn has_fault(alloc: Global, before: &[&str], text: &str, kind: SourceKind) -> Result<bool, Fail> {
    let source = with_lines(alloc, before, text, 1)?;
    let wanted = SourceFault {
        line: last_line(&source),
        kind,
    };
    Ok(fault_in(alloc, &source)? == Some(wanted))
}

// The first text, after what stands before it, whose last line hasn't the first fault or has one of another kind.
fn wrong_case(
    alloc: Global,
    before: &[&str],
    cases: &[Cases],
) -> Result<Option<&'static str>, Fail> {
    for &(kind, texts) in cases {
        for &text in texts {
            if !has_fault(alloc, before, text, kind)? {
                return Ok(Some(text));
            }
        }
    }
    Ok(None)
}

/// What stands before, and the cases after it.
static GROUPS: [(&[&str], &[Cases]); 6] = [
    (&[], &HEADERS),
    (AT_WORDS, &OF_WORDS),
    (AT_TEXTS, &OF_TEXTS),
    (AT_EXITS, &OF_EXITS),
    (AT_OBJECTS, &OF_OBJECTS),
    (AT_ENTRIES, &OF_ENTRIES),
];

#[test]
fn the_fault_of_the_last_line_is_named(rt: HostRuntime) -> Result<(), Fail> {
    for &(before, cases) in &GROUPS {
        assert_eq!(rt; wrong_case(rt.alloc(), before, cases)?, None);
    }
    Ok(())
}

/// What stands before, a text after it and how often, the number of the faulty line among those after it, and the kind
/// of the fault.
type Faulty<'a> = (&'a [&'a str], &'a str, u32, u32, SourceKind);

// Checks the first fault of a source.
fn is_faulty(
    rt: &impl Abort,
    alloc: Global,
    (before, text, count, after, kind): Faulty<'_>,
) -> Result<(), Fail> {
    let line = lines_in(&join(alloc, before)?).saturating_add(after);
    let source = with_lines(alloc, before, text, count)?;
    assert_eq!(rt; fault_in(alloc, &source)?, Some(SourceFault { line, kind }));
    Ok(())
}

#[test]
fn the_first_fault_is_named(rt: HostRuntime) -> Result<(), Fail> {
    for &(before, text, after, kind) in &ELSEWHERE {
        is_faulty(&rt, rt.alloc(), (before, text, 1, after, kind))?;
    }
    Ok(())
}

// What stands before, and then this number of items.
fn with_items(alloc: Global, before: &str, count: u32) -> Result<Vec<u8>, AllocError> {
    let mut source = join(alloc, &[before])?;
    for number in 0..count {
        source.extend_from_slice(format!(in alloc; "/{number}\n")?.as_bytes())?;
    }
    Ok(source)
}

// This number of words.
fn with_words(alloc: Global, count: u32) -> Result<Vec<u8>, AllocError> {
    let mut source = join(alloc, &["/VOC\n"])?;
    for number in 0..count {
        source.extend_from_slice(format!(in alloc; "A{number} 2 verb\n")?.as_bytes())?;
    }
    Ok(source)
}

// What stands before, and then a line this number of times.
fn with_lines(
    alloc: Global,
    before: &[&str],
    line: &str,
    count: u32,
) -> Result<Vec<u8>, AllocError> {
    let mut source = join(alloc, before)?;
    for _ in 0..count {
        source.extend_from_slice(line.as_bytes())?;
    }
    Ok(source)
}

// Checks that after this number of items a source has this fault.
fn items_are_faulty(
    rt: &impl Abort,
    alloc: Global,
    (before, count, line, kind): (&str, u32, u32, SourceKind),
) -> Result<(), Fail> {
    let source = with_items(alloc, before, count)?;
    assert_eq!(rt; fault_in(alloc, &source)?, Some(SourceFault { line, kind }));
    Ok(())
}

/// What stands before items, how many they are, and the fault of the source.
static ITEMS: [(&str, u32, u32, SourceKind); 5] = [
    ("/VOC\n/STX\n/MTX\n", 256, 260, Missing),
    ("/VOC\n/STX\n", 257, 259, TooBig),
    ("/VOC\n/STX\n/MTX\n", 257, 260, TooBig),
    ("/VOC\n/STX\n/MTX\n/OTX\n", 256, 260, TooBig),
    ("/VOC\n/STX\n/MTX\n/OTX\n/LTX\n", 253, 258, TooBig),
];

/// Up to the first line of a system message.
const AT_MESSAGE: &[&str] = &["/VOC\n/STX\n/0\n"];

/// Up to the first entry of table 0, which has no condact yet.
const AT_CONDACTS: &[&str] = &[WORDS, TEXTS, ROWS, "/PRO 0\n_ _\n"];

/// Lines that are too many, or the most that fit.
static LINES: [Faulty<'static>; 4] = [
    (AT_MESSAGE, "a line of twenty-one.\n", 186, 187, Missing),
    (AT_MESSAGE, "a line of twenty-one.\n", 187, 187, TooBig),
    (AT_CONDACTS, " DONE\n", 256, 256, TooBig),
    (AT_CONDACTS, "_ _\n", 4_000, 4_000, TooBig),
];

// Checks that 2,001 words are too many.
fn words_are_faulty(rt: &impl Abort, alloc: Global) -> Result<(), Fail> {
    let source = with_words(alloc, 2_001)?;
    let fault = SourceFault {
        line: 2_002,
        kind: TooBig,
    };
    assert_eq!(rt; fault_in(alloc, &source)?, Some(fault));
    Ok(())
}

#[test]
fn too_much_is_too_big(rt: HostRuntime) -> Result<(), Fail> {
    words_are_faulty(&rt, rt.alloc())?;
    for &row in &ITEMS {
        items_are_faulty(&rt, rt.alloc(), row)?;
    }
    for &row in &LINES {
        is_faulty(&rt, rt.alloc(), row)?;
    }
    Ok(())
}
