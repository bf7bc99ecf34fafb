// The table of condacts, once more, in other words.

use paw_base::codes;
use paw_base::rows::ParamKind::{
    self, Absent, Adjective, Adverb, Flag, Location, Message, Noun, Number, Object, Place,
    Preposition, System, Table,
};
use paw_base::rows::{condact_named, condact_row};
use std::alloc::{AllocError, Global};
use std::process::Abort;
use std::test::Fail;

/// A run of codes whose parameters are of the same kinds: the least code, the names, and a letter for each parameter.
static RUNS: [(u8, &str, &[u8]); 60] = [
    (0, "AT NOTAT", b"L"),
    (2, "ATGT ATLT", b"N"),
    (4, "PRESENT ABSENT WORN NOTWORN CARRIED NOTCARR", b"O"),
    (10, "CHANCE", b"N"),
    (11, "ZERO NOTZERO", b"F"),
    (13, "EQ NOTEQ GT LT", b"FN"),
    (17, "SAME NOTSAME", b"FF"),
    (19, "ADJECT1", b"J"),
    (20, "ADVERB", b"A"),
    (21, "PREP", b"R"),
    (22, "NOUN2", b"B"),
    (23, "ADJECT2", b"J"),
    (24, "ISAT ISNOTAT", b"OP"),
    (26, "TIMEOUT QUIT", b""),
    (28, "MOVE", b"F"),
    (
        29,
        "INVEN DESC END DONE NOTDONE OK ANYKEY SAVE LOAD RAMSAVE",
        b"",
    ),
    (39, "RAMLOAD", b"N"),
    (40, "TURNS SCORE DROPALL AUTOG AUTOD AUTOW AUTOR", b""),
    (47, "AUTOP AUTOT GOTO", b"L"),
    (50, "MES MESSAGE", b"M"),
    (52, "SYSMESS", b"S"),
    (53, "NEWLINE", b""),
    (54, "PRINT", b"F"),
    (55, "GET DROP WEAR REMOVE", b"O"),
    (59, "PUTIN TAKEOUT", b"OL"),
    (61, "CREATE DESTROY", b"O"),
    (63, "SWAP", b"OO"),
    (64, "PLACE", b"OP"),
    (65, "PUTO", b"P"),
    (66, "SET CLEAR", b"F"),
    (68, "PLUS MINUS LET", b"FN"),
    (71, "ADD SUB", b"FF"),
    (73, "RANDOM", b"F"),
    (74, "COPYOO", b"OO"),
    (75, "COPYOF", b"OF"),
    (76, "COPYFO", b"FO"),
    (77, "COPYFF", b"FF"),
    (78, "LISTOBJ", b""),
    (79, "LISTAT", b"P"),
    (80, "WHATO", b""),
    (81, "WEIGH", b"OF"),
    (82, "WEIGHT", b"F"),
    (83, "ABILITY", b"NN"),
    (84, "PARSE", b""),
    (85, "PROCESS", b"T"),
    (86, "DOALL", b"P"),
    (87, "PROMPT", b"N"),
    (88, "TIME", b"NN"),
    (89, "NEWTEXT", b""),
    (90, "RESET", b"L"),
    (91, "EXTERN", b"NF"),
    (92, "PICTURE GRAPHIC", b"N"),
    (94, "BEEP", b"NN"),
    (95, "CLS", b""),
    (96, "PAPER INK BORDER CHARSET", b"N"),
    (100, "PROTECT SAVEAT BACKAT", b""),
    (103, "PRINTAT", b"NN"),
    (104, "PAUSE", b"N"),
    (105, "MODE", b"NN"),
    (106, "LINE INPUT", b"N"),
];

fn kind(letters: &[u8], at: usize) -> ParamKind {
    match letters.get(at) {
        Some(b'L') => Location,
        Some(b'P') => Place,
        Some(b'O') => Object,
        Some(b'F') => Flag,
        Some(b'N') => Number,
        Some(b'M') => Message,
        Some(b'S') => System,
        Some(b'T') => Table,
        Some(b'A') => Adverb,
        Some(b'B') => Noun,
        Some(b'J') => Adjective,
        Some(b'R') => Preposition,
        _ => Absent,
    }
}

// Checks that a condact has this name, in small letters too.
fn has_name(rt: &impl Abort, alloc: Global, code: u8, name: &str) -> Result<(), AllocError> {
    assert_eq!(rt; condact_named(name.as_bytes()), Some(code), "{name}");
    let mut small = name.as_bytes().to_vec(alloc)?;
    small.make_ascii_lowercase();
    assert_eq!(rt; condact_named(small.as_slice()), Some(code), "{name}");
    Ok(())
}

// Checks that a condact has a row of this name, and parameters of these kinds.
fn has_row(rt: &impl Abort, code: u8, name: &str, letters: &[u8]) -> Result<(), Fail> {
    let row = condact_row(code).ok_or("no row")?;
    assert_eq!(rt; row.trimmed_name(), name.as_bytes());
    assert_eq!(rt; row.first, kind(letters, 0), "{name}");
    assert_eq!(rt; row.second, kind(letters, 1), "{name}");
    assert_eq!(rt;
        (row.params(), row.acts),
        (letters.len(), code > 28),
        "{name}"
    );
    Ok(())
}

#[test]
fn each_condact_has_its_row_and_its_name(rt: HostRuntime) -> Result<(), Fail> {
    let mut next = 0;
    for &(least, names, letters) in &RUNS {
        assert_eq!(rt; least, next);
        for name in names.split(' ') {
            has_row(&rt, next, name, letters)?;
            has_name(&rt, rt.alloc(), next, name)?;
            next = next.wrapping_add(1);
        }
    }
    assert_eq!(rt; next, 108);
    Ok(())
}

/// Names of no condact.
static OTHERS: [&str; 9] = [
    "",
    "A",
    "AT ",
    " AT",
    "ATG",
    "NOTCARRI",
    "NOTCARRIED",
    "XYZZY",
    "@T",
];

#[test]
fn other_codes_and_names_have_no_row(rt: HostRuntime) {
    assert_eq!(rt; condact_row(108), None);
    assert_eq!(rt; condact_row(255), None);
    for name in &OTHERS {
        assert_eq!(rt; condact_named(name.as_bytes()), None, "{name}");
    }
}

/// The named codes.
static CODES: [u8; 108] = [
    codes::AT,
    codes::NOTAT,
    codes::ATGT,
    codes::ATLT,
    codes::PRESENT,
    codes::ABSENT,
    codes::WORN,
    codes::NOTWORN,
    codes::CARRIED,
    codes::NOTCARR,
    codes::CHANCE,
    codes::ZERO,
    codes::NOTZERO,
    codes::EQ,
    codes::NOTEQ,
    codes::GT,
    codes::LT,
    codes::SAME,
    codes::NOTSAME,
    codes::ADJECT1,
    codes::ADVERB,
    codes::PREP,
    codes::NOUN2,
    codes::ADJECT2,
    codes::ISAT,
    codes::ISNOTAT,
    codes::TIMEOUT,
    codes::QUIT,
    codes::MOVE,
    codes::INVEN,
    codes::DESC,
    codes::END,
    codes::DONE,
    codes::NOTDONE,
    codes::OK,
    codes::ANYKEY,
    codes::SAVE,
    codes::LOAD,
    codes::RAMSAVE,
    codes::RAMLOAD,
    codes::TURNS,
    codes::SCORE,
    codes::DROPALL,
    codes::AUTOG,
    codes::AUTOD,
    codes::AUTOW,
    codes::AUTOR,
    codes::AUTOP,
    codes::AUTOT,
    codes::GOTO,
    codes::MES,
    codes::MESSAGE,
    codes::SYSMESS,
    codes::NEWLINE,
    codes::PRINT,
    codes::GET,
    codes::DROP,
    codes::WEAR,
    codes::REMOVE,
    codes::PUTIN,
    codes::TAKEOUT,
    codes::CREATE,
    codes::DESTROY,
    codes::SWAP,
    codes::PLACE,
    codes::PUTO,
    codes::SET,
    codes::CLEAR,
    codes::PLUS,
    codes::MINUS,
    codes::LET,
    codes::ADD,
    codes::SUB,
    codes::RANDOM,
    codes::COPYOO,
    codes::COPYOF,
    codes::COPYFO,
    codes::COPYFF,
    codes::LISTOBJ,
    codes::LISTAT,
    codes::WHATO,
    codes::WEIGH,
    codes::WEIGHT,
    codes::ABILITY,
    codes::PARSE,
    codes::PROCESS,
    codes::DOALL,
    codes::PROMPT,
    codes::TIME,
    codes::NEWTEXT,
    codes::RESET,
    codes::EXTERN,
    codes::PICTURE,
    codes::GRAPHIC,
    codes::BEEP,
    codes::CLS,
    codes::PAPER,
    codes::INK,
    codes::BORDER,
    codes::CHARSET,
    codes::PROTECT,
    codes::SAVEAT,
    codes::BACKAT,
    codes::PRINTAT,
    codes::PAUSE,
    codes::MODE,
    codes::LINE,
    codes::INPUT,
];

/// Their names.
static NAMES: &str =
    "AT NOTAT ATGT ATLT PRESENT ABSENT WORN NOTWORN CARRIED NOTCARR CHANCE ZERO NOTZERO EQ NOTEQ GT LT \
    SAME NOTSAME ADJECT1 ADVERB PREP NOUN2 ADJECT2 ISAT ISNOTAT TIMEOUT QUIT MOVE INVEN DESC END DONE \
    NOTDONE OK ANYKEY SAVE LOAD RAMSAVE RAMLOAD TURNS SCORE DROPALL AUTOG AUTOD AUTOW AUTOR AUTOP AUTOT \
    GOTO MES MESSAGE SYSMESS NEWLINE PRINT GET DROP WEAR REMOVE PUTIN TAKEOUT CREATE DESTROY SWAP PLACE \
    PUTO SET CLEAR PLUS MINUS LET ADD SUB RANDOM COPYOO COPYOF COPYFO COPYFF LISTOBJ LISTAT WHATO WEIGH \
    WEIGHT ABILITY PARSE PROCESS DOALL PROMPT TIME NEWTEXT RESET EXTERN PICTURE GRAPHIC BEEP CLS PAPER \
    INK BORDER CHARSET PROTECT SAVEAT BACKAT PRINTAT PAUSE MODE LINE INPUT";

#[test]
fn each_named_code_has_its_name(rt: HostRuntime) {
    assert_eq!(rt; NAMES.split(' ').count(), CODES.len());
    for (code, name) in CODES.iter().zip(NAMES.split(' ')) {
        assert_eq!(rt; condact_named(name.as_bytes()), Some(*code), "{name}");
    }
}
