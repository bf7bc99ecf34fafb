// Lines of a small game, read token by token.

use paw_base::codes::{AUTOP, DOALL, EQ, INDIRECT, LET, MES, NOUN2, OK};
use paw_base::fault::SourceKind;
use paw_base::parts::Condact;
use paw_base::words::{ADJECTIVE_CLASS, NOUN_CLASS, VERB_CLASS};
use paw_game::parts::Word;
use paw_grammar::bounds::Bounds;
use paw_grammar::condacts::Scope;
use paw_grammar::numbers::{number_within, row_number};
use paw_grammar::places::first_place;
use paw_grammar::refusal::LineError;
use paw_grammar::tokens::Tokens;
use paw_grammar::vocabulary::Vocabulary;
use paw_grammar::words::{class, object_kind, word};
use paw_lex::Line;
use paw_read_error::read_error::ReadError;
use std::alloc::Global;
use std::process::Abort;
use std::test::Fail;

const BOUNDS: Bounds = Bounds {
    system: 54,
    messages: 2,
    objects: 6,
    locations: 4,
    tables: 6,
};

const NO_ROOM: &str = "there is no room";

fn tokens(source: &[u8]) -> Tokens<'_> {
    let line = Line {
        number: 1,
        from: 0,
        to: source.len(),
    };
    Tokens::new(source, &line)
}

fn fault<T>(kind: SourceKind) -> Result<T, LineError> {
    Err(ReadError::Fault(kind))
}

fn small_vocabulary(alloc: Global) -> Result<Vocabulary, LineError> {
    let mut words = Vocabulary::new(alloc);
    for (letters, value, class) in [
        (*b"TAKE ", 30, VERB_CLASS),
        (*b"N    ", 2, NOUN_CLASS),
        (*b"GET  ", 30, VERB_CLASS),
        (*b"BAG  ", 52, NOUN_CLASS),
        (*b"LANTE", 50, NOUN_CLASS),
    ] {
        words.declare(Word {
            letters,
            value,
            class,
        })?;
    }
    Ok(words)
}

fn scope(words: &Vocabulary) -> Scope<'_> {
    Scope {
        bounds: BOUNDS,
        words,
    }
}

#[test]
fn words_stand_in_order_of_their_letters(rt: HostRuntime) -> Result<(), Fail> {
    let mut words = small_vocabulary(rt.alloc()).ok().ok_or(NO_ROOM)?;
    let again = Word {
        letters: *b"LANTE",
        value: 9,
        class: ADJECTIVE_CLASS,
    };
    assert_eq!(rt; words.declare(again), fault(SourceKind::Duplicate));
    let list = words.into_words(rt.alloc()).ok().ok_or(NO_ROOM)?;
    let wanted = [*b"BAG  ", *b"GET  ", *b"LANTE", *b"N    ", *b"TAKE "];
    assert_eq!(rt; list.len(), wanted.len());
    for (word, letters) in list.iter().zip(wanted.iter()) {
        assert_eq!(rt; word.letters, *letters);
    }
    Ok(())
}

#[test]
fn tokens_of_a_word_are_read(rt: HostRuntime) {
    let mut row = tokens(b"lanterns 0050 Noun ; a lamp");
    assert_eq!(rt; word(&mut row), Ok(*b"LANTE"));
    assert_eq!(rt; number_within(&mut row, 2, 254), Ok(50));
    assert_eq!(rt; class(&mut row), Ok(2));
    assert_eq!(rt; row.end_line(), Ok(()));
}

// Checks what is read of an object's row.
fn object_is_read(rt: &impl Abort, words: &Vocabulary) {
    let mut object = tokens(b"4\tcarried 2 cw LANTERN _ x");
    assert_eq!(rt; row_number(&mut object, 4, 5), Ok(()));
    assert_eq!(rt; first_place(&mut object, 4), Ok(254));
    assert_eq!(rt; number_within(&mut object, 0, 63), Ok(2));
    assert_eq!(rt; object_kind(&mut object), Ok((true, true)));
    assert_eq!(rt; words.word_or_none(NOUN_CLASS, &mut object), Ok(50));
    assert_eq!(rt; words.word_or_none(ADJECTIVE_CLASS, &mut object), Ok(255));
    assert_eq!(rt; object.end_line(), fault(SourceKind::Extra));
}

// Checks what is read of the head of an entry, and past it.
fn head_is_read(rt: &impl Abort, words: &Vocabulary) {
    let mut head = tokens(b"N * *");
    assert_eq!(rt; words.entry_verb(&mut head), Ok(2));
    assert_eq!(rt; words.entry_noun(&mut head), Ok(1));
    assert_eq!(rt;
        words.word_or_none(NOUN_CLASS, &mut head),
        fault(SourceKind::Word)
    );
    assert_eq!(rt; words.verb_word(&mut head), fault(SourceKind::Missing));
}

#[test]
fn tokens_of_rows_are_read(rt: HostRuntime) -> Result<(), Fail> {
    let words = small_vocabulary(rt.alloc()).ok().ok_or(NO_ROOM)?;
    object_is_read(&rt, &words);
    head_is_read(&rt, &words);
    assert_eq!(rt;
        first_place(&mut tokens(b"here"), 4),
        fault(SourceKind::Number)
    );
    Ok(())
}

/// Condacts of all kinds of parameters, in a line.
const CONDACTS: &[u8] =
    b"noun2 bag AUTOP 002 LET 60 9 DOALL here OK MES @100 mes @007 NOUN2 @4 EQ @7 3 ; more";

/// Their codes and parameters.
static READ: [(u8, u8, u8); 9] = [
    (NOUN2, 52, 0),
    (AUTOP, 2, 0),
    (LET, 60, 9),
    (DOALL, 255, 0),
    (OK, 0, 0),
    (MES + INDIRECT, 100, 0),
    (MES + INDIRECT, 7, 0),
    (NOUN2 + INDIRECT, 4, 0),
    (EQ + INDIRECT, 7, 3),
];

// The condacts of a line.
fn condacts_of(alloc: Global, words: &Vocabulary, line: &[u8]) -> Result<Vec<Condact>, LineError> {
    let mut rows = Vec::new(alloc);
    scope(words).more_condacts(&mut tokens(line), &mut rows)?;
    Ok(rows)
}

// Checks that these rows are those that were read.
fn are_read(rt: &impl Abort, rows: &[Condact]) {
    assert_eq!(rt; rows.len(), READ.len());
    for (found, &(code, a, b)) in rows.iter().zip(&READ) {
        assert_eq!(rt; *found, Condact { code, a, b });
    }
}

#[test]
fn condacts_are_read(rt: HostRuntime) -> Result<(), Fail> {
    let words = small_vocabulary(rt.alloc()).ok().ok_or(NO_ROOM)?;
    let rows = condacts_of(rt.alloc(), &words, CONDACTS)
        .ok()
        .ok_or("refused")?;
    are_read(&rt, rows.as_slice());
    Ok(())
}

/// Lines, and the kinds of their first faults.
static FAULTY: [(&[u8], SourceKind); 17] = [
    (b"OK LOOK", SourceKind::Condact),
    (b"MESSAGE", SourceKind::Missing),
    (b"MESSAGE 2 x", SourceKind::Range),
    (b"GOTO HERE", SourceKind::Number),
    (b"PLACE 5 251", SourceKind::Range),
    (b"NOUN2 take", SourceKind::Word),
    (b"NOUN2 *", SourceKind::Word),
    (b"PROCESS 6", SourceKind::Range),
    (b"DONE 5", SourceKind::Condact),
    (b"MES @", SourceKind::Number),
    (b"NOUN2 @x", SourceKind::Number),
    (b"MES @256", SourceKind::Range),
    (b"MES @99999999999999999999", SourceKind::Range),
    (b"PROCESS @1", SourceKind::Number),
    (b"LET 1 @2", SourceKind::Number),
    (b"PLACE 1 @2", SourceKind::Number),
    (b"DONE @1", SourceKind::Condact),
];

#[test]
fn the_first_fault_of_condacts_is_named(rt: HostRuntime) -> Result<(), Fail> {
    let words = small_vocabulary(rt.alloc()).ok().ok_or(NO_ROOM)?;
    for &(line, kind) in &FAULTY {
        assert_eq!(rt;
            condacts_of(rt.alloc(), &words, line).err(),
            Some(ReadError::Fault(kind))
        );
    }
    Ok(())
}
