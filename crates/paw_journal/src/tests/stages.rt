// Tables of calls of stages, and what they answer. They stand here, where few functions are proved once more with
// them.

mod memory;
mod real;
mod refusing;

use paw_stage::{Asked, FailStage, Failed, LineReader, LoadRefusal, MemoryStage, RealStage, Stage};
use std::alloc::{AllocError, Global};
use std::fs;
use std::process::Abort;
use std::test::Fail;

#[derive(Clone, Copy)]
enum Call<'a> {
    Load(&'a str, usize),
    Save(&'a str, &'a [u8]),
    Ask,
    Show(&'a [u8]),
}

// What a call answers: the bytes that it gives, or a word in capitals.
fn answer_of_call<S: Stage>(
    stage: &mut S,
    alloc: Global,
    call: Call<'_>,
) -> Result<Vec<u8>, AllocError> {
    match call {
        Call::Load(name, most) => answer_of_load(stage, alloc, name, most),
        Call::Save(name, bytes) => word(alloc, stage.save(name, bytes)),
        Call::Ask => answer_of_ask(stage, alloc),
        Call::Show(text) => word(alloc, stage.show(text)),
    }
}

fn answer_of_load<S: Stage>(
    stage: &mut S,
    alloc: Global,
    name: &str,
    most: usize,
) -> Result<Vec<u8>, AllocError> {
    match stage.load(alloc, name, most) {
        Ok(bytes) => Ok(bytes),
        Err(LoadRefusal::Absent) => Vec::from_slice(alloc, b"ABSENT"),
        Err(LoadRefusal::Failed) => Vec::from_slice(alloc, b"FAILED"),
        Err(LoadRefusal::Memory) => Err(AllocError),
    }
}

fn answer_of_ask<S: Stage>(stage: &mut S, alloc: Global) -> Result<Vec<u8>, AllocError> {
    let mut line = [0u8; 255];
    match stage.ask(&mut line) {
        Asked::Line(n) => Vec::from_slice(alloc, &line[..n as usize]),
        Asked::End => Vec::from_slice(alloc, b"END"),
        Asked::Failed => Vec::from_slice(alloc, b"FAILED"),
    }
}

fn word(alloc: Global, answer: Result<(), Failed>) -> Result<Vec<u8>, AllocError> {
    Vec::from_slice(alloc, if answer.is_ok() { b"DONE" } else { b"FAILED" })
}

// Checks that these calls in a row answer so.
fn answers<S: Stage>(
    rt: &impl Abort,
    alloc: Global,
    stage: &mut S,
    calls: &[(Call<'_>, &[u8])],
) -> Result<(), Fail> {
    for (at, &(call, want)) in calls.iter().enumerate() {
        let answer = answer_of_call(stage, alloc, call)?;
        assert_eq!(rt; answer.as_slice(), want, "call {at}");
    }
    Ok(())
}

fn with_files(alloc: Global, calls: u64, bytes: u64) -> Result<MemoryStage, Fail> {
    let mut stage = MemoryStage::new(alloc, calls, bytes)?;
    stage.add_file("game", b"first")?;
    stage.add_file("other", b"")?;
    stage.add_file("game", b"abcdef")?;
    Ok(stage)
}

fn with_lines(alloc: Global, calls: u64, bytes: u64) -> Result<MemoryStage, Fail> {
    let mut stage = with_files(alloc, calls, bytes)?;
    stage.add_line(alloc, b"take lamp")?;
    stage.add_line(alloc, b"")?;
    Ok(stage)
}

/// Calls over files that were added, and what they answer.
static OF_FILES: [(Call<'static>, &[u8]); 9] = [
    (Call::Load("game", 0), b"a"),
    (Call::Load("game", 4), b"abcde"),
    (Call::Load("game", 5), b"abcdef"),
    (Call::Load("game", 6), b"abcdef"),
    (Call::Load("other", 9), b""),
    (Call::Load("gam", 9), b"ABSENT"),
    (Call::Save("gam", b"saved"), b"DONE"),
    (Call::Load("gam", 9), b"saved"),
    (Call::Load("game", 9), b"abcdef"),
];

#[test]
fn files_are_as_they_were_last_added_or_saved(rt: HostRuntime) -> Result<(), Fail> {
    let mut stage = with_files(rt.alloc(), 100, 100)?;
    answers(&rt, rt.alloc(), &mut stage, &OF_FILES)
}

/// Calls up to the last that there is room for, and others, and what they answer.
static OF_TOO_MANY: [(Call<'static>, &[u8]); 13] = [
    (Call::Show(b"12345678"), b"FAILED"),
    (Call::Show(b"123"), b"DONE"),
    (Call::Load("other", 9), b"FAILED"),
    (Call::Save("g", b"four"), b"FAILED"),
    (Call::Load("game", 9), b"abcdef"),
    (Call::Show(b"4"), b"FAILED"),
    (Call::Show(b""), b"DONE"),
    (Call::Ask, b"take lamp"),
    (Call::Ask, b""),
    (Call::Ask, b"END"),
    (Call::Ask, b"FAILED"),
    (Call::Show(b""), b"FAILED"),
    (Call::Load("", 9), b"FAILED"),
];

#[test]
fn calls_fail_where_the_room_is_used_up(rt: HostRuntime) -> Result<(), Fail> {
    let mut stage = with_lines(rt.alloc(), 6, 7)?;
    answers(&rt, rt.alloc(), &mut stage, &OF_TOO_MANY)?;
    assert_eq!(rt; stage.shown(), b"123".as_slice());
    Ok(())
}

/// Calls of which some are listed to fail, and what they answer.
static OF_LISTED: [(Call<'static>, &[u8]); 9] = [
    (Call::Show(b"Hall. "), b"DONE"),
    (Call::Show(b"lost "), b"FAILED"),
    (Call::Show(b"Yard."), b"DONE"),
    (Call::Ask, b"FAILED"),
    (Call::Ask, b"take lamp"),
    (Call::Load("none", 9), b"FAILED"),
    (Call::Save("game", b"lost"), b"FAILED"),
    (Call::Load("game", 9), b"abcdef"),
    (Call::Show(b"no spare call is left"), b"FAILED"),
];

// A stage with two lines and room for four calls, of which the listed ones fail.
fn with_listed(alloc: Global) -> Result<FailStage, Fail> {
    let listed = [5, 1, 3, 6, 1].to_vec(alloc)?;
    Ok(FailStage::new(with_lines(alloc, 4, 100)?, listed))
}

#[test]
fn the_listed_calls_fail(rt: HostRuntime) -> Result<(), Fail> {
    let mut stage = with_listed(rt.alloc())?;
    answers(&rt, rt.alloc(), &mut stage, &OF_LISTED)?;
    assert_eq!(rt; stage.inner().shown(), b"Hall. Yard.".as_slice());
    Ok(())
}

/// Calls over real files, and what they answer. A file is named through its folder, and a path through the file itself
/// isn't a missing name. What was loaded isn't saved over.
static OF_REAL_FILES: [(Call<'static>, &[u8]); 12] = [
    (Call::Load("./paw_stage_no_such_file", 9), b"ABSENT"),
    (Call::Save("./paw_stage_test", b"abcdef"), b"DONE"),
    (Call::Load("paw_stage_test", 0), b"a"),
    (Call::Load("paw_stage_test", 4), b"abcde"),
    (Call::Load("paw_stage_test", 9), b"abcdef"),
    (Call::Save("paw_stage_test", b""), b"FAILED"),
    (Call::Load("paw_stage_test", 9), b"abcdef"),
    (Call::Load("paw_stage_test/game", 9), b"FAILED"),
    (Call::Save("paw_stage_test/game", b"x"), b"FAILED"),
    (Call::Load(".", 9), b"FAILED"),
    (Call::Save(".", b"x"), b"FAILED"),
    (Call::Show(b""), b"DONE"),
];

#[test]
fn real_files_are_loaded_and_saved(rt: HostRuntime) -> Result<(), Fail> {
    let mut stage = RealStage::new(&rt);
    answers(&rt, rt.alloc(), &mut stage, &OF_REAL_FILES)?;
    fs::remove_file(&rt, "paw_stage_test")?;
    Ok(())
}

// This number of letters and then a text.
fn line_of(alloc: Global, length: usize, end: &str) -> Result<Vec<u8>, AllocError> {
    let mut bytes = vec![in alloc; b'x'; length]?;
    bytes.extend_from_slice(end.as_bytes())?;
    Ok(bytes)
}

/// The lengths of lines, and how many bytes of each are given.
static LENGTHS: [(usize, usize); 6] = [
    (0, 0),
    (1, 1),
    (254, 254),
    (255, 255),
    (256, 255),
    (5000, 255),
];

// A stage with this line alone.
fn with_line(alloc: Global, length: usize) -> Result<MemoryStage, Fail> {
    let line = line_of(alloc, length, "")?;
    let mut stage = with_files(alloc, 1, 0)?;
    stage.add_line(alloc, line.as_slice())?;
    Ok(stage)
}

// A stage in memory and a reader cut a line alike.
#[test]
fn a_line_is_cut_to_255_bytes(rt: HostRuntime) -> Result<(), Fail> {
    for &(length, want) in &LENGTHS {
        let mut stage = with_line(rt.alloc(), length)?;
        let answer = answer_of_ask(&mut stage, rt.alloc())?;
        assert_eq!(rt; answer.len(), want, "{length}");
    }
    Ok(())
}

/// The greatest length of a line that is taken.
const LONGEST: usize = 1_048_576;

const FULL: Asked = Asked::Line(255);

/// This number of letters and a text, which a reader gives, and what three asks for a line answer.
static READ: [(usize, &str, &[Asked]); 15] = [
    (0, "", &[Asked::End, Asked::End, Asked::End]),
    (0, "\n", &[Asked::Line(0), Asked::End, Asked::End]),
    (1, "\r\nN", &[Asked::Line(1), Asked::Line(1), Asked::End]),
    (
        2,
        "\ry\r\r\n\r",
        &[Asked::Line(5), Asked::Line(1), Asked::End],
    ),
    (0, "\n\r\n", &[Asked::Line(0), Asked::Line(0), Asked::End]),
    (
        254,
        "\r\nN\n",
        &[Asked::Line(254), Asked::Line(1), Asked::End],
    ),
    (255, "\r\n\n", &[FULL, Asked::Line(0), Asked::End]),
    (256, "\nN", &[FULL, Asked::Line(1), Asked::End]),
    (LONGEST, "", &[FULL, Asked::End, Asked::End]),
    (LONGEST, "\nN", &[FULL, Asked::Line(1), Asked::End]),
    (LONGEST, "\r\nN", &[FULL, Asked::Line(1), Asked::End]),
    (
        LONGEST + 1,
        "",
        &[Asked::Failed, Asked::Failed, Asked::Failed],
    ),
    (
        LONGEST + 1,
        "\nN",
        &[Asked::Failed, Asked::Failed, Asked::Failed],
    ),
    (
        LONGEST + 1,
        "\r\nN",
        &[Asked::Failed, Asked::Failed, Asked::Failed],
    ),
    (
        LONGEST + 2,
        "\nN",
        &[Asked::Failed, Asked::Failed, Asked::Failed],
    ),
];

// Checks what asks for the lines of these bytes answer.
fn reads(rt: &impl Abort, bytes: &[u8], answers: &[Asked]) {
    let length = bytes.len();
    let mut input = LineReader::new(bytes);
    let mut line = [0u8; 255];
    for &want in answers {
        assert_eq!(rt; input.next_line(&mut line), want, "{length}");
    }
}

#[test]
fn a_reader_is_read_line_by_line(rt: HostRuntime) -> Result<(), Fail> {
    for &(length, rest, answers) in &READ {
        let bytes = line_of(rt.alloc(), length, rest)?;
        reads(&rt, bytes.as_slice(), answers);
    }
    Ok(())
}
