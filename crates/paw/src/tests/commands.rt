// What each command has in rows: words that form none, and the calls that it makes.

use crate::tests::running::{compare, run, settle, settle_and_run};
use crate::tests::sessions::{PLAY, RESUME, earlier_form, stage_of};
use paw_stage::{CallKind, MemoryStage};
use paw_top::outcome::Outcome;
use paw_wrap::WRAP_LIMIT;
use std::alloc::Global;
use std::process::Abort;
use std::test::Fail;

/// More calls than any stage here records.
const MOST_RECORDED: usize = 200;

// How many calls a stage has recorded.
fn calls_made(stage: &MemoryStage) -> usize {
    for number in 0..MOST_RECORDED {
        if stage.call(number).is_none() {
            return number;
        }
    }
    MOST_RECORDED
}

// The word for a call in the rows below.
fn word_for(kind: CallKind) -> &'static str {
    match kind {
        CallKind::Add => "add",
        CallKind::Load => "load",
        CallKind::Save => "save",
        CallKind::Attach => "attach",
        CallKind::Read => "read",
        CallKind::Write(_) => "write",
        CallKind::Sync => "sync",
        CallKind::Take => "take",
        CallKind::End => "end",
        CallKind::Show => "show",
    }
}

// The calls that a stage recorded from this number on, in their order, each by its word, and with the name handed to it
// in brackets.
fn told_from(alloc: Global, stage: &MemoryStage, from: usize) -> Result<Vec<u8>, Fail> {
    let mut told = Vec::new(alloc);
    for number in from..MOST_RECORDED {
        let Some((kind, name)) = stage.call(number) else {
            return Ok(told);
        };
        if !told.is_empty() {
            told.push(b' ')?;
        }
        told.extend_from_slice(word_for(kind).as_bytes())?;
        if !name.is_empty() {
            told.push(b'(')?;
            told.extend_from_slice(name)?;
            told.push(b')')?;
        }
    }
    Ok(told)
}

// Checks that a command makes just these calls.
fn makes(
    rt: &impl Abort,
    alloc: Global,
    store: &[u8],
    (words, lines, calls): (&str, &str, &str),
) -> Result<(), Fail> {
    let mut stage = stage_of(rt, alloc, store, lines)?;
    settle(rt, &mut stage);
    let before = calls_made(&stage);
    let _ = run(alloc, &mut stage, words)?;
    let told = told_from(alloc, &stage, before)?;
    assert_eq!(rt; told.as_slice(), calls.as_bytes(), "{words:?} {lines:?}");
    Ok(())
}

/// The words of a command, its lines, and the calls that it makes.
static CALLS: [(&str, &str, &str); 10] = [
    (
        "compile\nhall source\nhall",
        "WAIT",
        "load(hall source) save(hall) show",
    ),
    ("decompile\nhall", "WAIT", "load(hall) show"),
    (
        "walk\nhall\n7",
        "WAIT\nWAIT",
        "load(hall) show take show take show end",
    ),
    // The game is over before the last line.
    (
        "walk\nhall\n7",
        "QUIT\nY\nN\nWAIT",
        "load(hall) show take show take show take show",
    ),
    (
        "trace\nhall\n7",
        "WAIT",
        "load(hall) show take show show end",
    ),
    (
        PLAY,
        "WAIT",
        "load(hall) attach(store) write sync write write write sync write sync show take \
         write write write sync write sync show end",
    ),
    // A trial has a stage of its own for its files and lines.
    ("trial\n0", "WAIT", "show"),
    ("check\nhall", "WAIT", "load(hall) show"),
    ("wrap\n10\nhall source", "WAIT", "load(hall source) show"),
    // An empty text makes no call.
    ("wrap\n10\nstore", "WAIT", "load(store)"),
];

#[test]
fn nothing_is_loaded_twice_nor_asked_for_behind_the_end(rt: HostRuntime) -> Result<(), Fail> {
    let alloc = rt.alloc();
    // Each row loads no file twice, names only the files of its words, and has nothing after an end.
    for &row in &CALLS {
        makes(&rt, alloc, b"", row)?;
    }
    let earlier = earlier_form(&rt, alloc)?;
    let resumed = "load(hall) attach(store) read read read show take \
                   write write write sync write sync show end";
    makes(&rt, alloc, earlier.as_slice(), (RESUME, "Y", resumed))
}

// Checks that these words have no form, and that nothing at the stage is touched.
fn is_usage(
    rt: &impl Abort,
    alloc: Global,
    stage: &mut MemoryStage,
    words: &str,
) -> Result<(), Fail> {
    settle(rt, stage);
    let before = calls_made(stage);
    let outcome = run(alloc, stage, words)?;
    let made = calls_made(stage);
    assert_eq!(rt; (outcome, made), (Outcome::Usage, before), "{words:?}");
    Ok(())
}

/// Words that have no form.
static WORDS_OF_NO_FORM: [&str; 53] = [
    "",
    "walk",
    "walk\ngame",
    "walk\n\n7",
    "walk\ngame\n\n",
    "walk\ngame\n7\n8",
    "walk\ngame\n18446744073709551616",
    "walk\ngame\n000000000000000000007",
    "walk\ngame\n+7",
    "walk\ngame\n-7",
    "walk\ngame\n 7",
    "walk\ngame\n7a",
    "walk\ngame\nseven",
    "Walk\ngame\n7",
    "game\nwalk\n7",
    "trace",
    "trace\ngame",
    "trace\n\n7",
    "trace\ngame\n\n",
    "trace\ngame\n7\n8",
    "trace\ngame\n18446744073709551616",
    "trace\ngame\nseven",
    "play\ngame\nf\nx",
    "trial",
    "trial\n\n",
    "trial\n10000",
    "trial\n00000",
    "trial\n-1",
    "trial\n7a",
    "trial\n7\n7",
    "compile",
    "compile\nsource",
    "compile\n\nimage",
    "compile\nsource\n\n",
    "compile\nsource\nimage\nimage",
    "Compile\nsource\nimage",
    "decompile",
    "decompile\n\n",
    "decompile\nimage\nsource",
    "check",
    "check\n\n",
    "check\nimage\nimage",
    "wrap",
    "wrap\n10",
    "wrap\n10\n\n",
    "wrap\n0\nstore",
    "wrap\n000\nstore",
    "wrap\n256\nstore",
    "wrap\n0010\nstore",
    "wrap\n+1\nstore",
    "wrap\nstore\n10",
    "wrap\n10\nstore\nstore",
    "dance",
];

#[test]
fn words_that_have_no_form_are_usage(rt: HostRuntime) -> Result<(), Fail> {
    let alloc = rt.alloc();
    let mut stage = stage_of(&rt, alloc, b"", "WAIT")?;
    for &words in &WORDS_OF_NO_FORM {
        is_usage(&rt, alloc, &mut stage, words)?;
    }
    Ok(())
}

// Checks that a text is shown so.
fn is_wrapped(
    rt: &impl Abort,
    alloc: Global,
    (words, text, shown): (&str, &str, &str),
) -> Result<(), Fail> {
    let mut stage = MemoryStage::new(alloc, 10, 1_000)?;
    stage.add_file("text", text.as_bytes())?;
    let outcome = settle_and_run(rt, alloc, &mut stage, words)?;
    let wanted = (Outcome::Done, shown.as_bytes());
    compare(rt, (outcome, stage.shown()), wanted, text);
    Ok(())
}

/// The words of a wrap, a text, and how it is shown.
static COLUMNS: [(&str, &str, &str); 6] = [
    (
        "wrap\n10\ntext",
        "The quick brown fox",
        "The quick\nbrown fox",
    ),
    (
        "wrap\n010\ntext",
        "The quick brown fox",
        "The quick\nbrown fox",
    ),
    ("wrap\n3\ntext", "a  bb cccc d", "a \nbb\ncccc\nd"),
    ("wrap\n1\ntext", "a b\nc", "a\nb\nc"),
    (
        "wrap\n255\ntext",
        "The quick brown fox",
        "The quick brown fox",
    ),
    ("wrap\n255\ntext", "", ""),
];

#[test]
fn a_text_is_shown_in_columns(rt: HostRuntime) -> Result<(), Fail> {
    let alloc = rt.alloc();
    for &row in &COLUMNS {
        is_wrapped(&rt, alloc, row)?;
    }
    Ok(())
}

#[test]
fn a_text_may_be_too_long(rt: HostRuntime) -> Result<(), Fail> {
    let alloc = rt.alloc();
    let mut text = Vec::new(alloc);
    text.resize(WRAP_LIMIT + 1, b'a')?;
    let mut stage = MemoryStage::new(alloc, 10, 5_000_000)?;
    stage.add_file("text", text.as_slice())?;
    let outcome = settle_and_run(&rt, alloc, &mut stage, "wrap\n10\ntext")?;
    let wanted = (Outcome::TextTooLong, b"".as_slice());
    compare(&rt, (outcome, stage.shown()), wanted, "wrap");
    Ok(())
}
