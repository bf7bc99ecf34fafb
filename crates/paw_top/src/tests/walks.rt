// Walks over stages in memory, and each way in which a walk is refused.

use crate::outcome::Outcome;
use crate::tests::running::{compare, run, settle, settle_and_run};
use paw_base::fault::SpentKind;
use paw_stage::{Asked, FailStage, MemoryStage, Stage, StageCall};
use std::alloc::Global;
use std::process::Abort;
use std::test::Fail;

/// Two rooms: LOOK describes again; SING sings in the hall, and leads from the yard back to the hall.
const TWO_ROOMS: [u8; 134] = [
    80, 65, 87, 73, 1, 4, 0, 9, 0, 1, 0, 0, 0, 2, 0, 3, 0, 76, 79, 79, 75, 32, 30, 0, 78, 32, 32,
    32, 32, 2, 2, 83, 32, 32, 32, 32, 3, 2, 83, 73, 78, 71, 32, 31, 0, 0, 0, 0, 0, 1, 0, 62, 0, 0,
    0, 0, 0, 0, 5, 0, 87, 104, 97, 116, 63, 7, 0, 78, 111, 32, 119, 97, 121, 46, 3, 0, 78, 111, 46,
    7, 0, 76, 97, 32, 108, 97, 46, 10, 5, 0, 72, 97, 108, 108, 46, 5, 0, 89, 97, 114, 100, 46, 1,
    2, 1, 1, 3, 0, 3, 0, 30, 255, 1, 30, 31, 255, 3, 1, 1, 50, 0, 32, 31, 255, 3, 0, 1, 49, 0, 30,
    0, 0, 0, 0,
];

/// Where the tables after the first begin in the image of the two rooms.
const LATER_TABLES: usize = 130;

/// One location with no text, which process 1 describes again.
const SILENT: [u8; 30] = [
    80, 65, 87, 73, 1, 0, 0, 0, 0, 0, 0, 0, 0, 1, 0, 3, 0, 0, 0, 0, 0, 0, 1, 0, 255, 255, 1, 30, 0,
    0,
];

/// The same, where the location has the text `A cave.`.
const CAVE: [u8; 37] = [
    80, 65, 87, 73, 1, 0, 0, 0, 0, 0, 0, 0, 0, 1, 0, 3, 0, 7, 0, 65, 32, 99, 97, 118, 101, 46, 0,
    0, 0, 1, 0, 255, 255, 1, 30, 0, 0,
];

/// What is shown before the first line.
const FIRST: &str = "Hall.\n>\n";

/// The words of a walk, one in each line, and those of a trace.
const WALK: &str = "walk\ngame\n7";

const TRACE: &str = "trace\ngame\n7";

// A stage with the image as the file `game`, a file that nobody names, and these lines.
fn stage_of(alloc: Global, image: &[u8], lines: &str) -> Result<MemoryStage, Fail> {
    let mut stage = MemoryStage::new(alloc, 100, 10_000)?;
    stage.add_file("game", image)?;
    stage.add_file("other", b"as it was")?;
    for line in lines.lines() {
        stage.add_line(alloc, line.as_bytes())?;
    }
    Ok(stage)
}

// Walks through the game of an image with these lines to the end of them, and compares what is shown.
fn shows(
    rt: &impl Abort,
    alloc: Global,
    image: &[u8],
    lines: &str,
    shown: &str,
) -> Result<(), Fail> {
    let mut stage = stage_of(alloc, image, lines)?;
    let outcome = settle_and_run(rt, alloc, &mut stage, WALK)?;
    let wanted = (Outcome::InputEnded, shown.as_bytes());
    compare(rt, (outcome, stage.shown()), wanted, lines);
    Ok(())
}

// The image of the two rooms with one byte changed.
fn two_rooms_with(place: usize, byte: u8) -> [u8; 134] {
    let mut image = TWO_ROOMS;
    if place < 134 {
        image[place] = byte;
    }
    image
}

/// The lines of a walk, one after the other, and the piece of each.
static WALKED: [(&str, &str); 7] = [
    ("N", "Yard.\n>\n"),
    ("SING", "Hall.\n>\n"),
    ("SING", "La la.\n>\n"),
    ("N. N", "Yard.\nNo way.\n>\n"),
    ("XY", "What?\n>\n"),
    ("~", ""),
    ("", ">\n"),
];

#[test]
fn two_rooms_are_walked_piece_by_piece(rt: HostRuntime) -> Result<(), Fail> {
    let alloc = rt.alloc();
    let mut lines = String::new(alloc);
    let mut shown = String::from_str(alloc, FIRST)?;
    shows(&rt, alloc, &TWO_ROOMS, "", FIRST)?;
    for &(line, piece) in &WALKED {
        lines.push_str(line)?;
        lines.push_str("\n")?;
        shown.push_str(piece)?;
        shows(&rt, alloc, &TWO_ROOMS, lines.as_str(), shown.as_str())?;
    }
    Ok(())
}

// The same in the two rooms, after the first piece.
fn brings(rt: &impl Abort, alloc: Global, lines: &str, pieces: &str) -> Result<(), Fail> {
    let shown = format!(in alloc; "{FIRST}{pieces}")?;
    shows(rt, alloc, &TWO_ROOMS, lines, shown.as_str())
}

/// Lines, and the pieces that they bring.
static BROUGHT: [(&str, &str); 25] = [
    // Small letters are capitals, five letters make out a word, unknown words are passed over.
    ("look", "Hall.\n>\n"),
    ("Please look at me", "Hall.\n>\n"),
    ("LOOKS", "What?\n>\n"),
    ("NORTH", "What?\n>\n"),
    ("N1", "What?\n>\n"),
    ("12", "What?\n>\n"),
    // The first verb counts, and a noun stands for a verb only where there is none.
    ("SING LOOK", "La la.\n>\n"),
    ("LOOK SING", "Hall.\n>\n"),
    ("N SING", "La la.\n>\n"),
    ("N S", "Yard.\n>\n"),
    ("S N", "No way.\n>\n"),
    // Phrases of one line bring one piece.
    ("N. S", "Yard.\nHall.\n>\n"),
    ("SING: SING! S", "La la.\nLa la.\nNo way.\n>\n"),
    ("SING? N\" SING", "La la.\nYard.\nHall.\n>\n"),
    ("N.SING,LOOK", "Yard.\nHall.\nHall.\n>\n"),
    (",, N ;", "Yard.\n>\n"),
    // What is not understood, or leads nowhere, drops the rest of the line.
    ("N, N, S", "Yard.\nNo way.\n>\n"),
    ("N; XY; S", "Yard.\nWhat?\n>\n"),
    // With no phrase the prompt alone is put; a mark of time that is not allowed brings nothing.
    (".,;:!?\"", ">\n"),
    ("  - ", ">\n"),
    (" ~", ">\n"),
    ("~~", ">\n"),
    ("~ N", "Yard.\n>\n"),
    // One line after another.
    ("N\nN\nS\nS", "Yard.\n>\nNo way.\n>\nHall.\n>\nNo way.\n>\n"),
    ("N\n~\nLOOK\n~", "Yard.\n>\nYard.\n>\n"),
];

#[test]
fn lines_bring_their_pieces(rt: HostRuntime) -> Result<(), Fail> {
    let alloc = rt.alloc();
    for &(lines, pieces) in &BROUGHT {
        brings(&rt, alloc, lines, pieces)?;
    }
    Ok(())
}

// The same of a line that is this number of spaces and then this text.
fn brings_after(
    rt: &impl Abort,
    alloc: Global,
    (spaces, end, piece): (usize, &str, &str),
) -> Result<(), Fail> {
    let line = format!(in alloc; "{}{end}", " ".repeat(alloc, spaces)?)?;
    brings(rt, alloc, line.as_str(), piece)
}

/// How many spaces come first, what follows them, and the piece that this brings.
static AFTER_SPACES: [(usize, &str, &str); 10] = [
    (251, "LOOK", "Hall.\n>\n"),
    (252, "LOOK", "What?\n>\n"),
    (255, "LOOK", ">\n"),
    (254, "N", "Yard.\n>\n"),
    (254, "NORTH", "Yard.\n>\n"),
    (255, "N", ">\n"),
    (251, "N. N", "Yard.\nNo way.\n>\n"),
    (252, "N. N", "Yard.\n>\n"),
    (254, "~", ">\n"),
    (255, "~", ">\n"),
];

#[test]
fn a_line_counts_to_its_255th_byte(rt: HostRuntime) -> Result<(), Fail> {
    let alloc = rt.alloc();
    for &row in &AFTER_SPACES {
        brings_after(&rt, alloc, row)?;
    }
    Ok(())
}

/// The place of a byte, what it is there, lines, and what is shown.
static CHANGED: [(usize, u8, &str, &str); 6] = [
    // An underline stands for the object last named: for none.
    (90, b'_', "", "all.\n>\n"),
    // SING in the yard is for the hall now: nothing is done, and it is no way either.
    (126, 0, "N\nSING", "Hall.\n>\nYard.\n>\nNo.\n>\n"),
    // The first entry is for N: it comes before the way to the yard.
    (110, 2, "N", "Hall.\n>\nHall.\n>\n"),
    // The way leads from the hall to the hall.
    (104, 0, "N", "Hall.\n>\nHall.\n>\n"),
    // LOOK only ends the response.
    (113, 32, "LOOK. N", "Hall.\n>\nYard.\n>\n"),
    // SING in the hall describes it again.
    (121, 30, "SING", "Hall.\n>\nLa la.\nHall.\n>\n"),
];

#[test]
fn games_with_one_byte_changed(rt: HostRuntime) -> Result<(), Fail> {
    let alloc = rt.alloc();
    for &(place, byte, lines, shown) in &CHANGED {
        let image = two_rooms_with(place, byte);
        shows(&rt, alloc, &image, lines, shown)?;
    }
    Ok(())
}

/// A command over a stage with the line `N`, how it ends, what is shown, and what is asked for next.
#[derive(Clone, Copy)]
struct Case<'a> {
    name: &'a str,
    image: &'a [u8],
    words: &'a str,
    outcome: Outcome,
    shown: &'a str,
    next: Asked,
}

// Checks what is asked for next.
fn asks_for<S: Stage>(rt: &impl Abort, stage: &mut S, next: Asked) {
    let mut line = [0u8; 255];
    assert_eq!(rt; stage.ask(&mut line), next);
}

// Checks that the game has this image still, the other file is as it was, and none was made.
fn is_left(
    rt: &impl Abort,
    alloc: Global,
    stage: &mut MemoryStage,
    image: &[u8],
) -> Result<(), Fail> {
    let game = stage.load(alloc, "game", 999)?;
    assert!(rt; game.as_slice() == image);
    let other = stage.load(alloc, "other", 999)?;
    assert_eq!(rt; other.as_slice(), b"as it was".as_slice());
    assert!(rt; stage.load(alloc, "missing", 999).is_err());
    Ok(())
}

// Checks that the command ends as the case says, and the files are as they were.
fn comes_so(rt: &impl Abort, alloc: Global, case: &Case<'_>) -> Result<(), Fail> {
    let mut stage = stage_of(alloc, case.image, "N")?;
    let outcome = settle_and_run(rt, alloc, &mut stage, case.words)?;
    let wanted = (case.outcome, case.shown.as_bytes());
    compare(rt, (outcome, stage.shown()), wanted, case.name);
    asks_for(rt, &mut stage, case.next);
    is_left(rt, alloc, &mut stage, case.image)
}

/// The line of the first trial.
const TRIAL_0: &str = "TRIAL 0: 20 locations, 10 objects, 10 events, 11 turns, at 1 with 2\n";

// No line of the stage is asked for.
#[test]
fn a_trial_shows_its_line(rt: HostRuntime) -> Result<(), Fail> {
    let alloc = rt.alloc();
    for words in ["trial\n0", "trial\n0000"] {
        let case = Case {
            name: words,
            image: &TWO_ROOMS,
            words,
            outcome: Outcome::Done,
            shown: TRIAL_0,
            next: Asked::Line(1),
        };
        comes_so(&rt, alloc, &case)?;
    }
    let mut settled = stage_of(alloc, &TWO_ROOMS, "N")?;
    settle(&rt, &mut settled);
    let mut stage = FailStage::new(settled, [0].to_vec(alloc)?);
    let outcome = run(alloc, &mut stage, "trial\n0")?;
    assert_eq!(rt; outcome, Outcome::Outside(StageCall::Show));
    assert_eq!(rt; stage.inner().shown(), b"".as_slice());
    Ok(())
}

// A refusal of an image: nothing is shown, and no line asked.
fn refusal<'a>(name: &'a str, image: &'a [u8], outcome: Outcome) -> Case<'a> {
    Case {
        name,
        image,
        words: WALK,
        outcome,
        shown: "",
        next: Asked::Line(1),
    }
}

// Checks that this image is damaged at a place.
fn is_damaged(
    rt: &impl Abort,
    alloc: Global,
    (name, image, at): (&str, &[u8], u64),
) -> Result<(), Fail> {
    let case = refusal(name, image, Outcome::ImageDamaged { at });
    comes_so(rt, alloc, &case)
}

/// The image of the two rooms with one byte changed: a name, the place, the byte, and where it is damaged.
static DAMAGED: [(&str, usize, u8, u64); 5] = [
    ("another mark", 0, b'p', 0),
    ("another version", 4, 2, 4),
    ("words out of order", 17, b'Z', 24),
    ("a way to nowhere", 104, 2, 104),
    ("no such condact", 113, 108, 113),
];

#[test]
fn images_are_refused(rt: HostRuntime) -> Result<(), Fail> {
    let alloc = rt.alloc();
    for &(name, place, byte, at) in &DAMAGED {
        is_damaged(&rt, alloc, (name, &two_rooms_with(place, byte), at))?;
    }
    is_damaged(&rt, alloc, ("no byte", b"", 0))?;
    is_damaged(
        &rt,
        alloc,
        ("without its last byte", &TWO_ROOMS[..133], 132),
    )?;
    let mut longer = TWO_ROOMS.to_vec(alloc)?;
    longer.push(0)?;
    is_damaged(&rt, alloc, ("with a byte more", longer.as_slice(), 134))
}

#[test]
fn a_turn_that_never_ends_is_spent(rt: HostRuntime) -> Result<(), Fail> {
    let alloc = rt.alloc();
    // Process 1 describes the yard again and again.
    let mut yard = Vec::from_slice(alloc, &TWO_ROOMS[..LATER_TABLES])?;
    yard.extend_from_slice(&[1, 0, 255, 255, 2, 0, 1, 30, 0, 0])?;
    let condacts = Outcome::Spent(SpentKind::Condacts);
    let text = Outcome::Spent(SpentKind::Text);
    comes_so(&rt, alloc, &refusal("no text", &SILENT, condacts))?;
    comes_so(&rt, alloc, &refusal("a cave", &CAVE, text))?;
    let later = Case {
        shown: FIRST,
        next: Asked::End,
        ..refusal("the yard", yard.as_slice(), text)
    };
    comes_so(&rt, alloc, &later)
}

/// What a trace of the two rooms shows, line by line; the piece follows the steps.
static TRACED: [(&str, &str); 6] = [
    ("N", "Yard.\n>\n"),
    (
        "SING",
        "0.1.0 NOTAT no\n0.2.0 AT yes\n0.2.1 GOTO yes\n0.2.2 DESC yes\nHall.\n>\n",
    ),
    (
        "SING",
        "0.1.0 NOTAT yes\n0.1.1 MES yes\n0.1.2 DONE yes\nLa la.\n>\n",
    ),
    ("XY", "What?\n>\n"),
    ("~", ""),
    ("LOOK", "0.0.0 DESC yes\nHall.\n>\n"),
];

#[test]
fn a_trace_shows_the_steps_of_each_piece(rt: HostRuntime) -> Result<(), Fail> {
    let alloc = rt.alloc();
    let mut lines = String::new(alloc);
    let mut shown = String::from_str(alloc, FIRST)?;
    for &(line, piece) in &TRACED {
        lines.push_str(line)?;
        lines.push_str("\n")?;
        shown.push_str(piece)?;
    }
    let mut stage = stage_of(alloc, &TWO_ROOMS, lines.as_str())?;
    let outcome = settle_and_run(&rt, alloc, &mut stage, TRACE)?;
    let wanted = (Outcome::InputEnded, shown.as_bytes());
    compare(&rt, (outcome, stage.shown()), wanted, TRACE);
    Ok(())
}

#[test]
fn a_trace_of_a_piece_that_never_ends_is_spent(rt: HostRuntime) -> Result<(), Fail> {
    let spent = Case {
        words: TRACE,
        ..refusal("no text", &SILENT, Outcome::Spent(SpentKind::Condacts))
    };
    comes_so(&rt, rt.alloc(), &spent)
}

#[test]
fn a_seed_counts_by_its_value(rt: HostRuntime) -> Result<(), Fail> {
    let alloc = rt.alloc();
    for words in [
        "walk\ngame\n0",
        "walk\ngame\n00000000000000000007",
        "walk\ngame\n18446744073709551615",
    ] {
        let case = Case {
            name: words,
            image: &TWO_ROOMS,
            words,
            outcome: Outcome::InputEnded,
            shown: "Hall.\n>\nYard.\n>\n",
            next: Asked::End,
        };
        comes_so(&rt, alloc, &case)?;
    }
    let missing = Case {
        words: "walk\nmissing\n7",
        ..refusal(
            "no such file",
            &TWO_ROOMS,
            Outcome::Outside(StageCall::LoadAbsent),
        )
    };
    comes_so(&rt, alloc, &missing)
}

/// The lines of a walk of which one call fails, and the number of that; how the walk ends, what is shown then, and what
/// is asked for next.
#[derive(Clone, Copy)]
struct Failing<'a>(&'a str, u64, Outcome, &'a str, Asked);

// Checks that the walk ends so.
fn fails_so(rt: &impl Abort, alloc: Global, row: Failing<'_>) -> Result<(), Fail> {
    let Failing(lines, call, outcome, shown, next) = row;
    let mut settled = stage_of(alloc, &TWO_ROOMS, lines)?;
    settle(rt, &mut settled);
    let mut stage = FailStage::new(settled, [call].to_vec(alloc)?);
    let came = run(alloc, &mut stage, WALK)?;
    let wanted = (outcome, shown.as_bytes());
    compare(rt, (came, stage.inner().shown()), wanted, lines);
    asks_for(rt, &mut stage, next);
    Ok(())
}

/// The calls that fail while the first room is shown, and then the second.
static FAILURES: [Failing<'static>; 9] = [
    Failing("N\nLOOK", 0, LOAD, "", Asked::Line(1)),
    Failing("N\nLOOK", 1, SHOW, "", Asked::Line(1)),
    Failing("N\nLOOK", 2, ASK, FIRST, Asked::Line(1)),
    Failing("N\nLOOK", 3, SHOW, FIRST, Asked::Line(4)),
    Failing("N\nLOOK", 4, ASK, BOTH, Asked::Line(4)),
    Failing("N\nLOOK", 5, SHOW, BOTH, Asked::End),
    Failing("N", 4, ASK, BOTH, Asked::End),
    Failing("N", 5, Outcome::InputEnded, BOTH, Asked::Failed),
    // An empty piece makes no call.
    Failing("~\nN", 3, ASK, FIRST, Asked::Line(1)),
];

const LOAD: Outcome = Outcome::Outside(StageCall::Load);

const ASK: Outcome = Outcome::Outside(StageCall::Ask);

const SHOW: Outcome = Outcome::Outside(StageCall::Show);

/// What is shown of both rooms.
const BOTH: &str = "Hall.\n>\nYard.\n>\n";

#[test]
fn a_call_that_fails_ends_the_walk(rt: HostRuntime) -> Result<(), Fail> {
    for &row in &FAILURES {
        fails_so(&rt, rt.alloc(), row)?;
    }
    Ok(())
}
