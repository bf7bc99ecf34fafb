// Sources that are compiled and images that are decompiled, over stages in memory, and each way in which one is
// refused.

use crate::outcome::Outcome;
use crate::tests::running::{compare, run, settle, settle_and_run};
use paw_base::fault::{SourceFault, SourceKind};
use paw_stage::{Asked, FailStage, MemoryStage, Stage, StageCall};
use std::alloc::{AllocError, Global};
use std::process::Abort;
use std::test::Fail;

/// One location with no text.
pub(crate) const SMALLEST: &str =
    "/VOC\n/STX\n/MTX\n/OTX\n/LTX\n/0\n/CON\n/OBJ\n/PRO 0\n/PRO 1\n/PRO 2\n";

/// The image of that.
const SMALLEST_IMAGE: [u8; 26] = [
    80, 65, 87, 73, 1, 0, 0, 0, 0, 0, 0, 0, 0, 1, 0, 3, 0, 0, 0, 0, 0, 0, 0, 0, 0, 0,
];

/// A lamp in a cave, with words that mean the same, and one of seven letters.
pub(crate) const LANTERN: &str =
    "/VOC\nTAKE 30 verb\nGET 30 verb\nLANTERN 50 noun\nLAMP 50 noun\n/STX\n/MTX\n/0\nTaken.\n/OTX\n\
/0\na lamp\n/LTX\n/0\nA cave.\n/CON\n/OBJ\n0 0 1 - LANTERN _\n/PRO 0\ntake lantern MESSAGE 0 DONE\n\
/PRO 1\n/PRO 2\n";

/// The canonical source of the same game.
pub(crate) const LANTERN_CANONICAL: &str =
    "/VOC\nGET 30 verb\nLAMP 50 noun\nLANTE 50 noun\nTAKE 30 verb\n/STX\n/MTX\n/0\nTaken.\n/OTX\n\
/0\na lamp\n/LTX\n/0\nA cave.\n/CON\n/OBJ\n0 0 1 - LAMP _\n/PRO 0\nGET LAMP\n MESSAGE 0\n DONE\n\
/PRO 1\n/PRO 2\n";

/// The same game with notes, its words in another order, other line ends, and bytes after the end of the text.
const LANTERN_OTHERWISE: &str =
    "; note\r\n/VOC\r\nTAKE 30 verb\r\n; note\r\nLANTE 50 noun\r\nLAMP 50 noun\r\nGET 30 verb\r\n\
/STX\r\n/MTX\r\n/0\r\nTaken.\r\n/OTX\r\n/0\r\na lamp\r\n/LTX\r\n/0\r\nA cave.\r\n/CON\r\n/OBJ\r\n\
0 0 1 - LAMP _\r\n/PRO 0\r\n; note\r\nGET LAMP\r\n MESSAGE 0\r\n DONE\r\n/PRO 1\r\n/PRO 2\r\n\
\u{1a}junk";

/// The image of all three.
const LANTERN_IMAGE: [u8; 87] = [
    80, 65, 87, 73, 1, 4, 0, 0, 0, 1, 0, 1, 0, 1, 0, 3, 0, 71, 69, 84, 32, 32, 30, 0, 76, 65, 77,
    80, 32, 50, 2, 76, 65, 78, 84, 69, 50, 2, 84, 65, 75, 69, 32, 30, 0, 6, 0, 84, 97, 107, 101,
    110, 46, 6, 0, 97, 32, 108, 97, 109, 112, 50, 255, 0, 1, 7, 0, 65, 32, 99, 97, 118, 101, 46, 0,
    1, 0, 30, 50, 2, 51, 0, 32, 0, 0, 0, 0,
];

/// Three messages, with 2 in line 14.
const THREE_MESSAGES: &str =
    "/VOC\n/STX\n/MTX\n/0\n/1\n/2\n/OTX\n/LTX\n/0\n/CON\n/OBJ\n/PRO 0\n_ _ MES 2\n_ _ MES 2\n/PRO 1\n/PRO 2\n";

/// The words that compile the file `source`.
const COMPILE: &str = "compile\nsource\nimage";

/// The words that decompile the file `image`.
const DECOMPILE: &str = "decompile\nimage";

/// A command over the files `source` and `image`, and how it ends.
#[derive(Clone, Copy)]
struct Case<'a> {
    name: &'a str,
    source: &'a [u8],
    image: &'a [u8],
    words: &'a str,
    outcome: Outcome,
    shown: &'a [u8],
    /// The file `image` afterwards.
    after: &'a [u8],
}

// A stage with the files of a case, another that nobody names, and a line.
fn stage_of(alloc: Global, case: &Case<'_>) -> Result<MemoryStage, Fail> {
    let mut stage = MemoryStage::new(alloc, 100, 10_000)?;
    stage.add_file("source", case.source)?;
    stage.add_file("image", case.image)?;
    stage.add_file("other", b"as it was")?;
    stage.add_line(alloc, b"N")?;
    Ok(stage)
}

// Checks that a file has these bytes.
fn file_is<S: Stage>(
    rt: &impl Abort,
    alloc: Global,
    stage: &mut S,
    file: &str,
    bytes: &[u8],
) -> Result<(), Fail> {
    let found = stage.load(alloc, file, 999)?;
    assert_eq!(rt; found.as_slice(), bytes, "{file}");
    Ok(())
}

// Checks that the files are as the case says, no line was asked for, and no file was made.
fn is_left_so<S: Stage>(
    rt: &impl Abort,
    alloc: Global,
    stage: &mut S,
    case: &Case<'_>,
) -> Result<(), Fail> {
    file_is(rt, alloc, stage, "source", case.source)?;
    file_is(rt, alloc, stage, "image", case.after)?;
    file_is(rt, alloc, stage, "other", b"as it was")?;
    assert!(rt; stage.load(alloc, "missing", 999).is_err());
    let mut line = [0u8; 255];
    assert_eq!(rt; stage.ask(&mut line), Asked::Line(1), "{}", case.name);
    Ok(())
}

// Checks that the command ends as the case says.
fn comes_so(rt: &impl Abort, alloc: Global, case: &Case<'_>) -> Result<(), Fail> {
    let mut stage = stage_of(alloc, case)?;
    let outcome = settle_and_run(rt, alloc, &mut stage, case.words)?;
    let wanted = (case.outcome, case.shown);
    compare(rt, (outcome, stage.shown()), wanted, case.name);
    is_left_so(rt, alloc, &mut stage, case)
}

// A source that is compiled over another file.
fn compile_case<'a>(name: &'a str, source: &'a [u8], shown: &'a [u8], after: &'a [u8]) -> Case<'a> {
    Case {
        name,
        source,
        image: b"as it was",
        words: COMPILE,
        outcome: Outcome::Done,
        shown,
        after,
    }
}

// An image that is decompiled.
fn decompile_case<'a>(name: &'a str, image: &'a [u8], shown: &'a [u8]) -> Case<'a> {
    Case {
        name,
        source: b"as it was",
        image,
        words: DECOMPILE,
        outcome: Outcome::Done,
        shown,
        after: image,
    }
}

// The same case, where the command is refused and nothing is shown or saved.
fn refused_case<'a>(case: Case<'a>, outcome: Outcome) -> Case<'a> {
    Case {
        outcome,
        shown: b"",
        after: case.image,
        ..case
    }
}

/// Sources: a name, the text, what a compile of it shows, and its image.
static COMPILED: [(&str, &str, &[u8], &[u8]); 4] = [
    (
        "the smallest",
        SMALLEST,
        b"IMAGE 26 BYTES\n",
        &SMALLEST_IMAGE,
    ),
    ("a lantern", LANTERN, b"IMAGE 87 BYTES\n", &LANTERN_IMAGE),
    (
        "written otherwise",
        LANTERN_OTHERWISE,
        b"IMAGE 87 BYTES\n",
        &LANTERN_IMAGE,
    ),
    (
        "as it is shown",
        LANTERN_CANONICAL,
        b"IMAGE 87 BYTES\n",
        &LANTERN_IMAGE,
    ),
];

#[test]
fn sources_are_compiled(rt: HostRuntime) -> Result<(), Fail> {
    let alloc = rt.alloc();
    for &(name, source, shown, image) in &COMPILED {
        let case = compile_case(name, source.as_bytes(), shown, image);
        comes_so(&rt, alloc, &case)?;
    }
    Ok(())
}

/// Images: a name, the bytes, and the text that they are shown as.
static DECOMPILED: [(&str, &[u8], &str); 2] = [
    ("the smallest", &SMALLEST_IMAGE, SMALLEST),
    ("a lantern", &LANTERN_IMAGE, LANTERN_CANONICAL),
];

#[test]
fn images_are_decompiled(rt: HostRuntime) -> Result<(), Fail> {
    let alloc = rt.alloc();
    for &(name, image, text) in &DECOMPILED {
        let case = decompile_case(name, image, text.as_bytes());
        comes_so(&rt, alloc, &case)?;
    }
    for (name, image, at) in [
        ("no byte", b"".as_slice(), 0),
        ("without its last byte", &LANTERN_IMAGE[..86], 85),
        ("a source", LANTERN.as_bytes(), 0),
    ] {
        let case = decompile_case(name, image, b"");
        comes_so(
            &rt,
            alloc,
            &refused_case(case, Outcome::ImageDamaged { at }),
        )?;
    }
    Ok(())
}

// The source with three messages, with one line in another form; None leaves it out.
fn three_messages_with(
    alloc: Global,
    number: usize,
    other: Option<&str>,
) -> Result<String, AllocError> {
    let mut source = String::new(alloc);
    for (before, line) in THREE_MESSAGES.lines().enumerate() {
        let line = if before + 1 == number {
            other
        } else {
            Some(line)
        };
        if let Some(line) = line {
            source.push_str(line)?;
            source.push_str("\n")?;
        }
    }
    Ok(source)
}

// Checks that the source is refused with this line in another form, by its number and this kind.
fn is_refused(
    rt: &impl Abort,
    alloc: Global,
    (line, other, kind): (u32, Option<&str>, SourceKind),
) -> Result<(), Fail> {
    let source = three_messages_with(alloc, line as usize, other)?;
    let fault = SourceFault { line, kind };
    let case = compile_case(other.unwrap_or("left out"), source.as_bytes(), b"", b"");
    comes_so(
        rt,
        alloc,
        &refused_case(case, Outcome::SourceRefused(fault)),
    )
}

/// The number of a line, what stands there instead, and the kind of the fault.
static REFUSALS: [(u32, Option<&str>, SourceKind); 9] = [
    (14, Some("_ _ MES 3"), SourceKind::Range),
    (14, Some("_ _ MES"), SourceKind::Missing),
    (14, Some("_ _ MES x"), SourceKind::Number),
    (14, Some("_ _ MUS 2"), SourceKind::Condact),
    (14, Some("_ _ DONE 2"), SourceKind::Condact),
    (14, Some("FOO _ MES 2"), SourceKind::Word),
    (2, Some("/MTX"), SourceKind::Section),
    (4, Some("/1"), SourceKind::Range),
    (16, None, SourceKind::Missing),
];

#[test]
fn sources_are_refused_by_line_and_kind(rt: HostRuntime) -> Result<(), Fail> {
    let alloc = rt.alloc();
    for &row in &REFUSALS {
        is_refused(&rt, alloc, row)?;
    }
    Ok(())
}

#[test]
fn a_condact_line_has_two_forms(rt: HostRuntime) -> Result<(), Fail> {
    let alloc = rt.alloc();
    for line in ["_ _ MES 2 ; note", " MES 2"] {
        let source = three_messages_with(alloc, 14, Some(line))?;
        let mut stage = MemoryStage::new(alloc, 100, 10_000)?;
        stage.add_file("source", source.as_bytes())?;
        let outcome = settle_and_run(&rt, alloc, &mut stage, COMPILE)?;
        assert_eq!(rt; outcome, Outcome::Done, "{line}");
    }
    Ok(())
}

// Checks that a command ends where this call fails, and leaves the files as the case says.
fn ends_in(
    rt: &impl Abort,
    alloc: Global,
    case: &Case<'_>,
    (call, failed): (u64, StageCall),
) -> Result<(), Fail> {
    let mut settled = stage_of(alloc, case)?;
    settle(rt, &mut settled);
    let mut stage = FailStage::new(settled, [call].to_vec(alloc)?);
    let came = run(alloc, &mut stage, case.words)?;
    let wanted = (Outcome::Outside(failed), b"".as_slice());
    compare(rt, (came, stage.inner().shown()), wanted, case.name);
    is_left_so(rt, alloc, &mut stage, case)
}

#[test]
fn a_call_that_fails_ends_the_command(rt: HostRuntime) -> Result<(), Fail> {
    let alloc = rt.alloc();
    let compile = compile_case("compile", SMALLEST.as_bytes(), b"", &SMALLEST_IMAGE);
    let decompile = decompile_case("decompile", &SMALLEST_IMAGE, b"");
    for (case, call, failed) in [
        (refused_case(compile, Outcome::Done), 0, StageCall::Load),
        (refused_case(compile, Outcome::Done), 1, StageCall::Save),
        (compile, 2, StageCall::Show),
        (decompile, 0, StageCall::Load),
        (decompile, 1, StageCall::Show),
    ] {
        ends_in(&rt, alloc, &case, (call, failed))?;
    }
    Ok(())
}

#[test]
fn a_missing_file_is_named(rt: HostRuntime) -> Result<(), Fail> {
    let alloc = rt.alloc();
    let absent = Outcome::Outside(StageCall::LoadAbsent);
    for words in ["compile\nmissing\nimage", "decompile\nmissing"] {
        let case = compile_case(words, b"", b"", b"");
        comes_so(&rt, alloc, &refused_case(Case { words, ..case }, absent))?;
    }
    Ok(())
}
