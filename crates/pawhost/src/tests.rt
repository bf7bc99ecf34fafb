// Hosting over stages in memory. These tests stand here, where few functions are proved once more with them.

ghost use Rattle.paw_stage.specs.Disk.{IsStable};

use crate::tests::images::{HALL, OTHER};
use paw_host::host::host;
use paw_host::outcome::HostOutcome;
use paw_routines::program::{ROUTINES, give};
use paw_routines::routines::Routines;
use paw_stage::{CallKind, FailStage, MemoryStage, Stage, StageCall, StopStage};
use std::alloc::{AllocError, Global};
use std::process::Abort;
use std::test::Fail;

mod images;

/// What is shown before the first line in the hall, and what GET LAMP and I bring there.
const FIRST: &str = "A hall.\nI can also see:\nlamp\nsword\nbag\nWhat now?\n> ";

const TAKES: &str = "I take the lamp.\nWhat now?\n> ";

const HAS: &str = "I have:\nlamp\ncoat\nWhat now?\n> ";

/// More bytes than any file here has.
const MOST: usize = 200_000;

// Syncs the attached store, if there is one, so that the host may begin.
fn settle<S: Stage>(rt: &impl Abort, stage: &mut S)
    ensures synced { S.Tells stage.new → IsStable (S.standing stage.new).disk }
{
    assert!(rt; stage.sync().is_ok());
}

// How hosting with these words ends, with the program's routines, where nothing is unsynced.
fn host_words<S: Stage>(
    alloc: Global,
    stage: &mut S,
    words: &[&str],
) -> Result<HostOutcome, AllocError>
    requires synced { S.Tells stage.old → IsStable (S.standing stage.old).disk }
{
    let mut owned = Vec::new(alloc);
    for word in words {
        owned.push(String::from_str(alloc, word)?)?;
    }
    let routines = Routines::new(ROUTINES, give);
    Ok(host(alloc, stage, &routines, owned.as_slice()))
}

// Hosts the hall.
fn run<S: Stage>(rt: &impl Abort, alloc: Global, stage: &mut S) -> Result<HostOutcome, AllocError> {
    settle(rt, stage);
    host_words(alloc, stage, &["hall", "7"])
}

// A stage with both games and these lines.
fn stage_of(alloc: Global, lines: &[&[u8]]) -> Result<MemoryStage, Fail> {
    let mut stage = MemoryStage::new(alloc, 400, 8_000_000)?;
    stage.add_file("hall", HALL)?;
    stage.add_file("other", OTHER)?;
    for line in lines {
        stage.add_line(alloc, line)?;
    }
    Ok(stage)
}

// The text of replies: names and bodies, one after the other.
fn replies(alloc: Global, all: &[(&str, &str)]) -> Result<String, AllocError> {
    let mut text = String::new(alloc);
    for (name, body) in all {
        for part in ["[", name, "]\n", body, "\n"] {
            text.push_str(part)?;
        }
    }
    Ok(text)
}

// Checks that these lines get these replies, after what was shown before.
fn shows(
    rt: &impl Abort,
    alloc: Global,
    stage: &mut MemoryStage,
    lines: &[&[u8]],
    all: &[(&str, &str)],
) -> Result<(), Fail> {
    let before = stage.shown().len();
    for line in lines {
        stage.add_line(alloc, line)?;
    }
    assert_eq!(rt; run(rt, alloc, stage)?, HostOutcome::InputEnded);
    let wanted = replies(alloc, all)?;
    assert_eq!(rt;
        &stage.shown()[before.min(stage.shown().len())..],
        wanted.as_bytes()
    );
    Ok(())
}

/// Lines of two players, and their replies; and what comes once they are there.
static FIRST_LINES: [&[u8]; 4] = [b"ann GET LAMP", b"bob", b"bob LOOK", b"ann I"];

static FIRST_REPLIES: [(&str, &str); 4] = [
    (
        "ann",
        "A hall.\nI can also see:\nlamp\nsword\nbag\nWhat now?\n> I take the lamp.\nWhat now?\n> ",
    ),
    ("bob", FIRST),
    ("bob", FIRST),
    ("ann", HAS),
];

static LATER_LINES: [&[u8]; 5] = [b"ann DEEP", b"ann WAIT", b"Ann X", b"bob", b"ann"];

static LATER_REPLIES: [(&str, &str); 5] = [
    ("ann", "too deep"),
    ("ann", "OK.\nWhat now?\n> "),
    ("", "bad line"),
    ("bob", FIRST),
    ("ann", "OK.\nWhat now?\n> "),
];

#[test]
fn each_player_plays_as_if_alone(rt: HostRuntime) -> Result<(), Fail> {
    let alloc = rt.alloc();
    let mut stage = stage_of(alloc, &[])?;
    shows(&rt, alloc, &mut stage, &FIRST_LINES, &FIRST_REPLIES)?;
    shows(&rt, alloc, &mut stage, &LATER_LINES, &LATER_REPLIES)
}

/// The lines of a player whose session ends, and their replies.
static LAST_LINES: [&[u8]; 6] = [
    b"ann",
    b"ann QUIT",
    b"ann y",
    b"ann no",
    b"ann LOOK",
    b"ann",
];

static LAST_REPLIES: [(&str, &str); 6] = [
    ("ann", FIRST),
    ("ann", "Are you sure? "),
    ("ann", "Another go? "),
    ("ann", "Goodbye.\n"),
    ("ann", "over"),
    ("ann", "Goodbye.\n"),
];

#[test]
fn a_session_that_is_over_takes_no_text(rt: HostRuntime) -> Result<(), Fail> {
    let alloc = rt.alloc();
    let mut stage = stage_of(alloc, &[])?;
    shows(&rt, alloc, &mut stage, &LAST_LINES, &LAST_REPLIES)
}

/// Lines of another form than a name, and a text after a space.
static OF_ANOTHER_FORM: [&[u8]; 12] = [
    b"",
    b" ",
    b" ann",
    b"Ann",
    b"an.n",
    b"../ann",
    b"ann/x LOOK",
    b"abcdefghijklmnopq",
    b"abcdefghijklmnopq LOOK",
    b"ann\x00 LOOK",
    b"\xc3\xa4nn",
    &[b'a'; 300],
];

// Checks that a line is called bad, and attaches nothing.
fn is_bad(rt: &impl Abort, alloc: Global, line: &[u8]) -> Result<(), Fail> {
    let mut stage = stage_of(alloc, &[line])?;
    assert_eq!(rt; run(rt, alloc, &mut stage)?, HostOutcome::InputEnded);
    assert_eq!(rt; stage.shown(), b"[]\nbad line\n".as_slice());
    // The sync before, the load, the line, the show, and the end: no store.
    assert_eq!(rt; stage.calls(), 5);
    Ok(())
}

#[test]
fn lines_of_another_form_attach_nothing(rt: HostRuntime) -> Result<(), Fail> {
    for &line in &OF_ANOTHER_FORM {
        is_bad(&rt, rt.alloc(), line)?;
    }
    Ok(())
}

/// Lines of players whose names are as long and as short as may be, and their replies.
static NAMED_LINES: [&[u8]; 3] = [b"abcdefghijklmno0 ", b"abcdefghijklmno0", b"9  LOOK"];

static NAMED_REPLIES: [(&str, &str); 3] = [
    (
        "abcdefghijklmno0",
        "A hall.\nI can also see:\nlamp\nsword\nbag\nWhat now?\n> What now?\n> ",
    ),
    ("abcdefghijklmno0", "What now?\n> "),
    (
        "9",
        "A hall.\nI can also see:\nlamp\nsword\nbag\nWhat now?\n> A hall.\nI can also see:\nlamp\nsword\nbag\nWhat now?\n> ",
    ),
];

#[test]
fn names_and_texts_are_split_at_the_first_space(rt: HostRuntime) -> Result<(), Fail> {
    let alloc = rt.alloc();
    let mut stage = stage_of(alloc, &[])?;
    shows(&rt, alloc, &mut stage, &NAMED_LINES, &NAMED_REPLIES)
}

/// The lines of a player whose store is refused.
static EVE: [&[u8]; 2] = [b"eve", b"eve LOOK"];

// Checks that her store has these bytes, and that none was written.
fn is_untouched(
    rt: &impl Abort,
    alloc: Global,
    stage: &mut MemoryStage,
    bytes: &[u8],
) -> Result<(), Fail> {
    assert_eq!(rt; stage.written(), 0);
    let left = stage.load(alloc, "eve.paw", MOST)?;
    assert_eq!(rt; left.as_slice(), bytes);
    Ok(())
}

// Checks that a store with these bytes is refused, and left as it was.
fn refuses(rt: &impl Abort, alloc: Global, bytes: &[u8]) -> Result<(), Fail> {
    let mut stage = stage_of(alloc, &EVE)?;
    stage.add_file("eve.paw", bytes)?;
    assert_eq!(rt; run(rt, alloc, &mut stage)?, HostOutcome::InputEnded);
    assert_eq!(rt;
        stage.shown(),
        b"[eve]\nrefused\n[eve]\nrefused\n".as_slice()
    );
    is_untouched(rt, alloc, &mut stage, bytes)
}

// The session of a player after these lines.
fn session_after(
    rt: &impl Abort,
    alloc: Global,
    image: &str,
    lines: &[&[u8]],
) -> Result<Vec<u8>, Fail> {
    let mut stage = stage_of(alloc, lines)?;
    settle(rt, &mut stage);
    let outcome = host_words(alloc, &mut stage, &[image, "7"])?;
    assert_eq!(rt; outcome, HostOutcome::InputEnded);
    Ok(stage.load(alloc, "ann.paw", MOST)?)
}

// These bytes with another one at a place.
fn with_byte(alloc: Global, bytes: &[u8], place: usize, byte: u8) -> Result<Vec<u8>, AllocError> {
    let mut changed = bytes.to_vec(alloc)?;
    if let Some(spot) = changed.as_mut_slice().get_mut(place) {
        *spot = byte;
    }
    Ok(changed)
}

/// A byte of the mark, the version, the digests of the game and of the routines, and the place of an object.
static SPOILT: [(usize, u8); 5] = [(0, 0), (2, 3), (32, 1), (64, 1), (448, 200)];

// Checks that a session with another byte at a place is refused.
fn refuses_with(
    rt: &impl Abort,
    alloc: Global,
    good: &[u8],
    (place, byte): (usize, u8),
) -> Result<(), Fail> {
    let bad = with_byte(alloc, good, place, byte)?;
    refuses(rt, alloc, bad.as_slice())
}

#[test]
fn stores_that_give_no_session_are_refused(rt: HostRuntime) -> Result<(), Fail> {
    let alloc = rt.alloc();
    refuses(&rt, alloc, b"x")?;
    let other = session_after(&rt, alloc, "other", &[b"ann"])?;
    refuses(&rt, alloc, other.as_slice())?;
    let good = session_after(&rt, alloc, "hall", &[b"ann"])?;
    for &spoilt in &SPOILT {
        refuses_with(&rt, alloc, good.as_slice(), spoilt)?;
    }
    Ok(())
}

#[test]
fn the_slot_that_is_not_in_use_may_hold_anything(rt: HostRuntime) -> Result<(), Fail> {
    let alloc = rt.alloc();
    let good = session_after(&rt, alloc, "hall", &[b"ann"])?;
    let spoilt = with_byte(alloc, good.as_slice(), 86_528, 200)?;
    let body = answer_of(&rt, alloc, spoilt.as_slice())?;
    assert_eq!(rt; body.as_slice(), FIRST.as_bytes());
    Ok(())
}

/// The words of a host, its outcome, and its status.
static FORMS: [(&[&str], HostOutcome, u8); 9] = [
    (&[], HostOutcome::Usage, 1),
    (&["hall"], HostOutcome::Usage, 1),
    (&["", "7"], HostOutcome::Usage, 1),
    (&["hall", "x"], HostOutcome::Usage, 1),
    (&["hall", "+7"], HostOutcome::Usage, 1),
    (&["hall", "18446744073709551616"], HostOutcome::Usage, 1),
    (&["hall", "7", "8"], HostOutcome::Usage, 1),
    (
        &["none", "7"],
        HostOutcome::Outside(StageCall::LoadAbsent),
        7,
    ),
    (&["ann.paw", "7"], HostOutcome::ImageDamaged { at: 0 }, 3),
];

// Checks how hosting with these words ends, and that it shows nothing.
fn ends_by(
    rt: &impl Abort,
    alloc: Global,
    (words, wanted, status): (&[&str], HostOutcome, u8),
) -> Result<(), Fail> {
    let mut stage = stage_of(alloc, &[b"ann"])?;
    stage.add_file("ann.paw", b"x")?;
    settle(rt, &mut stage);
    let outcome = host_words(alloc, &mut stage, words)?;
    assert_eq!(rt; (outcome, outcome.status()), (wanted, status));
    assert!(rt; stage.shown().is_empty());
    Ok(())
}

#[test]
fn words_and_images(rt: HostRuntime) -> Result<(), Fail> {
    for &form in &FORMS {
        ends_by(&rt, rt.alloc(), form)?;
    }
    Ok(())
}

/// The lines of two players, between which calls stop; what each is answered once they are all taken.
static LINES: [&[u8]; 4] = [b"ann GET LAMP", b"bob", b"ann I", b"bob GET LAMP"];

// What a player may be answered after this number of these lines.
fn pieces(name: &[u8], taken: usize) -> &'static str {
    match (name, taken) {
        (b"ann.paw", 0) | (b"bob.paw", 0 | 1) => "",
        (b"ann.paw", 1 | 2) => TAKES,
        (b"ann.paw", _) => HAS,
        (_, 4) => TAKES,
        _ => FIRST,
    }
}

// The answer that these bytes of a player's store give.
fn answer_of(rt: &impl Abort, alloc: Global, bytes: &[u8]) -> Result<Vec<u8>, Fail> {
    let mut stage = stage_of(alloc, &[b"eve"])?;
    stage.add_file("eve.paw", bytes)?;
    assert_eq!(rt; run(rt, alloc, &mut stage)?, HostOutcome::InputEnded);
    let shown = stage.shown();
    assert!(rt; shown.starts_with(b"[eve]\n") && shown.ends_with(b"\n"));
    let body = shown.get(6..shown.len().saturating_sub(1));
    Ok(body.unwrap_or(b"").to_vec(alloc)?)
}

// Whether a crash may leave a store that gives this answer while this line of a player is being answered: as before it,
// as after it, or, where the line makes the session, refused, or at its first prompt.
fn may_be(name: &[u8], taken: usize, body: &[u8]) -> bool {
    let before = pieces(name, taken.saturating_sub(1));
    let after = pieces(name, taken);
    body == before.as_bytes()
        || body == after.as_bytes()
        || body == FIRST.as_bytes() && before.is_empty()
        || body == b"refused".as_slice() && before.is_empty()
}

/// A call of a run over the lines of the two players: its number, whose store is attached then, and how many lines are
/// taken.
#[derive(Clone, Copy)]
struct Behind<'a> {
    call: u64,
    name: &'a [u8],
    taken: usize,
}

// Checks what a crash right after a call leaves, by each pick.
fn crash_loses_no_turn(
    rt: &impl Abort,
    alloc: Global,
    stage: &MemoryStage,
    behind: Behind<'_>,
) -> Result<(), Fail> {
    for pick in 0..3u8 {
        if let Some(left) = stage.crash_after(alloc, behind.call, pick)? {
            let body = answer_of(rt, alloc, left.as_slice())?;
            assert!(rt;
                may_be(behind.name, behind.taken, body.as_slice()),
                "{} {pick}",
                behind.call
            );
        }
    }
    Ok(())
}

// Checks the calls of a run one after the other, and gives their number.
fn crashes_lose_no_turn(rt: &impl Abort, alloc: Global, stage: &MemoryStage) -> Result<u64, Fail> {
    let mut name = b"".as_slice();
    let mut taken = 0usize;
    let mut call = 0u64;
    for number in 0..400 {
        let Some((kind, named)) = stage.call(number) else {
            return Ok(call);
        };
        if kind == CallKind::Add {
            continue;
        }
        if kind == CallKind::Attach {
            name = named;
        }
        // Between a line that is taken and its attach, the store of the line before it is attached.
        let behind = Behind { call, name, taken };
        crash_loses_no_turn(rt, alloc, stage, behind)?;
        taken = taken.saturating_add(usize::from(kind == CallKind::Take));
        call = call.saturating_add(1);
    }
    Ok(call)
}

#[test]
fn a_crash_behind_any_call_loses_no_turn(rt: HostRuntime) -> Result<(), Fail> {
    let alloc = rt.alloc();
    let mut stage = stage_of(alloc, &LINES)?;
    assert_eq!(rt; run(&rt, alloc, &mut stage)?, HostOutcome::InputEnded);
    let calls = crashes_lose_no_turn(&rt, alloc, &stage)?;
    assert_eq!(rt; stage.calls(), calls);
    Ok(())
}

// How many replies begin in what was shown: each begins with a name in brackets, which ends a line.
fn replies_in(shown: &[u8]) -> usize {
    let mut replies = 0usize;
    for pair in shown.windows(2) {
        replies = replies.saturating_add(usize::from(pair == b"]\n".as_slice()));
    }
    replies
}

// A player's line of its own, over what a run with this number of replies left of the store, is answered as after as
// many lines, or as after one more.
fn left_over<S: Stage>(
    rt: &impl Abort,
    alloc: Global,
    stage: &mut S,
    name: &str,
    replies: usize,
) -> Result<(), Fail> {
    let taken = LINES.len().min(replies);
    let left = match stage.load(alloc, name, MOST) {
        Ok(left) => left,
        Err(_) => Vec::new(alloc),
    };
    let body = answer_of(rt, alloc, left.as_slice())?;
    let fresh = left.is_empty() && body.as_slice() == FIRST.as_bytes();
    let after = (taken + 1).min(LINES.len());
    assert!(rt;
        fresh
            || may_be(name.as_bytes(), taken, body.as_slice())
            || may_be(name.as_bytes(), after, body.as_slice()),
        "{name} {taken}"
    );
    Ok(())
}

// Checks that a run that stops at a call has shown a part of what the whole one shows.
fn call_stops(rt: &impl Abort, alloc: Global, number: u64, whole: &[u8]) -> Result<(), Fail> {
    let mut stage = StopStage::new(stage_of(alloc, &LINES)?, number);
    let outcome = run(rt, alloc, &mut stage)?;
    assert!(rt; matches!(outcome, HostOutcome::Outside(_)));
    assert!(rt; whole.starts_with(stage.inner().shown()));
    Ok(())
}

// The same of a run in which this call alone fails; and each player goes on over what it leaves.
fn call_fails(rt: &impl Abort, alloc: Global, number: u64, whole: &[u8]) -> Result<(), Fail> {
    let mut stage = FailStage::new(stage_of(alloc, &LINES)?, [number].to_vec(alloc)?);
    let outcome = run(rt, alloc, &mut stage)?;
    assert!(rt; matches!(outcome, HostOutcome::Outside(_)));
    let shown = stage.inner().shown();
    assert!(rt; whole.starts_with(shown));
    let replies = replies_in(shown);
    left_over(rt, alloc, &mut stage, "ann.paw", replies)?;
    left_over(rt, alloc, &mut stage, "bob.paw", replies)
}

#[test]
fn each_call_stops_and_fails_alone(rt: HostRuntime) -> Result<(), Fail> {
    let alloc = rt.alloc();
    let mut whole = stage_of(alloc, &LINES)?;
    assert_eq!(rt; run(&rt, alloc, &mut whole)?, HostOutcome::InputEnded);
    // The first call of all is the sync before, which may not fail.
    for number in 1..whole.calls() {
        call_stops(&rt, alloc, number, whole.shown())?;
        call_fails(&rt, alloc, number, whole.shown())?;
    }
    Ok(())
}
