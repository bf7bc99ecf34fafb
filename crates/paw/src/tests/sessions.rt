// Sessions over stages in memory: rounds of one session, stores that give none, and calls that fail.

use crate::tests::running::{compare, run, settle, settle_and_run, settle_and_run_with_none};
use paw_base::fault::NoRoom;
use paw_journal::{SessionPart, digest};
use paw_stage::{FailStage, MemoryStage, Stage, StageCall};
use paw_top::outcome::Outcome;
use std::alloc::Global;
use std::process::Abort;
use std::test::Fail;

/// A hall with a lamp and a sword. SHAKE ALL asks for each of them, in a called table; TWIST ALL waits for a key for
/// each; ROLL prints a random number; DEEP calls a table that calls itself.
const HALL: &str =
    "/VOC\nALL 20 noun\nLAMP 50 noun\nSWORD 51 noun\nSHAKE 30 verb\nTWIST 31 verb\nWAIT 32 verb\n\
QUIT 33 verb\nROLL 34 verb\nDEEP 35 verb\n/STX\n/0\n/1\n/2\n>\n/3\n/4\n/5\n/6\nWhat?\n/7\nNo way.\n\
/8\nNo.\n/9\n/10\n/11\n/12\nSure? \n/13\nAgain? \n/14\nBye.\n/15\nOK.\n/16\nKey. \n/MTX\n/0\nDone.\n\
/OTX\n/0\nlamp\n/1\nsword\n/LTX\n/0\nHall.\n/CON\n/OBJ\n0 0 1 - LAMP _\n1 0 1 - SWORD _\n/PRO 0\n\
SHAKE ALL DOALL HERE\nSHAKE _ PROCESS 3 DONE\nTWIST ALL DOALL HERE\nTWIST _ ANYKEY MESSAGE 0 DONE\n\
WAIT _ OK\nQUIT _ QUIT END\nROLL _ CHANCE 50 MESSAGE 0 DONE\nROLL _ OK\nDEEP _ PROCESS 4\n/PRO 1\n\
/PRO 2\n/PRO 3\n_ _ QUIT MESSAGE 0\n/PRO 4\n_ _ PROCESS 4\n";

/// Another game.
const CAVE: &str =
    "/VOC\n/STX\n/MTX\n/OTX\n/LTX\n/0\nA cave.\n/CON\n/OBJ\n/PRO 0\n/PRO 1\n/PRO 2\n";

/// What is shown before the first line in the hall.
const FIRST: &str = "Hall.\n>\n";

/// The words that play, and those that resume the session.
pub(crate) const PLAY: &str = "play\nhall\nstore\n7";

pub(crate) const RESUME: &str = "resume\nhall\nstore";

/// The length of a session in bytes.
const SESSION_LEN: u64 = 172_288;

/// Where a session keeps its version.
const VERSION_AT: usize = 2;

/// Where the place of the first object stands in slot 0 and in slot 1.
const FIRST_PLACES: [usize; 2] = [128 + 64 + 256, 86_208 + 64 + 256];

/// More bytes than any file here has.
const MOST: usize = 200_000;

/// One command, over the store that the one before it left: its words, its lines, how it ends, and what it shows.
#[derive(Clone, Copy)]
struct Round<'a>(&'a str, &'a str, Outcome, &'a str);

// A stage with the sources of the two games, and a store with these bytes.
fn with_files(alloc: Global, store: &[u8]) -> Result<MemoryStage, NoRoom> {
    let mut stage = MemoryStage::new(alloc, 400, 8_000_000)?;
    stage.add_file("hall source", HALL.as_bytes())?;
    stage.add_file("cave source", CAVE.as_bytes())?;
    stage.add_file("store", store)?;
    Ok(stage)
}

/// A stage with the two games, a store with these bytes, and these lines.
pub(crate) fn stage_of(
    rt: &impl Abort,
    alloc: Global,
    store: &[u8],
    lines: &str,
) -> Result<MemoryStage, Fail> {
    let mut stage = with_files(alloc, store)?;
    for line in lines.lines() {
        stage.add_line(alloc, line.as_bytes())?;
    }
    for words in ["compile\nhall source\nhall", "compile\ncave source\ncave"] {
        let _ = settle_and_run(rt, alloc, &mut stage, words)?;
    }
    Ok(stage)
}

// Checks that a round ends and shows what it should.
fn comes_so(
    rt: &impl Abort,
    alloc: Global,
    stage: &mut MemoryStage,
    round: Round<'_>,
) -> Result<(), Fail> {
    let Round(words, lines, wanted, shown) = round;
    let before = stage.shown().len();
    let outcome = settle_and_run(rt, alloc, stage, words)?;
    let after = stage.shown().get(before..).unwrap_or(b"");
    compare(rt, (outcome, after), (wanted, shown.as_bytes()), lines);
    Ok(())
}

// One round over these bytes of a store; what it leaves of them.
fn plays_round(
    rt: &impl Abort,
    alloc: Global,
    store: &[u8],
    round: Round<'_>,
) -> Result<Vec<u8>, Fail> {
    let mut stage = stage_of(rt, alloc, store, round.1)?;
    comes_so(rt, alloc, &mut stage, round)?;
    Ok(stage.load(alloc, "store", MOST)?)
}

// Rounds of one session, the first with an empty store; what they leave of it.
fn plays_rounds(rt: &impl Abort, alloc: Global, rounds: &[Round<'_>]) -> Result<Vec<u8>, Fail> {
    let mut store = Vec::new(alloc);
    for round in rounds {
        store = plays_round(rt, alloc, store.as_slice(), *round)?;
    }
    Ok(store)
}

/// A game that calls too many tables, and one that is over.
const DEEP: Outcome = Outcome::TooDeep { table: 4 };

const OVER: Outcome = Outcome::Ended;

/// The end of a round that goes on to the end of its lines.
const TO_END: Outcome = Outcome::InputEnded;

/// The rounds of some sessions.
static SESSIONS: [[Round<'static>; 3]; 4] = [
    // A question in a called table, inside a loop.
    [
        Round(PLAY, "SHAKE ALL", TO_END, "Hall.\n>\nSure? "),
        Round(RESUME, "N", TO_END, "Sure? Sure? "),
        Round(RESUME, "Y", TO_END, "Sure? Done.\n>\n"),
    ],
    [
        Round(PLAY, "TWIST ALL", TO_END, "Hall.\n>\nKey. "),
        Round(RESUME, "", TO_END, "Key. "),
        Round(RESUME, "x\ny", TO_END, "Key. Done.\nKey. Done.\n>\n"),
    ],
    [
        Round(PLAY, "WAIT\nDEEP", DEEP, "Hall.\n>\nOK.\n>\n"),
        Round(RESUME, "", TO_END, "OK.\n>\n"),
        Round(RESUME, "WAIT", TO_END, "OK.\n>\nOK.\n>\n"),
    ],
    [
        Round(
            PLAY,
            "QUIT\nY\nn\nWAIT",
            OVER,
            "Hall.\n>\nSure? Again? Bye.\n",
        ),
        Round(RESUME, "WAIT", OVER, "Bye.\n"),
        Round(RESUME, "WAIT", OVER, "Bye.\n"),
    ],
];

#[test]
fn sessions_are_taken_up_where_they_stood(rt: HostRuntime) -> Result<(), Fail> {
    for rounds in &SESSIONS {
        plays_rounds(&rt, rt.alloc(), rounds)?;
    }
    Ok(())
}

// Goes on to the end of these lines over these bytes of a store; what that leaves of them.
fn play_case(
    rt: &impl Abort,
    alloc: Global,
    store: &[u8],
    (words, lines): (&str, &str),
) -> Result<Vec<u8>, Fail> {
    let mut stage = stage_of(rt, alloc, store, lines)?;
    let outcome = settle_and_run(rt, alloc, &mut stage, words)?;
    assert_eq!(rt; outcome, Outcome::InputEnded);
    Ok(stage.load(alloc, "store", MOST)?)
}

#[test]
fn random_words_go_on_after_a_resume(rt: HostRuntime) -> Result<(), Fail> {
    let alloc = rt.alloc();
    let lines = "ROLL\nROLL\nROLL\nROLL\nROLL\nROLL\nROLL\nROLL";
    let whole = play_case(&rt, alloc, b"", (PLAY, lines))?;
    let mut store: Vec<u8> = Vec::new(alloc);
    for (number, line) in lines.lines().enumerate() {
        let words = if number == 0 { PLAY } else { RESUME };
        store = play_case(&rt, alloc, store.as_slice(), (words, line))?;
    }
    assert_eq!(rt; whole.as_slice(), store.as_slice());
    Ok(())
}

// The same bytes with some changed to one byte.
fn with_bytes(alloc: Global, bytes: &[u8], places: &[usize], byte: u8) -> Result<Vec<u8>, Fail> {
    let mut changed = Vec::new(alloc);
    changed.extend_from_slice(bytes)?;
    for &place in places {
        if let Some(old) = changed.as_mut_slice().get_mut(place) {
            *old = byte;
        }
    }
    Ok(changed)
}

// The digest of the image of a source.
fn digest_of(rt: &impl Abort, alloc: Global, file: &str) -> Result<[u8; 32], Fail> {
    let mut stage = stage_of(rt, alloc, b"", "")?;
    Ok(digest(stage.load(alloc, file, MOST)?.as_slice()))
}

// Checks that a command ends so with these bytes of a store, shows nothing, and leaves them as they are.
fn is_refused(
    rt: &impl Abort,
    alloc: Global,
    store: &[u8],
    words: &str,
    outcome: Outcome,
) -> Result<(), Fail> {
    let left = plays_round(rt, alloc, store, Round(words, "WAIT", outcome, ""))?;
    assert_eq!(rt; left.as_slice(), store, "{outcome:?}");
    Ok(())
}

// The bytes of a session that has taken a line.
fn session_after_a_line(rt: &impl Abort, alloc: Global) -> Result<Vec<u8>, Fail> {
    play_case(rt, alloc, b"", (PLAY, "WAIT"))
}

// Checks that another game than that of a session is asked for, before its routines are.
fn another_game_is_refused(rt: &impl Abort, alloc: Global, store: &[u8]) -> Result<(), Fail> {
    let other = Outcome::WrongGame {
        kept: digest_of(rt, alloc, "hall")?,
        found: digest_of(rt, alloc, "cave")?,
    };
    is_refused(rt, alloc, store, "resume\ncave\nstore", other)?;
    let changed = with_bytes(alloc, store, &ROUTINES_PLACES, 200)?;
    is_refused(rt, alloc, changed.as_slice(), "resume\ncave\nstore", other)
}

/// A command over a session of which some bytes are changed to one, the places of those, that byte, and how it ends.
static REFUSALS: [(&str, &[usize], u8, Outcome); 5] = [
    (
        PLAY,
        &[],
        0,
        Outcome::Occupied {
            length: SESSION_LEN,
        },
    ),
    (
        RESUME,
        &[0],
        0,
        Outcome::Unmade {
            length: SESSION_LEN,
            mark: 0,
        },
    ),
    (
        RESUME,
        &[VERSION_AT],
        3,
        Outcome::SessionDamaged {
            part: SessionPart::Header,
            at: 2,
        },
    ),
    (
        RESUME,
        &ROUTINES_PLACES,
        200,
        Outcome::WrongRoutines {
            kept: [200; 32],
            found: THESE_ROUTINES,
        },
    ),
    (
        RESUME,
        &FIRST_PLACES,
        200,
        Outcome::SessionDamaged {
            part: SessionPart::State,
            at: 256,
        },
    ),
];

#[test]
fn stores_that_give_no_session_are_refused(rt: HostRuntime) -> Result<(), Fail> {
    let alloc = rt.alloc();
    let store = session_after_a_line(&rt, alloc)?;
    another_game_is_refused(&rt, alloc, store.as_slice())?;
    for &(words, places, byte, outcome) in &REFUSALS {
        let changed = with_bytes(alloc, store.as_slice(), places, byte)?;
        is_refused(&rt, alloc, changed.as_slice(), words, outcome)?;
    }
    Ok(())
}

/// A store that is missing has no session, nor has an empty one; that may be played in.
static UNMADE: [Round<'static>; 3] = [
    Round("resume\nhall\nnone", "WAIT", NO_SESSION, ""),
    Round(RESUME, "WAIT", NO_SESSION, ""),
    Round(PLAY, "", TO_END, FIRST),
];

const NO_SESSION: Outcome = Outcome::Unmade { length: 0, mark: 0 };

#[test]
fn stores_without_a_byte_may_be_played_in(rt: HostRuntime) -> Result<(), Fail> {
    plays_rounds(&rt, rt.alloc(), &UNMADE)?;
    Ok(())
}

/// Where a session keeps the digest of its routines.
const ROUTINES_PLACES: [usize; 32] = [
    64, 65, 66, 67, 68, 69, 70, 71, 72, 73, 74, 75, 76, 77, 78, 79, 80, 81, 82, 83, 84, 85, 86, 87,
    88, 89, 90, 91, 92, 93, 94, 95,
];

/// The digest of the program's routines: of 3, and their values.
const THESE_ROUTINES: [u8; 32] = [
    0x15, 0xd9, 0x80, 0xf4, 0xd2, 0x35, 0x39, 0x54, 0x47, 0x63, 0x10, 0xbb, 0xb8, 0xaf, 0xf7, 0xac,
    0xc8, 0xb9, 0x0e, 0x4a, 0x5b, 0xdc, 0x7c, 0x1b, 0xe6, 0xc9, 0x5e, 0x8c, 0x3e, 0xd0, 0x3e, 0x92,
];

/// The digest of no routines: of 0.
const NO_ROUTINES: [u8; 32] = [
    0x6e, 0x34, 0x0b, 0x9c, 0xff, 0xb3, 0x7a, 0x98, 0x9c, 0xa5, 0x44, 0xe6, 0xbb, 0x78, 0x0a, 0x2c,
    0x78, 0x90, 0x1d, 0x3f, 0xb3, 0x37, 0x38, 0x76, 0x85, 0x11, 0xa3, 0x06, 0x17, 0xaf, 0xa0, 0x1d,
];

// Goes on with no routines where a session wasn't measured; the bytes of its store afterwards.
fn resume_unmeasured(rt: &impl Abort, alloc: Global, store: &[u8]) -> Result<Vec<u8>, Fail> {
    let mut stage = stage_of(rt, alloc, store, "WAIT")?;
    let compiled = stage.shown().len();
    let outcome = settle_and_run_with_none(rt, alloc, &mut stage, RESUME)?;
    assert_eq!(rt; outcome, Outcome::InputEnded);
    let shown = stage.shown().get(compiled..).unwrap_or(b"");
    assert_eq!(rt; shown, b"OK.\n>\nOK.\n>\n".as_slice());
    let after = stage.load(alloc, "store", MOST)?;
    Ok(after)
}

/// The answer to a session of the program's routines that is resumed with none.
const OTHER_ROUTINES: Outcome = Outcome::WrongRoutines {
    kept: THESE_ROUTINES,
    found: NO_ROUTINES,
};

// Checks that a program without routines refuses a session, with both digests, and leaves its file as it is.
fn is_refused_with_none(rt: &impl Abort, alloc: Global, store: &[u8]) -> Result<(), Fail> {
    let mut stage = stage_of(rt, alloc, store, "")?;
    let refused = settle_and_run_with_none(rt, alloc, &mut stage, RESUME)?;
    assert_eq!(rt; refused, OTHER_ROUTINES);
    let after = stage.load(alloc, "store", MOST)?;
    assert_eq!(rt; after.as_slice(), store);
    Ok(())
}

#[test]
fn a_session_knows_its_routines(rt: HostRuntime) -> Result<(), Fail> {
    let alloc = rt.alloc();
    let before = session_after_a_line(&rt, alloc)?;
    is_refused_with_none(&rt, alloc, before.as_slice())?;
    let unmeasured = with_bytes(alloc, before.as_slice(), &ROUTINES_PLACES, 0)?;
    let after = resume_unmeasured(&rt, alloc, unmeasured.as_slice())?;
    assert_eq!(rt; after.get(64..96), Some([0u8; 32].as_slice()));
    Ok(())
}

/// Where a session and each of its slots have their versions.
const VERSIONS: [usize; 3] = [VERSION_AT, 128 + 2, 86_208 + 2];

/// Where a state of the earlier form ends in slot 0 and in slot 1: any bytes may follow it.
const EARLIER_ENDS: [usize; 2] = [128 + 64 + 1371, 86_208 + 64 + 1371];

/// A session of the earlier form, which isn't measured and waits for the answer to the first of two questions.
pub(crate) fn earlier_form(rt: &impl Abort, alloc: Global) -> Result<Vec<u8>, Fail> {
    let shown = "Hall.\n>\nOK.\n>\nSure? ";
    let store = plays_round(
        rt,
        alloc,
        b"",
        Round(PLAY, "WAIT\nSHAKE ALL", TO_END, shown),
    )?;
    let earlier = with_bytes(alloc, store.as_slice(), &VERSIONS, 1)?;
    let unmeasured = with_bytes(alloc, earlier.as_slice(), &ROUTINES_PLACES, 0)?;
    with_bytes(alloc, unmeasured.as_slice(), &EARLIER_ENDS, 7)
}

#[test]
fn a_session_of_the_earlier_form_goes_on(rt: HostRuntime) -> Result<(), Fail> {
    let alloc = rt.alloc();
    let earlier = earlier_form(&rt, alloc)?;
    let on = Round(RESUME, "N\nY", TO_END, "Sure? Sure? Done.\n>\n");
    let left = plays_round(&rt, alloc, earlier.as_slice(), on)?;
    let later = Round(RESUME, "WAIT", TO_END, "Done.\n>\nOK.\n>\n");
    plays_round(&rt, alloc, left.as_slice(), later)?;
    Ok(())
}

// What a play of a line leaves of the store where this call of it fails; None where that isn't a show.
fn left_unshown(rt: &impl Abort, alloc: Global, call: u64) -> Result<Option<Vec<u8>>, Fail> {
    let mut settled = stage_of(rt, alloc, b"", "WAIT")?;
    settle(rt, &mut settled);
    let mut stage = FailStage::new(settled, [call].to_vec(alloc)?);
    if run(alloc, &mut stage, PLAY)? != Outcome::Outside(StageCall::Show) {
        return Ok(None);
    }
    Ok(Some(stage.load(alloc, "store", MOST)?))
}

#[test]
fn a_piece_that_was_not_shown_is_shown_again(rt: HostRuntime) -> Result<(), Fail> {
    let alloc = rt.alloc();
    // Of the calls, the show of the first piece and that of the piece of WAIT.
    let mut seen = 0u64;
    for call in 0..40u64 {
        let Some(store) = left_unshown(&rt, alloc, call)? else {
            continue;
        };
        seen = seen.saturating_add(1);
        let shown = if seen == 1 { FIRST } else { "OK.\n>\n" };
        let again = Round(RESUME, "", TO_END, shown);
        plays_round(&rt, alloc, store.as_slice(), again)?;
    }
    assert_eq!(rt; seen, 2);
    Ok(())
}
