// Sessions in stores in memory: damaged ones, and those that a crash leaves; and the stages below them.

ghost use Rattle.std.specs.Prelude.{◌≡◌, ◌↔◌, ◌<◌, ◌≤◌, true, length, IfOk};
ghost use Rattle.paw_stage.specs.Disk.{IsStable};
ghost use Rattle.paw_stage.specs.inner.Memory.{standing_of};
ghost use Rattle.paw_journal.specs.Session.{piece_length};
ghost use Rattle.paw_journal.specs.inner.Journal.{KeptIn};

use crate::layout::number_at;
use crate::{Journal, JournalRefusal, Room, SessionPart, attach, digest};
use paw_base::fault::NoRoom;
use paw_base::layout::{FIRST_LENGTH, PIECE_LENGTH_AT};
use paw_stage::{MemoryStage, Stage, StageCall, StopStage};
use std::alloc::Global;
use std::process::Abort;
use std::test::Fail;

mod commits;
mod stages;

const GAME: [u8; 32] = [7; 32];

const RULES: [u8; 32] = [9; 32];

#[test]
fn the_digest_is_that_of_the_standard(rt: HostRuntime) {
    let expected = [
        0xba, 0x78, 0x16, 0xbf, 0x8f, 0x01, 0xcf, 0xea, 0x41, 0x41, 0x40, 0xde, 0x5d, 0xae, 0x22,
        0x23, 0xb0, 0x03, 0x61, 0xa3, 0x96, 0x17, 0x7a, 0x9c, 0xb4, 0x10, 0xff, 0x61, 0xf2, 0x00,
        0x15, 0xad,
    ];
    assert_eq!(rt; digest(b"abc"), expected);
}

// A state that begins with this byte, and gives the length of this piece.
fn state_of(first: u8, piece: &[u8]) -> [u8; 4096]
    requires short { length piece.now < 256 }
{
    let mut state = [0; 4096];
    state[0] = first;
    state[PIECE_LENGTH_AT] = piece.len() as u8;
    state
}

// Whether a state gives the length of this piece.
fn tells(state: &[u8; 4096], piece: &[u8]) -> bool
    ensures piece { result ≡ true → piece_length state.now ≡ length piece.now }
{
    number_at(state, PIECE_LENGTH_AT) == piece.len()
}

fn memory(alloc: Global, bytes: &[u8]) -> Result<MemoryStage, NoRoom>
    ensures stable { IfOk result (λ s. IsStable (standing_of s).disk) }
{
    let mut stage = MemoryStage::new(alloc, 20_000, 2_000_000)?;
    if !bytes.is_empty() {
        stage.add_file("S", bytes)?;
    }
    Ok(stage)
}

// The number of these calls that are done: a session is made, and committed to twice.
fn sessions<S: Stage>(stage: &mut S, room: &mut Room) -> u8
    requires stable { S.Tells stage.old → IsStable (S.standing stage.old).disk }
{
    let (first, second, third) = (
        state_of(0, b"Hall."),
        state_of(1, b""),
        state_of(2, b"Cellar.\n"),
    );
    if !tells(&first, b"Hall.") || !tells(&second, b"") || !tells(&third, b"Cellar.\n") {
        return 0;
    }
    let Ok(at) = attach(stage, "S") else {
        return 0;
    };
    if at.length != 0 {
        return 0;
    }
    let Ok(journal) = Journal::create(stage, room, at, &GAME, &RULES, &first, b"Hall.") else {
        return 0;
    };
    let Ok(journal) = journal.commit(stage, room, &second, b"") else {
        return 1;
    };
    match journal.commit(stage, room, &third, b"Cellar.\n") {
        Ok(_) => 3,
        Err(_) => 2,
    }
}

// The bytes of a store in which a session was made and committed to twice.
fn whole_session(alloc: Global, room: &mut Room) -> Result<Vec<u8>, Fail> {
    let mut stage = memory(alloc, b"")?;
    if sessions(&mut stage, room) != 3 {
        return Err(Fail::from("sessions"));
    }
    Ok(stage.crash(alloc, 1)?)
}

// These bytes, with other ones at some offsets.
fn with_bytes(alloc: Global, whole: &[u8], changes: &[(usize, u8)]) -> Result<Vec<u8>, Fail> {
    let mut bytes = Vec::from_slice(alloc, whole)?;
    for &(place, byte) in changes {
        if place >= bytes.len() {
            return Err(Fail::from("place"));
        }
        bytes[place] = byte;
    }
    Ok(bytes)
}

// Finds the session of the game in a store that has these bytes: the first byte of its state, and the length of its
// piece.
fn find_in(
    alloc: Global,
    bytes: &[u8],
    room: &mut Room,
    game: &[u8; 32],
) -> Result<Result<(u8, usize), JournalRefusal>, NoRoom> {
    found_by(alloc, bytes, room, game, &RULES)
}

// The same, with the digest of the routines.
fn found_by(
    alloc: Global,
    bytes: &[u8],
    room: &mut Room,
    game: &[u8; 32],
    rules: &[u8; 32],
) -> Result<Result<(u8, usize), JournalRefusal>, NoRoom> {
    let mut stage = memory(alloc, bytes)?;
    let Ok(at) = attach(&mut stage, "S") else {
        return Ok(Err(JournalRefusal::Outside(StageCall::Attach)));
    };
    Ok(match Journal::find(&mut stage, room, at, game, rules) {
        Ok(_) => Ok((room.state()[0], room.piece().len())),
        Err(refusal) => Err(refusal),
    })
}

// Checks what a search finds after a crash with each pick.
fn crash_leaves(
    rt: &impl Abort,
    alloc: Global,
    stage: &MemoryStage,
    room: &mut Room,
    (passes, left): (u64, &[Option<(u8, usize)>]),
) -> Result<(), Fail> {
    for pick in 0..3u8 {
        let bytes = stage.crash(alloc, pick)?;
        let seen = find_in(alloc, bytes.as_slice(), room, &GAME)?.ok();
        assert_eq!(rt; Some(&seen), left.get(pick as usize), "{passes} {pick}");
    }
    Ok(())
}

const UNMADE: Option<(u8, usize)> = None;

const FIRST: Option<(u8, usize)> = Some((0, 5));

const SECOND: Option<(u8, usize)> = Some((1, 0));

const THIRD: Option<(u8, usize)> = Some((2, 8));

/// How many calls pass, at least and at most; what they do, and what a search finds after a crash with each pick.
static PASSES: [(u64, u64, u8, &[Option<(u8, usize)>]); 7] = [
    (0, 7, 0, &[UNMADE, UNMADE, UNMADE]),
    (8, 8, 0, &[UNMADE, FIRST, UNMADE]),
    (9, 12, 1, &[FIRST, FIRST, FIRST]),
    (13, 13, 1, &[FIRST, SECOND, SECOND]),
    (14, 18, 2, &[SECOND, SECOND, SECOND]),
    (19, 19, 2, &[SECOND, THIRD, SECOND]),
    (20, 21, 3, &[THIRD, THIRD, THIRD]),
];

// Stops sessions after this number of calls: what they do by then, and what a search finds after a crash with each
// pick.
fn sessions_stop(
    rt: &impl Abort,
    alloc: Global,
    room: &mut Room,
    (passes, done, left): (u64, u8, &[Option<(u8, usize)>]),
) -> Result<(), Fail> {
    let mut stage = StopStage::new(memory(alloc, b"")?, passes);
    assert_eq!(rt; sessions(&mut stage, room), done, "{passes}");
    crash_leaves(rt, alloc, stage.inner(), room, (passes, left))
}

#[test]
fn a_crash_leaves_the_prompt_before_or_the_one_after(rt: HostRuntime) -> Result<(), Fail> {
    let mut room = Room::new(rt.alloc())?;
    for &(least, most, done, left) in &PASSES {
        for passes in least..=most {
            sessions_stop(&rt, rt.alloc(), &mut room, (passes, done, left))?;
        }
    }
    Ok(())
}

/// What is found: the first byte of a state and the length of its piece, or why there is none.
type Found = Result<(u8, usize), JournalRefusal>;

/// Bytes that are changed, and what is found. Slot 0 is chosen, and begins at 128.
static CHANGES: [(&[(usize, u8)], Found); 13] = [
    (&[(0, 0x50)], Ok((2, 8))),
    (
        &[(0, 0), (2, 3)],
        Err(JournalRefusal::Unmade {
            length: 172_288,
            mark: 0,
        }),
    ),
    (
        &[(2, 3), (128, 255), (129, 255)],
        Err(JournalRefusal::Damaged {
            part: SessionPart::Header,
            at: 2,
        }),
    ),
    (&[(2, 1)], Ok((2, 8))),
    (
        &[(2, 0), (130, 0)],
        Err(JournalRefusal::Damaged {
            part: SessionPart::Header,
            at: 2,
        }),
    ),
    (&[(1, 0xfe)], Ok((2, 8))),
    (&[(1, 0xa7)], Ok((1, 0))),
    (
        &[(128, 1), (129, 0x10)],
        Err(JournalRefusal::Damaged {
            part: SessionPart::Slot,
            at: 0,
        }),
    ),
    (&[(128, 0), (129, 0x10)], Ok((0, 8))),
    (&[(128, 2), (69_826, 9)], Ok((9, 8))),
    (
        &[(128, 2), (69_826, 9), (69_829, 0x10)],
        Err(JournalRefusal::Damaged {
            part: SessionPart::Slot,
            at: 69_700,
        }),
    ),
    (
        &[(128, 1), (69_827, 1), (69_829, 0x10)],
        Err(JournalRefusal::Damaged {
            part: SessionPart::Slot,
            at: 69_696,
        }),
    ),
    (&[(128, 1), (69_827, 0), (69_829, 0x10)], Ok((2, 5))),
];

// Checks what is found where these bytes of a session are changed.
fn change_is_found(
    rt: &impl Abort,
    alloc: Global,
    room: &mut Room,
    whole: &[u8],
    (changes, expected): (&[(usize, u8)], Found),
) -> Result<(), Fail> {
    let bytes = with_bytes(alloc, whole, changes)?;
    let seen = find_in(alloc, bytes.as_slice(), room, &GAME)?;
    assert_eq!(rt; seen, expected);
    Ok(())
}

#[test]
fn the_first_broken_rule_is_named(rt: HostRuntime) -> Result<(), Fail> {
    let mut room = Room::new(rt.alloc())?;
    let whole = whole_session(rt.alloc(), &mut room)?;
    assert_eq!(rt; whole.len(), 172_288);
    for &row in &CHANGES {
        change_is_found(&rt, rt.alloc(), &mut room, whole.as_slice(), row)?;
    }
    Ok(())
}

/// Digests of a game and of routines, and what is found by them.
type Asked = ([u8; 32], [u8; 32], Found);

// Checks what is found in a store that has these bytes, by each of these digests.
fn finds(
    rt: &impl Abort,
    alloc: Global,
    room: &mut Room,
    bytes: &[u8],
    rows: &[Asked],
) -> Result<(), Fail> {
    for &(game, rules, expected) in rows {
        let seen = found_by(alloc, bytes, room, &game, &rules)?;
        assert_eq!(rt; seen, expected);
    }
    Ok(())
}

const OTHER: [u8; 32] = [8; 32];

/// The digest of a session that isn't measured, and one that is so but for its last byte.
const NOTHING: [u8; 32] = [0; 32];

const LAST: [u8; 32] = [
    0, 0, 0, 0, 0, 0, 0, 0, 0, 0, 0, 0, 0, 0, 0, 0, 0, 0, 0, 0, 0, 0, 0, 0, 0, 0, 0, 0, 0, 0, 0, 1,
];

const THIRD_STATE: Found = Ok((2, 8));

const WRONG_GAME: Found = Err(JournalRefusal::WrongGame {
    kept: GAME,
    found: OTHER,
});

const WRONG_ROUTINES: Found = Err(JournalRefusal::WrongRoutines {
    kept: RULES,
    found: OTHER,
});

const BROKEN_SLOT: Found = Err(JournalRefusal::Damaged {
    part: SessionPart::Slot,
    at: 0,
});

/// In no bytes, and in two that aren't those of a session.
static IN_NONE: [Asked; 1] = [(
    GAME,
    RULES,
    Err(JournalRefusal::Unmade { length: 0, mark: 0 }),
)];

static IN_TWO: [Asked; 1] = [(
    GAME,
    RULES,
    Err(JournalRefusal::Unmade {
        length: 2,
        mark: 0x50,
    }),
)];

/// In a whole session.
static IN_WHOLE: [Asked; 5] = [
    (GAME, RULES, THIRD_STATE),
    (OTHER, RULES, WRONG_GAME),
    (GAME, OTHER, WRONG_ROUTINES),
    (
        GAME,
        NOTHING,
        Err(JournalRefusal::WrongRoutines {
            kept: RULES,
            found: NOTHING,
        }),
    ),
    (OTHER, OTHER, WRONG_GAME),
];

/// In one that isn't measured, and in one that is so but for a byte.
static IN_UNMEASURED: [Asked; 3] = [
    (GAME, RULES, THIRD_STATE),
    (GAME, OTHER, THIRD_STATE),
    (OTHER, OTHER, WRONG_GAME),
];

static IN_ALMOST_UNMEASURED: [Asked; 2] = [
    (GAME, LAST, THIRD_STATE),
    (
        GAME,
        RULES,
        Err(JournalRefusal::WrongRoutines {
            kept: LAST,
            found: RULES,
        }),
    ),
];

/// In one with a slot that is damaged.
static IN_BROKEN: [Asked; 2] = [(OTHER, OTHER, BROKEN_SLOT), (GAME, OTHER, BROKEN_SLOT)];

#[test]
fn other_stores_hold_no_session_of_the_game(rt: HostRuntime) -> Result<(), Fail> {
    let mut room = Room::new(rt.alloc())?;
    let whole = whole_session(rt.alloc(), &mut room)?;
    finds(&rt, rt.alloc(), &mut room, b"", &IN_NONE)?;
    finds(&rt, rt.alloc(), &mut room, b"\x50\x00", &IN_TWO)?;
    finds(&rt, rt.alloc(), &mut room, whole.as_slice(), &IN_WHOLE)
}

#[test]
fn a_session_of_other_routines_is_refused(rt: HostRuntime) -> Result<(), Fail> {
    let mut room = Room::new(rt.alloc())?;
    let whole = whole_session(rt.alloc(), &mut room)?;
    let none = with_routines(rt.alloc(), whole.as_slice(), 0)?;
    finds(&rt, rt.alloc(), &mut room, none.as_slice(), &IN_UNMEASURED)?;
    let part = with_bytes(rt.alloc(), none.as_slice(), &[(95, 1)])?;
    finds(
        &rt,
        rt.alloc(),
        &mut room,
        part.as_slice(),
        &IN_ALMOST_UNMEASURED,
    )?;
    let broken = with_bytes(rt.alloc(), whole.as_slice(), &[(129, 255)])?;
    finds(&rt, rt.alloc(), &mut room, broken.as_slice(), &IN_BROKEN)
}

// These bytes, with this one at each offset of the digest of the routines.
fn with_routines(alloc: Global, whole: &[u8], byte: u8) -> Result<Vec<u8>, Fail> {
    let mut bytes = Vec::from_slice(alloc, whole)?;
    if bytes.len() < 96 {
        return Err(Fail::from("length"));
    }
    for place in 64..96 {
        bytes[place] = byte;
    }
    Ok(bytes)
}

// Whether all is done: a session is made, and this number of turns is committed, each with its number in `many` bytes.
fn plays<S: Stage>(stage: &mut S, room: &mut Room, turns: u32, many: usize) -> bool
    requires stable { S.Tells stage.old → IsStable (S.standing stage.old).disk }
    requires many { many ≤ 1000 }
{
    let first = state_of(0, b"Hall.");
    if !tells(&first, b"Hall.") {
        return false;
    }
    let Ok(at) = attach(stage, "S") else {
        return false;
    };
    if at.length != 0 {
        return false;
    }
    match Journal::create(stage, room, at, &GAME, &RULES, &first, b"Hall.") {
        Ok(journal) => goes_on(stage, room, journal, 0, turns, many),
        Err(_) => false,
    }
}

// Whether this number of turns more is committed.
fn goes_on<S: Stage>(
    stage: &mut S,
    room: &mut Room,
    made: Journal,
    before: u32,
    turns: u32,
    many: usize,
) -> bool
    requires kept { S.Tells stage.old → KeptIn made room.old (S.standing stage.old) }
    requires many { many ≤ 1000 }
{
    let mut journal = made;
    for turn in before..turns {
        match takes(stage, room, journal, turn + 1, many) {
            Ok(next) => journal = next,
            Err(_) => return false,
        }
    }
    true
}

// Commits one turn.
fn takes<S: Stage>(
    stage: &mut S,
    room: &mut Room,
    journal: Journal,
    turn: u32,
    many: usize,
) -> Result<Journal, StageCall>
    requires kept { S.Tells stage.old → KeptIn journal room.old (S.standing stage.old) }
    requires many { many ≤ 1000 }
    ensures tells { S.Tells stage.old ↔ S.Tells stage.new }
    ensures kept { S.Tells stage.old → IfOk result (λ next. KeptIn next room.new (S.standing stage.new)) }
{
    let mut state = state_of(0, b"OK.");
    for i in 0..many {
        state[i] = (turn % 256) as u8;
    }
    if !tells(&state, b"OK.") {
        return Err(StageCall::Show);
    }
    journal.commit(stage, room, &state, b"OK.")
}

// Plays this number of turns, each of which changes this number of bytes of the state: how much is written in all, with
// the making, and what is found then.
fn plays_and_writes(
    rt: &impl Abort,
    alloc: Global,
    (turns, many, written, first): (u32, usize, u64, u8),
) -> Result<(), Fail> {
    let mut room = Room::new(alloc)?;
    let mut stage = memory(alloc, b"")?;
    assert!(rt; many <= 1_000);
    assert!(rt; plays(&mut stage, &mut room, turns, many));
    assert_eq!(rt; stage.written(), written);
    let bytes = stage.crash(alloc, 0)?;
    let seen = find_in(alloc, bytes.as_slice(), &mut room, &GAME)?;
    assert_eq!(rt; seen, Ok((first, 3)));
    Ok(())
}

// In two thousand turns the slots fill up, and a base is written whole 24 times in each.
#[test]
fn a_commit_writes_what_differs(rt: HostRuntime) -> Result<(), Fail> {
    plays_and_writes(&rt, rt.alloc(), (100, 1, 173_397, 100))?;
    plays_and_writes(&rt, rt.alloc(), (2_000, 100, 1_163_705, 208))
}

// Whether the session in the store, which had one turn, is found, and this number of turns more is committed.
fn takes_up<S: Stage>(stage: &mut S, room: &mut Room, turns: u32) -> bool
    requires stable { S.Tells stage.old → IsStable (S.standing stage.old).disk }
    requires few { turns < 1000 }
{
    let Ok(at) = attach(stage, "S") else {
        return false;
    };
    match Journal::find(stage, room, at, &GAME, &RULES) {
        Ok(journal) => goes_on(stage, room, journal, 1, 1 + turns, 1),
        Err(_) => false,
    }
}

// The bytes of a session that was made and played once.
fn session_of_one_turn(alloc: Global, room: &mut Room) -> Result<Vec<u8>, Fail> {
    let mut stage = memory(alloc, b"")?;
    if !plays(&mut stage, room, 1, 1) {
        return Err(Fail::from("turn"));
    }
    Ok(stage.crash(alloc, 0)?)
}

// Checks that slot 0, which isn't chosen, is written whole where these bytes of it are changed.
fn slot_is_written_whole(
    rt: &impl Abort,
    alloc: Global,
    whole: &[u8],
    changes: [(usize, u8); 2],
) -> Result<(), Fail> {
    let mut room = Room::new(alloc)?;
    let bytes = with_bytes(alloc, whole, &changes)?;
    let mut stage = memory(alloc, bytes.as_slice())?;
    assert!(rt; takes_up(&mut stage, &mut room, 1));
    assert_eq!(rt; stage.written(), 4_096 + 3 + 4);
    let after = stage.crash(alloc, 0)?;
    assert_eq!(rt; after.get(128..130), Some([0u8, 0].as_slice()));
    let seen = find_in(alloc, after.as_slice(), &mut room, &GAME)?;
    assert_eq!(rt; seen, Ok((2, 3)));
    Ok(())
}

// Slot 0 begins at 128: it has 5,000 change records, or one that isn't sound.
#[test]
fn a_slot_without_a_state_is_written_whole(rt: HostRuntime) -> Result<(), Fail> {
    let mut room = Room::new(rt.alloc())?;
    let whole = session_of_one_turn(rt.alloc(), &mut room)?;
    let whole = whole.as_slice();
    slot_is_written_whole(&rt, rt.alloc(), whole, [(128, 0x88), (129, 0x13)])?;
    slot_is_written_whole(&rt, rt.alloc(), whole, [(128, 1), (69_827, 1)])
}

// The same in version 1: it isn't measured, no slot gives a version, and anything may follow the states.
fn first_version(alloc: Global, room: &mut Room) -> Result<Vec<u8>, Fail> {
    let bytes = session_of_one_turn(alloc, room)?;
    let changes = [(2, 1), (130, 0), (86_210, 0), (1_563, 7), (87_643, 9)];
    let bytes = with_bytes(alloc, bytes.as_slice(), &changes)?;
    with_routines(alloc, bytes.as_slice(), 0)
}

const OLD: Option<(u8, usize)> = Some((1, 3));

const NEW: Option<(u8, usize)> = Some((2, 3));

/// The calls of a resume that pass, and what a search finds after a crash with each pick. It makes ten.
static RESUMES: [(u64, &[Option<(u8, usize)>]); 9] = [
    (1, &[OLD, OLD, OLD]),
    (3, &[OLD, OLD, OLD]),
    (4, &[OLD, OLD, OLD]),
    (5, &[OLD, OLD, OLD]),
    (6, &[OLD, OLD, OLD]),
    (7, &[OLD, OLD, OLD]),
    (8, &[OLD, OLD, OLD]),
    (9, &[OLD, NEW, OLD]),
    (10, &[NEW, NEW, NEW]),
];

// Stops the resume of a session of version 1 after this number of calls.
fn resume_stops(
    rt: &impl Abort,
    alloc: Global,
    room: &mut Room,
    old: &[u8],
    (passes, left): (u64, &[Option<(u8, usize)>]),
) -> Result<(), Fail> {
    let mut stage = StopStage::new(memory(alloc, old)?, passes);
    let is_done = takes_up(&mut stage, room, 1);
    assert_eq!(rt; is_done, passes == 10, "{passes}");
    crash_leaves(rt, alloc, stage.inner(), room, (passes, left))?;
    assert_eq!(rt; room.state()[FIRST_LENGTH], 0, "{passes}");
    Ok(())
}

#[test]
fn a_resume_of_version_1_stops_after_any_call(rt: HostRuntime) -> Result<(), Fail> {
    let mut room = Room::new(rt.alloc())?;
    let old = first_version(rt.alloc(), &mut room)?;
    for &row in &RESUMES {
        resume_stops(&rt, rt.alloc(), &mut room, old.as_slice(), row)?;
    }
    Ok(())
}

// Checks the versions of a session and of its slots after this number of turns more, and how much is written for them.
fn versions_after(
    rt: &impl Abort,
    alloc: Global,
    old: &[u8],
    (turns, versions, written): (u32, (u8, u8, u8), u64),
) -> Result<(), Fail> {
    let mut room = Room::new(alloc)?;
    let mut stage = memory(alloc, old)?;
    assert!(rt; turns < 1_000);
    assert!(rt; takes_up(&mut stage, &mut room, turns));
    assert_eq!(rt; stage.written(), written);
    let bytes = stage.crash(alloc, 0)?;
    assert!(rt; bytes.len() == 172_288);
    assert_eq!(rt; (bytes[2], bytes[130], bytes[86_210]), versions);
    assert_eq!(rt; (bytes[64], bytes[95]), (0, 0));
    Ok(())
}

// Each slot is moved over by the first commit into it.
#[test]
fn a_session_of_version_1_goes_on(rt: HostRuntime) -> Result<(), Fail> {
    let mut room = Room::new(rt.alloc())?;
    let old = first_version(rt.alloc(), &mut room)?;
    versions_after(&rt, rt.alloc(), old.as_slice(), (1, (1, 2, 0), 4_103))?;
    versions_after(&rt, rt.alloc(), old.as_slice(), (2, (1, 2, 2), 8_206))?;
    versions_after(&rt, rt.alloc(), old.as_slice(), (3, (1, 2, 2), 8_217))
}
