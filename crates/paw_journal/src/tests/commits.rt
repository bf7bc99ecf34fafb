// Each byte of a session, as it was made and as commits leave it.

ghost use Rattle.paw_stage.specs.Disk.{IsStable};

use super::{GAME, RULES, memory, plays, tells, with_bytes, with_routines};
use crate::{Journal, Room, attach};
use paw_stage::Stage;
use std::alloc::Global;
use std::test::Fail;

// Whether the session in the store is found, and committed to: these bytes of its state are changed, and it gets this
// piece.
fn changes<S: Stage>(stage: &mut S, room: &mut Room, changes: &[(usize, u8)], piece: &[u8]) -> bool
    requires stable { S.Tells stage.old → IsStable (S.standing stage.old).disk }
{
    let Ok(at) = attach(stage, "S") else {
        return false;
    };
    let Ok(journal) = Journal::find(stage, room, at, &GAME, &RULES) else {
        return false;
    };
    let mut state = *room.state();
    for &(place, byte) in changes {
        if place >= state.len() {
            return false;
        }
        state[place] = byte;
    }
    if !tells(&state, piece) {
        return false;
    }
    journal.commit(stage, room, &state, piece).is_ok()
}

// The bytes of this session once a commit changed these bytes of its state, and gave it this piece: of all its bytes
// these ones are other ones.
fn bytes_after_commit(
    alloc: Global,
    session: &[u8],
    (state, piece, others): Commit<'_>,
) -> Result<Vec<u8>, Fail> {
    let mut room = Room::new(alloc)?;
    let mut stage = memory(alloc, session)?;
    if !changes(&mut stage, &mut room, state, piece) {
        return Err(Fail::from("commit"));
    }
    let bytes = stage.crash(alloc, 0)?;
    let expected = with_bytes(alloc, session, others)?;
    if bytes.as_slice() != expected.as_slice() {
        return Err(Fail::from("bytes"));
    }
    Ok(bytes)
}

// A session as it was made, with a state of which one byte isn't 0 beside the length of its piece.
fn new_session(alloc: Global) -> Result<Vec<u8>, Fail> {
    let mut room = Room::new(alloc)?;
    let mut stage = memory(alloc, b"")?;
    if !plays(&mut stage, &mut room, 0, 0) {
        return Err(Fail::from("made"));
    }
    Ok(stage.crash(alloc, 0)?)
}

/// The mark and the version; each slot's version, the length of its piece, and the piece.
const MADE: [(usize, u8); 16] = [
    (0, 80),
    (2, 2),
    (130, 2),
    (1_561, 5),
    (4_288, b'H'),
    (4_289, b'a'),
    (4_290, b'l'),
    (4_291, b'l'),
    (4_292, b'.'),
    (86_210, 2),
    (87_641, 5),
    (90_368, b'H'),
    (90_369, b'a'),
    (90_370, b'l'),
    (90_371, b'l'),
    (90_372, b'.'),
];

#[test]
fn each_byte_of_a_session_that_is_made(rt: HostRuntime) -> Result<(), Fail> {
    let bytes = new_session(rt.alloc())?;
    assert_eq!(rt; bytes.len(), 172_288);
    let mut zeros = Vec::new(rt.alloc());
    zeros.resize(bytes.len(), 0)?;
    let digests = with_digests(rt.alloc(), zeros.as_slice())?;
    let expected = with_bytes(rt.alloc(), digests.as_slice(), &MADE)?;
    assert!(rt; bytes == expected);
    Ok(())
}

// These bytes, with the digests of game and routines.
fn with_digests(alloc: Global, whole: &[u8]) -> Result<Vec<u8>, Fail> {
    let mut bytes = with_routines(alloc, whole, 9)?;
    if bytes.len() < 64 {
        return Err(Fail::from("length"));
    }
    for place in 32..64 {
        bytes[place] = 7;
    }
    Ok(bytes)
}

// A session of another hand: the selector's other bits are set, the version is 1, and the bytes of the header that
// nothing reads aren't 0.
fn strange(alloc: Global) -> Result<Vec<u8>, Fail> {
    let mut bytes = new_session(alloc)?;
    if bytes.len() < 128 {
        return Err(Fail::from("length"));
    }
    bytes[1] = 0xa6;
    bytes[2] = 1;
    for place in 3..32 {
        bytes[place] = 100 + place as u8;
    }
    for place in 96..128 {
        bytes[place] = 100 + place as u8;
    }
    Ok(bytes)
}

/// A commit: the bytes of the state that it changes, its piece, and the bytes of the session that are other ones then.
type Commit<'a> = (&'a [(usize, u8)], &'a [u8], &'a [(usize, u8)]);

/// Commits in turn, after which the session has these bytes.
static COMMITS: [Commit<'static>; 5] = [
    // Slot 1, from 86,208 on, gets four change records, in rising offsets: 0, 300, 1,369 and 4,095.
    (
        &[(4_095, 1), (300, 4), (1_369, 2), (0, 9)],
        b"OK",
        &[
            (1, 1),
            (86_208, 4),
            (90_368, b'O'),
            (90_369, b'K'),
            (155_906, 9),
            (155_908, 44),
            (155_909, 1),
            (155_910, 4),
            (155_912, 89),
            (155_913, 5),
            (155_914, 2),
            (155_916, 255),
            (155_917, 15),
            (155_918, 1),
        ],
    ),
    // Slot 0, from 128 on, gets those that make the new state of the first one; no piece is written.
    (
        &[(300, 5), (1_369, 0)],
        b"",
        &[
            (1, 0),
            (128, 4),
            (69_826, 9),
            (69_828, 44),
            (69_829, 1),
            (69_830, 5),
            (69_832, 89),
            (69_833, 5),
            (69_836, 255),
            (69_837, 15),
            (69_838, 1),
        ],
    ),
    // Slot 1 again: four more, after those that it has.
    (
        &[(2, 200), (4_095, 0), (1_369, 4)],
        b"Dark",
        &[
            (1, 1),
            (86_208, 8),
            (90_368, b'D'),
            (90_369, b'a'),
            (90_370, b'r'),
            (90_371, b'k'),
            (155_920, 2),
            (155_922, 200),
            (155_924, 44),
            (155_925, 1),
            (155_926, 5),
            (155_928, 89),
            (155_929, 5),
            (155_930, 4),
            (155_932, 255),
            (155_933, 15),
        ],
    ),
    // Slot 0 gets three more, and has the state of slot 1 then; which has it already, and gets none.
    (
        &[],
        b"Dark",
        &[
            (1, 0),
            (128, 7),
            (4_288, b'D'),
            (4_289, b'a'),
            (4_290, b'r'),
            (4_291, b'k'),
            (69_840, 2),
            (69_842, 200),
            (69_844, 89),
            (69_845, 5),
            (69_846, 4),
            (69_848, 255),
            (69_849, 15),
        ],
    ),
    (&[], b"Dark", &[(1, 1)]),
];

#[test]
fn each_byte_that_commits_leave(rt: HostRuntime) -> Result<(), Fail> {
    let mut session = strange(rt.alloc())?;
    for &commit in &COMMITS {
        session = bytes_after_commit(rt.alloc(), session.as_slice(), commit)?;
    }
    Ok(())
}

/// What makes slot 1, from 86,208 on, which isn't chosen, one without a state: it is of version 1; it has too many
/// change records; one of them isn't sound; there is no room for three more. Each time one that stands where the
/// records are stays there.
static WITHOUT_STATE: [[(usize, u8); 4]; 4] = [
    [(86_208, 1), (86_209, 0), (86_210, 1), (155_904, 8)],
    [(86_208, 1), (86_209, 16), (86_210, 2), (155_904, 8)],
    [(86_208, 1), (86_209, 0), (86_210, 2), (155_907, 8)],
    [(86_208, 0xfe), (86_209, 15), (86_210, 2), (155_904, 8)],
];

/// A commit that writes the base whole.
const WHOLE_BASE: Commit<'static> = (
    &[(0, 3), (1_369, 1), (4_095, 6)],
    b"!",
    &[
        (1, 1),
        (86_208, 0),
        (86_209, 0),
        (86_210, 2),
        (86_272, 3),
        (86_280, 0),
        (87_641, 1),
        (90_367, 6),
        (90_368, b'!'),
    ],
);

#[test]
fn each_byte_where_the_base_is_written_whole(rt: HostRuntime) -> Result<(), Fail> {
    let session = strange(rt.alloc())?;
    for &slot in &WITHOUT_STATE {
        let session = with_bytes(rt.alloc(), session.as_slice(), &slot)?;
        let session = with_bytes(rt.alloc(), session.as_slice(), &[(86_280, 1)])?;
        bytes_after_commit(rt.alloc(), session.as_slice(), WHOLE_BASE)?;
    }
    Ok(())
}

/// The same commit where there is room for three records: the last of 4,096 ends the slot.
const LAST_RECORDS: Commit<'static> = (
    &[(0, 3), (1_369, 1), (4_095, 6)],
    b"!",
    &[
        (1, 1),
        (86_208, 0),
        (86_209, 16),
        (90_368, b'!'),
        (172_278, 3),
        (172_280, 89),
        (172_281, 5),
        (172_282, 1),
        (172_284, 255),
        (172_285, 15),
        (172_286, 6),
    ],
);

#[test]
fn a_slot_takes_4096_records(rt: HostRuntime) -> Result<(), Fail> {
    let session = strange(rt.alloc())?;
    let full = [(86_208, 0xfd), (86_209, 15)];
    let session = with_bytes(rt.alloc(), session.as_slice(), &full)?;
    bytes_after_commit(rt.alloc(), session.as_slice(), LAST_RECORDS)?;
    Ok(())
}
