// Tests of a state's bytes: where each field stands, which one is named, and what comes back.

use crate::{Restored, STATE_LENGTH, STATE_ROOM, read_state, write_state};
use paw_base::codes::{DOALL, DONE, PROCESS, QUIT};
use paw_base::parts::ObjectFacts;
use paw_base::places::{CARRIED_PLACE, HERE_PLACE};
use paw_base::words::NO_WORD;
use paw_effects::act::Prompt;
use paw_effects::opening::opening_world;
use paw_game::game::Game;
use paw_game::parts::{Entry, Exits, GameParts, ObjectRow, Table, Text};
use paw_phrase::Pending;
use paw_process::Machine;
use paw_world::world::World;
use std::alloc::{AllocError, Global};
use std::process::Abort;
use std::test::Fail;

fn object(alloc: Global, start: u8) -> ObjectRow {
    ObjectRow {
        text: Text::new(alloc),
        facts: ObjectFacts {
            noun: NO_WORD,
            adjective: NO_WORD,
            start,
            weight: 1,
            container: false,
            wearable: false,
        },
    }
}

// An entry of any words.
fn entry(alloc: Global, codes: &[(u8, u8, u8)]) -> Result<Entry, AllocError> {
    Entry::from_codes(alloc, NO_WORD, NO_WORD, codes)
}

// A response table with a loop and with a call of table 3, which asks.
fn tables(alloc: Global) -> Result<Vec<Table>, AllocError> {
    let goes_round = entry(alloc, &[(DOALL, HERE_PLACE, 0)])?;
    let calls = entry(alloc, &[(PROCESS, 3, 0), (DONE, 0, 0)])?;
    let asks = entry(alloc, &[(QUIT, 0, 0)])?;
    let responses = vec![in alloc; goes_round, calls]?;
    let questions = vec![in alloc; asks]?;
    Ok(vec![in alloc;
        Table { rows: responses },
        Table::new(alloc),
        Table::new(alloc),
        Table { rows: questions },
    ]?)
}

// A game of two locations and two objects, of which the second is carried.
fn small_game(alloc: Global) -> Result<Game, Fail> {
    let game = Game::new(GameParts {
        words: Vec::new(alloc),
        system: Vec::new(alloc),
        messages: Vec::new(alloc),
        objects: vec![in alloc; object(alloc, 0), object(alloc, CARRIED_PLACE)]?,
        locations: vec![in alloc; Text::new(alloc), Text::new(alloc)]?,
        exits: vec![in alloc; Exits::new(alloc), Exits::new(alloc)]?,
        tables: tables(alloc)?,
    })?;
    Ok(game)
}

// The state at the start of a game with seed 7, whose first piece has 300 bytes.
fn opening_state(game: &Game) -> [u8; STATE_ROOM] {
    let world = opening_world(game, 7);
    let machine = Machine::new();
    write_state(&world, &machine, &Pending::new(), Prompt::Main, 0, 300)
}

/// The changes that give a state that waits inside a call inside a loop, after two lines, with `N` pending.
const WAITING: [(usize, u8); 13] = [
    (1039, 2),
    (1047, 1),
    (1048, 2),
    (1050, 1),
    (1053, 1),
    (1054, 3),
    (1104, 1),
    (1111, 1),
    (1112, 42),
    (1113, 1),
    (1114, b'N'),
    (1369, 0),
    (1370, 0),
];

// These bytes with a byte changed.
fn with_byte(rt: &impl Abort, bytes: &[u8; STATE_ROOM], at: usize, byte: u8) -> [u8; STATE_ROOM] {
    assert!(rt; at < STATE_ROOM);
    let mut changed = *bytes;
    changed[at] = byte;
    changed
}

fn waiting(rt: &impl Abort, game: &Game) -> [u8; STATE_ROOM] {
    let mut bytes = opening_state(game);
    for (at, byte) in &WAITING {
        bytes = with_byte(rt, &bytes, *at, *byte);
    }
    bytes
}

// The offset that is named as a fault, or none.
fn fault(game: &Game, bytes: &[u8; STATE_ROOM]) -> Option<u64> {
    match read_state(game, bytes) {
        Ok(_) => None,
        Err(fault) => Some(fault.at),
    }
}

// The bytes written of what was read.
fn bytes_of(read: &Restored) -> [u8; STATE_ROOM] {
    write_state(
        &read.world,
        &read.machine,
        &read.pending,
        read.prompt,
        read.events,
        read.piece,
    )
}

/// A byte that is changed in the state at the start, and the offset that is named then.
const NAMED: [(usize, u8, u64); 36] = [
    (256, 2, 256),
    (257, 255, 257),
    (258, 1, 258),
    (262, 1, 262),
    (510, 252, 510),
    (511, 2, 511),
    (512, 1, 512),
    (767, 9, 767),
    (768, 1, 768),
    (1022, 252, 1022),
    (1034, 1, 1031),
    (1042, 60, 1039),
    (1047, 5, 1047),
    (1047, 3, 1048),
    (1048, 1, 1048),
    (1049, 1, 1049),
    (1050, 1, 1050),
    (1051, 1, 1050),
    (1052, 1, 1052),
    (1053, 1, 1053),
    (1054, 3, 1054),
    (1103, 1, 1103),
    (1104, 1, 1104),
    (1105, 1, 1105),
    (1108, 1, 1107),
    (1111, 1, 1111),
    (1113, 1, 1113),
    (1114, 65, 1114),
    (1368, 65, 1368),
    (1371, 2, 1371),
    (1372, 1, 1372),
    (1628, 1, 1628),
    (1882, 252, 1882),
    (2395, 255, 2395),
    (2907, 2, 2907),
    (3418, 1, 3418),
];

/// The same for the state that waits.
const NAMED_WAITING: [(usize, u8, u64); 25] = [
    (1047, 0, 1048),
    (1047, 2, 1057),
    (1047, 4, 1048),
    (1048, 0, 1048),
    (1048, 1, 1052),
    (1048, 3, 1057),
    (1048, 12, 1048),
    (1049, 3, 1049),
    (1050, 2, 1050),
    (1051, 16, 1050),
    (1052, 1, 1052),
    (1053, 2, 1053),
    (1054, 4, 1054),
    (1055, 1, 1055),
    (1057, 1, 1057),
    (1058, 2, 1058),
    (1059, 1, 1059),
    (1104, 0, 1111),
    (1104, 2, 1104),
    (1105, 2, 1105),
    (1106, 3, 1106),
    (1107, 1, 1109),
    (1109, 1, 1109),
    (1110, 2, 1110),
    (1113, 0, 1114),
];

/// The same for the state at the start with the second position kept, whose bytes are 0 but for the first.
static NAMED_KEPT: [(usize, u8, Option<u64>); 9] = [
    (1883, 2, Some(1883)),
    (1884, 255, None),
    (2140, 1, None),
    (2140, 2, Some(2140)),
    (2141, 255, Some(2141)),
    (2141, 254, None),
    (2142, 1, Some(2142)),
    (2394, 252, Some(2394)),
    (1114, 65, Some(1114)),
];

/// Bytes that may be anything: a flag, the seed, the earlier verb, the length of the piece, whether a position is kept,
/// and what isn't read.
const FREE: [(usize, u8); 8] = [
    (0, 255),
    (255, 1),
    (1030, 255),
    (1112, 255),
    (1370, 255),
    (1371, 1),
    (2907, 1),
    (3419, 2),
];

/// A number of eight bytes at an offset of the state at the start, and the offset that is named then.
const LIMITS: [(usize, u64, Option<u64>); 4] = [
    (1031, 200_000, None),
    (1031, 200_001, Some(1031)),
    (1039, 1_000_000_000, None),
    (1039, 1_000_000_001, Some(1039)),
];

// These bytes with a number of eight bytes changed.
fn with_number(
    rt: &impl Abort,
    bytes: &[u8; STATE_ROOM],
    at: usize,
    number: u64,
) -> [u8; STATE_ROOM] {
    assert!(rt; at < STATE_LENGTH);
    let mut changed = *bytes;
    changed[at..at + 8].copy_from_slice(&number.to_le_bytes());
    changed
}

#[test]
fn draws_and_lines_at_their_limits(rt: HostRuntime) -> Result<(), Fail> {
    let game = small_game(rt.alloc())?;
    let bytes = opening_state(&game);
    for (at, number, named) in &LIMITS {
        let changed = with_number(&rt, &bytes, *at, *number);
        assert_eq!(rt; fault(&game, &changed), *named, "{number}");
    }
    Ok(())
}

// Checks which offset is named where a byte of a state is changed.
fn names(
    rt: &impl Abort,
    game: &Game,
    bytes: &[u8; STATE_ROOM],
    (at, byte, named): (usize, u8, Option<u64>),
) {
    let changed = with_byte(rt, bytes, at, byte);
    assert_eq!(rt; fault(game, &changed), named, "{at} {byte}");
}

#[test]
fn the_first_broken_rule_is_named(rt: HostRuntime) -> Result<(), Fail> {
    let game = small_game(rt.alloc())?;
    let bytes = opening_state(&game);
    for (at, byte, named) in &NAMED {
        names(&rt, &game, &bytes, (*at, *byte, Some(*named)));
    }
    for (at, byte) in &FREE {
        names(&rt, &game, &bytes, (*at, *byte, None));
    }
    Ok(())
}

#[test]
fn a_kept_position_names_its_bytes_after_all_others(rt: HostRuntime) -> Result<(), Fail> {
    let game = small_game(rt.alloc())?;
    let bytes = with_byte(&rt, &opening_state(&game), 1883, 1);
    for &row in &NAMED_KEPT {
        names(&rt, &game, &bytes, row);
    }
    let late = with_byte(&rt, &bytes, 2142, 1);
    names(&rt, &game, &late, (1372, 1, Some(1372)));
    names(&rt, &game, &late, (1114, 65, Some(1114)));
    Ok(())
}

#[test]
fn a_state_that_waits_names_its_frames_and_loop(rt: HostRuntime) -> Result<(), Fail> {
    let game = small_game(rt.alloc())?;
    let bytes = waiting(&rt, &game);
    assert_eq!(rt; fault(&game, &bytes), None);
    for (at, byte, named) in &NAMED_WAITING {
        names(&rt, &game, &bytes, (*at, *byte, Some(*named)));
    }
    Ok(())
}

#[test]
fn what_is_read_is_written_again(rt: HostRuntime) -> Result<(), Fail> {
    let game = small_game(rt.alloc())?;
    for bytes in [opening_state(&game), waiting(&rt, &game)] {
        let read = read_state(&game, &bytes)?;
        assert_eq!(rt; bytes_of(&read), bytes);
    }
    Ok(())
}

// Compares the machine of the state that waits: a table that calls another.
fn compare_machine(rt: &impl Abort, machine: &Machine) {
    let frames = machine.frames();
    let [first, second, ..] = &frames.rows;
    assert_eq!(rt; frames.count, 2);
    assert_eq!(rt; (first.entry, first.acted), (1, true));
    assert_eq!(rt; (second.table, second.acted), (3, false));
}

#[test]
fn the_parts_of_a_state_that_waits(rt: HostRuntime) -> Result<(), Fail> {
    let game = small_game(rt.alloc())?;
    let read = read_state(&game, &waiting(&rt, &game))?;
    assert_eq!(rt;
        (read.prompt, read.events, read.piece),
        (Prompt::Quit, 2, 0)
    );
    assert_eq!(rt; read.pending.bytes(), b"N".as_slice());
    assert_eq!(rt; read.pending.earlier(), 42);
    compare_machine(&rt, &read.machine);
    Ok(())
}

#[test]
fn the_world_of_a_state_that_waits(rt: HostRuntime) -> Result<(), Fail> {
    let game = small_game(rt.alloc())?;
    let world = read_state(&game, &waiting(&rt, &game))?.world;
    assert_eq!(rt; world.seed(), 7);
    assert_eq!(rt; world.places(), [0, CARRIED_PLACE].as_slice());
    assert_eq!(rt; world.flags()[1], 1);
    assert!(rt; !world.saved());
    Ok(())
}

// The bytes of a state of this world, where no table is open and no line waits.
fn bytes_with(world: &World, prompt: Prompt, events: u64) -> [u8; STATE_ROOM] {
    write_state(world, &Machine::new(), &Pending::new(), prompt, events, 9)
}

// A world with a saved position, and 400,000 draws.
fn saved_world(rt: &impl Abort, game: &Game) -> World {
    let mut world = opening_world(game, 7);
    let flags = *world.flags();
    assert!(rt; world.objects() == 2);
    world.set_flag(100, 9);
    world.move_to(0, 1);
    world.ramsave();
    world.set_position(&flags, &[252, 253]);
    assert!(rt; world.draws() == 0);
    world.skip(400_000);
    world
}

// Compares what came back of that world.
fn compare_saved(rt: &impl Abort, read: &World) {
    assert_eq!(rt; read.places(), [252, 253].as_slice());
    assert_eq!(rt; read.draws(), 400_000);
    let (saved_flags, saved_places) = read.saved_position().expect(rt, "a saved position");
    assert_eq!(rt; saved_flags[100], 9);
    assert_eq!(rt; saved_places, [1, CARRIED_PLACE].as_slice());
}

#[test]
fn a_saved_position_comes_back(rt: HostRuntime) -> Result<(), Fail> {
    let game = small_game(rt.alloc())?;
    let bytes = bytes_with(&saved_world(&rt, &game), Prompt::Over, 1);
    let read = read_state(&game, &bytes)?;
    assert!(rt; bytes_of(&read) == bytes);
    assert_eq!(rt; read.prompt, Prompt::Over);
    compare_saved(&rt, &read.world);
    Ok(())
}

#[test]
fn draws_come_back(rt: HostRuntime) -> Result<(), Fail> {
    let game = small_game(rt.alloc())?;
    let mut world = saved_world(&rt, &game);
    let bytes = bytes_with(&world, Prompt::Over, 1);
    let mut read = read_state(&game, &bytes)?.world;
    assert!(rt; world.draws() < 1_000_000 && read.draws() < 1_000_000);
    assert_eq!(rt; read.draw(), world.draw());
    Ok(())
}

// A world with a second and a fourth position that are kept, and no other.
fn kept_world(rt: &impl Abort, game: &Game) -> World {
    let mut world = opening_world(game, 7);
    let flags = *world.flags();
    world.set_flag(58, 3);
    world.keep(3);
    assert!(rt; world.objects() == 2);
    world.set_position(&flags, &[252, 253]);
    world.set_flag(200, 5);
    world.keep(1);
    world.restart();
    world
}

/// Bytes of its state.
const KEPT: [(usize, u8); 9] = [
    (1371, 0),
    (1883, 1),
    (2395, 0),
    (2907, 1),
    (1883 + 1 + 200, 5),
    (1883 + 257, 252),
    (1883 + 258, 253),
    (2907 + 1 + 58, 3),
    (2907 + 257 + 1, CARRIED_PLACE),
];

// Compares what came back of that world.
fn compare_kept(rt: &impl Abort, read: &World) {
    assert!(rt; !read.has_kept(0) && !read.has_kept(2));
    let (kept_flags, kept_places) = read.kept_position(1).expect(rt, "a kept position");
    assert_eq!(rt; kept_flags[200], 5);
    assert_eq!(rt; kept_places, [252, 253].as_slice());
}

#[test]
fn kept_positions_come_back(rt: HostRuntime) -> Result<(), Fail> {
    let game = small_game(rt.alloc())?;
    let bytes = bytes_with(&kept_world(&rt, &game), Prompt::Main, 4);
    for (at, byte) in &KEPT {
        assert_eq!(rt; bytes.get(*at), Some(byte), "{at}");
    }
    let read = read_state(&game, &bytes)?;
    assert!(rt; bytes_of(&read) == bytes);
    compare_kept(&rt, &read.world);
    Ok(())
}
