// What is kept of a machine that waits inside calls and a loop, whole and with a fault at each place.

use super::game::asking_game;
use paw_effects::act::Prompt;
use paw_game::game::Game;
use paw_process::{Frames, Machine};
use paw_reading::frames::{Frame, OpenLoop};
use std::process::Abort;
use std::test::Fail;

fn row(table: u8, entry: u16, at: u8, acted: bool) -> Frame {
    Frame {
        table,
        entry,
        at,
        acted,
    }
}

fn turning(level: u8, table: u8, entry: u16, at: u8, place: u8, last: u8) -> OpenLoop {
    OpenLoop {
        level,
        table,
        entry,
        at,
        place,
        last,
    }
}

const UNUSED: Frame = Frame {
    table: 0,
    entry: 0,
    at: 0,
    acted: false,
};

/// The key is waited for in a called table, inside its loop over what is carried.
pub(super) fn waiting() -> Frames {
    let mut rows = [UNUSED; 11];
    rows[0] = row(0, 3, 0, true);
    rows[1] = row(4, 1, 0, true);
    Frames {
        count: 2,
        rows,
        turning: Some(turning(1, 4, 0, 0, 254, 2)),
    }
}

// This many open tables, of which these are the first, and no open loop.
fn open_frames(count: u8, first: Frame, second: Frame) -> Frames {
    let mut rows = [UNUSED; 11];
    rows[0] = first;
    rows[1] = second;
    Frames {
        count,
        rows,
        turning: None,
    }
}

// The depth of the fault with which frames are refused.
fn refused_at(game: &Game, kept: &Frames, prompt: Prompt) -> Option<u8> {
    match Machine::restore(game, kept, prompt) {
        Ok(_) => None,
        Err(fault) => Some(fault.depth),
    }
}

/// A depth, the row that is put there, and where that is refused.
static ROWS: [(usize, (u8, u16, u8, bool), Option<u8>); 19] = [
    // Whether an action was carried out is free.
    (0, (0, 3, 0, false), None),
    (1, (4, 1, 0, false), None),
    // The outermost table is 0, 1 or 2, and calls the next.
    (0, (3, 0, 0, true), Some(0)),
    (0, (9, 0, 0, true), Some(0)),
    (0, (0, 1, 0, true), Some(1)),
    // The condact isn't there, or is another.
    (0, (0, 3, 2, true), Some(0)),
    (0, (0, 19, 0, true), Some(0)),
    (0, (0, 3, 1, true), Some(0)),
    (0, (0, 259, 0, true), Some(0)),
    (1, (4, 1, 2, true), Some(1)),
    (1, (4, 2, 0, true), Some(1)),
    (1, (4, 1, 1, true), Some(1)),
    // The table isn't the one that is called.
    (1, (3, 0, 0, true), Some(1)),
    (1, (5, 0, 0, true), Some(1)),
    // The rows after them are unused.
    (2, (4, 0, 0, false), Some(2)),
    (3, (0, 256, 0, false), Some(3)),
    (4, (0, 0, 1, false), Some(4)),
    (5, (0, 0, 0, true), Some(5)),
    (10, (4, 1, 0, true), Some(10)),
];

// Checks where frames are refused at the key with this row at a depth, and with it at the greatest depth too.
fn row_is_refused(rt: &impl Abort, game: &Game, depth: usize, row: Frame, fault: Option<u8>) {
    let mut kept = waiting();
    if let Some(place) = kept.rows.get_mut(depth) {
        *place = row;
    }
    assert_eq!(rt; refused_at(game, &kept, Prompt::Key), fault, "{depth}");
    // The least depth is named.
    kept.rows[10] = row;
    let least = fault.or(Some(10));
    assert_eq!(rt; refused_at(game, &kept, Prompt::Key), least, "{depth}");
}

#[test]
fn rows_are_refused_by_their_depth(rt: HostRuntime) -> Result<(), Fail> {
    let game = asking_game(rt.alloc())?;
    for &(depth, (table, entry, at, acted), fault) in &ROWS {
        row_is_refused(&rt, &game, depth, row(table, entry, at, acted), fault);
    }
    Ok(())
}

/// Open loops, and where they are refused.
static LOOPS: [((u8, u8, u16, u8, u8, u8), Option<u8>); 19] = [
    ((1, 4, 0, 0, 254, 2), None),
    ((1, 4, 0, 0, 3, 0), None),
    ((1, 4, 0, 0, 252, 1), None),
    ((0, 0, 2, 0, 0, 1), None),
    // The level isn't open, or is of another table.
    ((2, 0, 2, 0, 0, 1), Some(11)),
    ((11, 4, 0, 0, 254, 2), Some(11)),
    ((255, 4, 0, 0, 254, 2), Some(11)),
    ((1, 255, 0, 0, 254, 2), Some(11)),
    ((0, 4, 0, 0, 254, 2), Some(11)),
    ((1, 0, 2, 0, 0, 1), Some(11)),
    // The condact isn't there, or is another.
    ((1, 4, 2, 0, 254, 2), Some(11)),
    ((1, 4, 0, 1, 254, 2), Some(11)),
    ((1, 4, 1, 0, 254, 2), Some(11)),
    ((0, 0, 3, 0, 0, 1), Some(11)),
    // No object stands at such a place.
    ((1, 4, 0, 0, 4, 2), Some(11)),
    ((1, 4, 0, 0, 251, 2), Some(11)),
    ((1, 4, 0, 0, 255, 2), Some(11)),
    // There is no such object.
    ((1, 4, 0, 0, 254, 3), Some(11)),
    ((1, 4, 0, 0, 254, 255), Some(11)),
];

// Checks where frames are refused at the key with this loop, and with it and a row that breaks a rule.
fn loop_is_refused(rt: &impl Abort, game: &Game, turning: OpenLoop, fault: Option<u8>) {
    let mut kept = waiting();
    kept.turning = Some(turning);
    assert_eq!(rt; refused_at(game, &kept, Prompt::Key), fault, "{turning:?}");
    // A row that breaks a rule comes first.
    kept.rows[1] = UNUSED;
    let first = Some(1);
    assert_eq!(rt; refused_at(game, &kept, Prompt::Key), first, "{turning:?}");
}

#[test]
fn loops_are_refused_behind_the_rows(rt: HostRuntime) -> Result<(), Fail> {
    let game = asking_game(rt.alloc())?;
    for &((level, table, entry, at, place, last), fault) in &LOOPS {
        let turning = turning(level, table, entry, at, place, last);
        loop_is_refused(&rt, &game, turning, fault);
    }
    Ok(())
}

const QUITTING: Frame = Frame {
    table: 0,
    entry: 6,
    at: 0,
    acted: false,
};

const ENDING: Frame = Frame { at: 1, ..QUITTING };

const CALLING: Frame = Frame {
    table: 0,
    entry: 1,
    at: 0,
    acted: false,
};

const CALLED: Frame = Frame {
    table: 3,
    entry: 0,
    at: 0,
    acted: false,
};

/// A prompt, how many tables are open, the first rows, and where they are refused.
static PROMPTS: [(Prompt, u8, Frame, Frame, Option<u8>); 17] = [
    (Prompt::Main, 0, UNUSED, UNUSED, None),
    (Prompt::Over, 0, UNUSED, UNUSED, None),
    (Prompt::Quit, 1, QUITTING, UNUSED, None),
    (Prompt::Again, 1, ENDING, UNUSED, None),
    (Prompt::Quit, 2, CALLING, CALLED, None),
    // The outermost table may not be one that is only called.
    (Prompt::Quit, 1, CALLED, UNUSED, Some(0)),
    // Another prompt's condact.
    (Prompt::Again, 1, QUITTING, UNUSED, Some(0)),
    (Prompt::Key, 1, QUITTING, UNUSED, Some(0)),
    (Prompt::Quit, 1, ENDING, UNUSED, Some(0)),
    // Another number of rows.
    (Prompt::Quit, 0, QUITTING, UNUSED, Some(0)),
    (Prompt::Quit, 2, QUITTING, UNUSED, Some(0)),
    (Prompt::Quit, 12, QUITTING, UNUSED, Some(0)),
    (Prompt::Quit, 1, CALLING, CALLED, Some(0)),
    (Prompt::Quit, 3, CALLING, CALLED, Some(1)),
    (Prompt::Main, 1, QUITTING, UNUSED, Some(0)),
    // Rows where none is used.
    (Prompt::Main, 0, QUITTING, UNUSED, Some(0)),
    (Prompt::Over, 0, UNUSED, CALLED, Some(1)),
];

#[test]
fn prompts_want_their_condact_and_their_number_of_rows(rt: HostRuntime) -> Result<(), Fail> {
    let game = asking_game(rt.alloc())?;
    for &(prompt, count, first, second, fault) in &PROMPTS {
        let found = refused_at(&game, &open_frames(count, first, second), prompt);
        assert_eq!(rt; found, fault, "{prompt:?}, {count}, {first:?}");
    }
    Ok(())
}

#[test]
fn another_prompt_refuses_rows_and_a_loop_alone(rt: HostRuntime) -> Result<(), Fail> {
    let game = asking_game(rt.alloc())?;
    let mut looping = open_frames(0, UNUSED, UNUSED);
    looping.turning = Some(turning(0, 0, 2, 0, 0, 1));
    assert_eq!(rt; refused_at(&game, &looping, Prompt::Main), Some(11));
    assert_eq!(rt; refused_at(&game, &waiting(), Prompt::Quit), Some(1));
    assert_eq!(rt; refused_at(&game, &waiting(), Prompt::Over), Some(0));
    Ok(())
}
