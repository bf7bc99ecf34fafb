// The rules of a state's fields.

ghost use Rattle.std.specs.Prelude.{◌≡◌, ◌+◌, ◌<◌, ◌≤◌, ◌^◌, ◌*◌, length, slice_get};
ghost use Rattle.std.specs.Prelude.{None, drop, ◌≢◌, ◌==◌, false};
ghost use Rattle.std.specs.Option.{option_map_or, unwrap_or};
ghost use Rattle.paw_game.specs.Valid.{Valid, is_place};
ghost use Rattle.paw_state.specs.declared.fields.TheConstants.{POSITION_LENGTH, FRAME_LENGTH, STATE_ROOM, SEED, PROMPT};
ghost use Rattle.paw_state.specs.declared.fields.TheConstants.{FRAMES, LOOPING, LOOP_LEVEL, EARLIER, LINE};
ghost use Rattle.paw_state.specs.inner.Faults.{rule, first_not, is_zero, places_fault, absent_fault, position_fault};
ghost use Rattle.paw_state.specs.inner.Faults.{kept_fault, unused_fault, used_fault, frame_fault, frame_fields_fault};
ghost use Rattle.paw_state.specs.inner.Fields.{parts_fault};
ghost use Rattle.paw_state.specs.inner.Faults.{fault_of};
ghost use Rattle.paw_state.specs.Fields.{prompt_of, fault_from, number_fields, prompt_fields, looping_fields};
ghost use Rattle.paw_state.specs.Fields.{loop_fields, pending_fields, inside};

use crate::StateFault;
use crate::fields::{
    COUNT, DRAWS, EVENTS, FRAME_ACTED, FRAME_AT, FRAME_ENTRY, FRAME_LENGTH, FRAMES, Fields,
    FrameField, KEPT, LINE, LOOP_AT, LOOP_ENTRY, LOOP_LAST, LOOP_LEVEL, LOOP_PLACE, LOOP_TABLE,
    LOOPING, PENDING, PLACES, POSITION_FLAGS, POSITION_LENGTH, POSITION_PLACES, PROMPT, SAVED,
};
use crate::position_field::PositionField;
use paw_base::codes::{DOALL, PROCESS};
use paw_base::limits::{EVENT_LIMIT, READ_LIMIT};
use paw_effects::act::Prompt;
use paw_game::tables::Tables;
use paw_process::{count_fits, has_code, is_place, may_open, parameter_of, waiting_code};
use paw_reading::frames::OpenLoop;

/// The most random words that may be drawn in a piece.
const MOST_DRAWS: u64 = READ_LIMIT as u64;

// Names this offset as a fault, unless the rule holds.
fn rule(at: usize, holds: bool) -> Result<(), StateFault>
    ensures value { fault_of result ≡ rule at holds }
{
    if holds {
        Ok(())
    } else {
        Err(StateFault { at: at as u64 })
    }
}

// Names the first byte that isn't 0 as a fault.
fn all_zero(at: usize, bytes: &[u8]) -> Result<(), StateFault>
    requires near { at + length bytes.now < 2 ^ 64 }
    ensures value { fault_of result ≡ first_not is_zero at bytes.now }
{
    for (i, byte) in bytes.iter().enumerate() {
        rule(at + i, *byte == 0)?;
    }
    Ok(())
}

// Names the first byte that is no place of a game with this many locations as a fault.
fn all_places(locations: u16, at: usize, places: &[u8]) -> Result<(), StateFault>
    requires near { at + length places.now < 2 ^ 64 }
    ensures value { fault_of result ≡ first_not (is_place locations) at places.now }
{
    for (i, place) in places.iter().enumerate() {
        rule(at + i, is_place(locations, *place))?;
    }
    Ok(())
}

// Checks the places of the objects, and the zeros after them.
fn check_places<T: Tables>(tables: &T, at: usize, places: &[u8; 255]) -> Result<(), StateFault>
    requires near { at < STATE_ROOM }
    ensures value { fault_of result ≡ places_fault (T.game tables.now) at places.now }
    ensures valid { Valid (T.game tables.now) }
{
    let counts = tables.counts();
    let objects = counts.objects as usize;
    all_places(counts.locations, at, &places[..objects])?;
    all_zero(at + objects, &places[objects..])
}

// Checks the flags and the places of a position that isn't there.
fn check_absent(at: usize, position: &PositionField) -> Result<(), StateFault>
    requires near { at + POSITION_LENGTH ≤ STATE_ROOM }
    ensures value { fault_of result ≡ absent_fault at position.now }
{
    all_zero(at + POSITION_FLAGS, &position.flags)?;
    all_zero(at + POSITION_PLACES, &position.places)
}

// Checks a position that may be there.
fn check_position<T: Tables>(
    tables: &T,
    at: usize,
    position: &PositionField,
) -> Result<(), StateFault>
    requires near { at + POSITION_LENGTH ≤ STATE_ROOM }
    ensures value { fault_of result ≡ position_fault (T.game tables.now) at position.now }
{
    rule(at, position.there <= 1)?;
    if position.there == 0 {
        check_absent(at, position)
    } else {
        check_places(tables, at + POSITION_PLACES, &position.places)
    }
}

// Checks these positions, the first of which stands at this offset.
fn check_kept<T: Tables>(tables: &T, at: usize, kept: &[PositionField]) -> Result<(), StateFault>
    requires near { at + POSITION_LENGTH * length kept.now ≤ STATE_ROOM }
    ensures value { fault_of result ≡ kept_fault (T.game tables.now) at kept.now }
{
    let Some((position, rest)) = kept.split_first() else {
        return Ok(());
    };
    check_position(tables, at, position)?;
    check_kept(tables, at + POSITION_LENGTH, rest)
}

// Checks the numbers of lines and of draws.
#[tactic(auto, unfolding(crate::specs::Fields::fault_from))]
fn check_numbers<T: Tables>(_tables: &T, fields: &Fields) -> Result<(), StateFault>
    ensures value { fault_of result ≡ fault_from (T.game _tables.now) SEED (number_fields fields.now) }
{
    rule(EVENTS, fields.events <= EVENT_LIMIT)?;
    rule(DRAWS, fields.draws <= MOST_DRAWS * (fields.events + 1))
}

/// The prompt of a code from 0 to 4.
#[tactic(auto, using(crate::proofs::Firsts::prompt_chain))]
pub(crate) fn prompt_of(code: u8) -> Prompt
    ensures value { result ≡ prompt_of code }
{
    match code {
        0 => Prompt::Main,
        1 => Prompt::Quit,
        2 => Prompt::Again,
        3 => Prompt::Key,
        _ => Prompt::Over,
    }
}

// Checks the prompt, and the number of open tables.
#[tactic(auto, unfolding(crate::specs::Fields::fault_from))]
fn check_prompt<T: Tables>(_tables: &T, fields: &Fields) -> Result<(), StateFault>
    ensures value { fault_of result ≡ fault_from (T.game _tables.now) PROMPT (prompt_fields fields.now) }
{
    rule(PROMPT, fields.prompt <= 4)?;
    rule(
        COUNT,
        count_fits(waiting_code(prompt_of(fields.prompt)), fields.count),
    )
}

// Checks a frame that isn't used.
fn check_unused(at: usize, row: &FrameField) -> Result<(), StateFault>
    requires near { at < STATE_ROOM }
    ensures value { fault_of result ≡ unused_fault at row.now }
{
    rule(at, row.table == 0)?;
    rule(at + FRAME_ENTRY, row.entry == 0)?;
    rule(at + FRAME_AT, row.at == 0)?;
    rule(at + FRAME_ACTED, row.acted == 0)
}

// Checks a frame that is used, at a condact of this code.
fn check_used<T: Tables>(
    tables: &T,
    code: u8,
    caller: Option<u8>,
    at: usize,
    row: &FrameField,
) -> Result<(), StateFault>
    requires near { at < STATE_ROOM }
    ensures value { fault_of result ≡ used_fault (T.game tables.now) code caller at row.now }
{
    let condact = tables.condact(row.table, row.entry, row.at);
    rule(at, may_open(caller, row.table))?;
    rule(
        at + FRAME_ENTRY,
        tables.head(row.table, row.entry).is_some(),
    )?;
    rule(at + FRAME_AT, has_code(code, condact))?;
    rule(at + FRAME_ACTED, row.acted <= 1)
}

// Checks a frame from which on this many are used: the last of these at this condact.
fn check_frame<T: Tables>(
    tables: &T,
    code: u8,
    caller: Option<u8>,
    used: u8,
    at: usize,
    row: &FrameField,
) -> Result<(), StateFault>
    requires near { at < STATE_ROOM }
    ensures value { fault_of result ≡ frame_fault (T.game tables.now) code caller used at row.now }
{
    match used {
        0 => check_unused(at, row),
        1 => check_used(tables, code, caller, at, row),
        _ => check_used(tables, PROCESS, caller, at, row),
    }
}

// Checks these frames, the first of which stands at this offset.
fn check_each_frame<T: Tables>(
    tables: &T,
    code: u8,
    caller: Option<u8>,
    used: u8,
    at: usize,
    rows: &[FrameField],
) -> Result<(), StateFault>
    requires near { at + FRAME_LENGTH * length rows.now < STATE_ROOM }
    ensures value { fault_of result ≡ frame_fields_fault (T.game tables.now) code caller used at rows.now }
{
    let Some((row, rest)) = rows.split_first() else {
        return Ok(());
    };
    check_frame(tables, code, caller, used, at, row)?;
    let called = parameter_of(tables.condact(row.table, row.entry, row.at));
    let left = used.saturating_sub(1);
    check_each_frame(tables, code, Some(called), left, at + FRAME_LENGTH, rest)
}

// Checks the frames of the open tables, and the unused ones after them.
fn check_frames<T: Tables>(tables: &T, fields: &Fields) -> Result<(), StateFault>
    ensures value { fault_of result ≡
        frame_fields_fault (T.game tables.now) (unwrap_or (inside fields.now) 0) None fields.now.count FRAMES
        fields.now.rows }
{
    let code = waiting_code(prompt_of(fields.prompt)).unwrap_or(0);
    check_each_frame(tables, code, None, fields.count, FRAMES, &fields.rows)
}

// Checks the bytes of a loop where none is open.
#[tactic(auto, unfolding(crate::specs::Fields::fault_from, crate::specs::Fields::if_there))]
fn check_no_loop<T: Tables>(
    _tables: &T,
    fields: &Fields,
    turning: &OpenLoop,
) -> Result<(), StateFault>
    ensures value { fields.now.looping ≡ 0 →
        fault_of result ≡ fault_from (T.game _tables.now) LOOP_LEVEL (loop_fields fields.now turning.now) }
{
    rule(LOOP_LEVEL, turning.level == 0)?;
    rule(LOOP_TABLE, turning.table == 0)?;
    rule(LOOP_ENTRY, turning.entry == 0)?;
    rule(LOOP_AT, turning.at == 0)?;
    rule(LOOP_PLACE, turning.place == 0)?;
    rule(LOOP_LAST, turning.last == 0)
}

// Checks an open loop.
#[tactic(auto, unfolding(crate::specs::Fields::fault_from, crate::specs::Fields::if_there))]
fn check_loop<T: Tables>(tables: &T, fields: &Fields, turning: &OpenLoop) -> Result<(), StateFault>
    ensures value { fields.now.looping ≢ 0 →
        fault_of result ≡ fault_from (T.game tables.now) LOOP_LEVEL (loop_fields fields.now turning.now) }
{
    let counts = tables.counts();
    let condact = tables.condact(turning.table, turning.entry, turning.at);
    rule(LOOP_LEVEL, turning.level < fields.count)?;
    rule(
        LOOP_TABLE,
        is_table_at(&fields.rows, turning.level, turning.table),
    )?;
    rule(
        LOOP_ENTRY,
        tables.head(turning.table, turning.entry).is_some(),
    )?;
    rule(LOOP_AT, has_code(DOALL, condact))?;
    rule(LOOP_PLACE, is_place(counts.locations, turning.place))?;
    rule(LOOP_LAST, u16::from(turning.last) < counts.objects)
}

// Whether the frame of this level belongs to this table.
fn is_table_at(rows: &[FrameField], level: u8, table: u8) -> bool
    ensures value { result ≡ option_map_or (λ r. table == r.table) (slice_get rows.now level) false }
{
    match rows.get(level as usize) {
        None => false,
        Some(row) => table == row.table,
    }
}

// Checks the bytes of the loop, open or not.
fn check_turning<T: Tables>(tables: &T, fields: &Fields) -> Result<(), StateFault>
    ensures value { fault_of result ≡
        fault_from (T.game tables.now) LOOP_LEVEL (loop_fields fields.now fields.now.turning) }
{
    if fields.looping == 0 {
        check_no_loop(tables, fields, &fields.turning)
    } else {
        check_loop(tables, fields, &fields.turning)
    }
}

// Checks whether a loop is open, and its bytes.
#[tactic(auto, unfolding(crate::specs::Fields::fault_from))]
fn check_open_loop<T: Tables>(tables: &T, fields: &Fields) -> Result<(), StateFault>
    ensures value { fault_of result ≡ fault_from (T.game tables.now) LOOPING (looping_fields fields.now) }
{
    let most = if fields.count == 0 { 0 } else { 1 };
    rule(LOOPING, fields.looping <= most)?;
    check_turning(tables, fields)
}

// Checks the zeros after the bytes that are pending.
fn check_rest(fields: &Fields) -> Result<(), StateFault>
    ensures value { fault_of result ≡
        first_not is_zero (LINE + fields.now.pending) (drop fields.now.pending fields.now.line) }
{
    let pending = fields.pending as usize;
    all_zero(LINE + pending, &fields.line[pending..])
}

// Checks what is pending.
#[tactic(auto, using(crate::proofs::Firsts::line_same), unfolding(crate::specs::Fields::fault_from))]
fn check_pending<T: Tables>(_tables: &T, fields: &Fields) -> Result<(), StateFault>
    ensures value { fault_of result ≡ fault_from (T.game _tables.now) EARLIER (pending_fields fields.now) }
{
    let inside = waiting_code(prompt_of(fields.prompt)).is_some();
    rule(PENDING, inside || fields.pending == 0)?;
    check_rest(fields)
}

/// Checks all fields, and names the first that breaks its rule in this game as a fault.
pub(crate) fn check<T: Tables>(tables: &T, fields: &Fields) -> Result<(), StateFault>
    ensures value { fault_of result ≡ parts_fault (T.game tables.now) fields.now }
    ensures valid { Valid (T.game tables.now) }
{
    check_places(tables, PLACES, &fields.places)?;
    check_position(tables, SAVED, &fields.saved)?;
    check_numbers(tables, fields)?;
    check_prompt(tables, fields)?;
    check_frames(tables, fields)?;
    check_open_loop(tables, fields)?;
    check_pending(tables, fields)?;
    check_kept(tables, KEPT, &fields.kept)
}
