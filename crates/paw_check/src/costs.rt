// What reading each table takes, level by level of calls. Numbers stop at the greatest of 32 bits.

ghost use Rattle.std.specs.Prelude.{◌≡◌, ◌≤◌, [], IfOk, length, slice_get};
ghost use Rattle.std.specs.Option.{unwrap_or};
ghost use Rattle.paw_base.specs.declared.limits.TheConstants.{LEVEL_LIMIT};
ghost use Rattle.paw_check.specs.Measures.{greatest};
ghost use Rattle.paw_check.specs.inner.Capped.{in_32_bits};
ghost use Rattle.paw_check.specs.inner.Levels.{HoldsLevel, HoldsCosts, round_taken};
ghost use Rattle.paw_check.specs.inner.Own.{own_in};

use crate::own::Own;
use crate::sums::{PerByte, greater, table_row};
use paw_base::fault::NoRoom;
use paw_base::limits::LEVEL_LIMIT;
use paw_base::tables::{DESCRIBED_TABLE, FRAME_TABLE, RESPONSE_TABLE};
use paw_game::parts::{Entry, GameParts, Table};
use std::alloc::Global;

// What reading each table takes for each verb, where the tables that it calls take this.
fn level(
    alloc: Global,
    parts: &GameParts,
    own: &Own,
    changing: bool,
    called: &[PerByte],
) -> Result<Vec<PerByte>, NoRoom>
    requires few { length called.now ≤ 256 }
    ensures long { IfOk result (λ rows. length rows.items ≡ length parts.now.tables) }
    ensures value { IfOk result (λ rows. HoldsLevel parts.now (own_in own.now) changing called.now rows.items) }
{
    let objects = count_of(parts.objects.len());
    let tables = parts.tables.as_slice();
    let mut rows = Vec::new(alloc);
    for number in 0..tables.len() {
        let entries = entries_at(tables, number);
        rows.push(table_row(own, changing, objects, called, entries))?;
    }
    Ok(rows)
}

// The entries of the table with this number; none where there is no such table.
fn entries_at(tables: &[Table], number: usize) -> &[Entry]
    ensures value { result.now ≡ unwrap_or (slice_get tables.now number) [] }
{
    match tables.get(number) {
        Some(table) => table.rows.as_slice(),
        None => &[],
    }
}

/// A number of things.
pub(crate) fn count_of(things: usize) -> u32
    ensures value { result ≡ in_32_bits things }
{
    things.min(u32::MAX as usize) as u32
}

// What reading each table takes for each verb, with ten levels of calls below it.
fn costs(
    alloc: Global,
    parts: &GameParts,
    own: &Own,
    changing: bool,
) -> Result<Vec<PerByte>, NoRoom>
    requires few { length parts.now.tables ≤ 256 }
    ensures long { IfOk result (λ rows. length rows.items ≡ length parts.now.tables) }
    ensures value { IfOk result (λ rows. HoldsCosts parts.now (own_in own.now) changing LEVEL_LIMIT rows.items) }
{
    let mut rows = level(alloc, parts, own, changing, &[])?;
    for _ in 0..LEVEL_LIMIT {
        let next = level(alloc, parts, own, changing, rows.as_slice())?;
        rows = next;
    }
    Ok(rows)
}

// The greatest number of a row.
fn greatest_of(row: &PerByte) -> u32
    ensures value { result ≡ greatest row.now }
    ensures long { length row.now ≡ 256 }
{
    let mut most = 0u32;
    for taken in row {
        most = greater(most, *taken);
    }
    most
}

/// What it takes at most to read each of a turn's tables once.
pub(crate) fn round_cost(
    alloc: Global,
    parts: &GameParts,
    own: &Own,
    changing: bool,
) -> Result<u32, NoRoom>
    requires some { 3 ≤ length parts.now.tables }
    requires few { length parts.now.tables ≤ 256 }
    ensures value { IfOk result (λ taken. taken ≡ in_32_bits (round_taken parts.now (own_in own.now) changing)) }
{
    let rows = costs(alloc, parts, own, changing)?;
    let response = greatest_of(&rows[RESPONSE_TABLE as usize]);
    let described = greatest_of(&rows[DESCRIBED_TABLE as usize]);
    let frame = greatest_of(&rows[FRAME_TABLE as usize]);
    Ok(response.saturating_add(described).saturating_add(frame))
}
