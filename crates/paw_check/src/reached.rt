// Which tables may be reached from some tables, level by level of calls.

ghost use Rattle.std.specs.Prelude.{◌≡◌, ◌≤◌, cond, IfOk, length, nat_lt};
ghost use Rattle.paw_base.specs.declared.limits.TheConstants.{LEVEL_LIMIT};
ghost use Rattle.paw_check.specs.Calls.{called_below, reached_from};
ghost use Rattle.paw_check.specs.Verbs.{is_among};
ghost use Rattle.paw_check.specs.inner.Capped.{MarksTables};
ghost use Rattle.paw_check.specs.inner.Reached.{levels_from};

use crate::sets::{called_from, marked_numbers};
use paw_base::fault::NoRoom;
use paw_base::limits::LEVEL_LIMIT;
use paw_game::parts::GameParts;
use std::alloc::Global;

/// The tables that may be reached from some tables: all of them, those ten levels of calls below, and how many levels
/// have a table.
#[derive(Drop)]
pub(crate) struct Reached {
    pub(crate) all: Vec<u8>,
    pub(crate) deepest: Vec<u8>,
    pub(crate) levels: u8,
}

// Marks the tables with these numbers.
fn mark(numbers: &[u8], marks: &mut [bool; 256])
    ensures value { MarksTables marks.old marks.new (is_among numbers.now) }
{
    for number in numbers {
        marks[usize::from(*number)] = true;
    }
}

// 1 if there is a table, otherwise 0.
fn one_if_any(numbers: &[u8]) -> u8
    ensures value { result ≡ cond (nat_lt 0 (length numbers.now)) 1 0 }
    ensures small { result ≤ 1 }
{
    if numbers.is_empty() { 0 } else { 1 }
}

/// The tables that reading these may reach within ten levels of calls.
pub(crate) fn reached_from(alloc: Global, parts: &GameParts, from: &[u8]) -> Result<Reached, NoRoom>
    requires few { length parts.now.tables ≤ 256 }
    ensures all { IfOk result (λ reached. reached.all.items ≡ reached_from parts.now from.now) }
    ensures deepest { IfOk result (λ reached. reached.deepest.items ≡ called_below parts.now from.now LEVEL_LIMIT) }
    ensures levels { IfOk result (λ reached. reached.levels ≡ levels_from parts.now from.now LEVEL_LIMIT) }
{
    let tables = parts.tables.as_slice();
    let mut marks = [false; 256];
    mark(from, &mut marks);
    let mut deepest = Vec::from_slice(alloc, from)?;
    let mut levels = 0u8;
    for _ in 0..LEVEL_LIMIT {
        let level = called_from(alloc, tables, deepest.as_slice())?;
        mark(level.as_slice(), &mut marks);
        levels += one_if_any(level.as_slice());
        deepest = level;
    }
    let all = marked_numbers(alloc, tables.len(), &marks)?;
    Ok(Reached {
        all,
        deepest,
        levels,
    })
}
