// Lists of tables, in rising order or as a turn reads them.

ghost use Rattle.std.specs.Prelude.{◌≡◌, ◌≤◌, false, [], IfOk, length, filter, slice_get};
ghost use Rattle.std.specs.List.{range_with_len, slice_index_or, list_any};
ghost use Rattle.std.specs.Option.{unwrap_or};
ghost use Rattle.paw_check.specs.Calls.{is_call_of};
ghost use Rattle.paw_check.specs.inner.Capped.{MarksTables, called_among, condacts_of_entries, condacts_of_tables};

use paw_base::codes::PROCESS;
use paw_base::fault::NoRoom;
use paw_base::parts::Condact;
use paw_game::parts::{Entry, Table};
use std::alloc::Global;

/// The entries of the table with this number; none where there is no such table.
pub(crate) fn entries_of(tables: &[Table], number: u8) -> &[Entry]
    ensures value { result.now ≡ unwrap_or (slice_get tables.now number) [] }
{
    match tables.get(usize::from(number)) {
        Some(table) => table.rows.as_slice(),
        None => &[],
    }
}

// Marks the tables that these condacts call.
fn mark_called(condacts: &[Condact], marks: &mut [bool; 256])
    ensures marks { MarksTables marks.old marks.new (λ u. list_any (is_call_of u) condacts.now) }
{
    for condact in condacts {
        if condact.code == PROCESS {
            marks[usize::from(condact.a)] = true;
        }
    }
}

// Marks the tables that the condacts of these entries call.
fn mark_called_in(entries: &[Entry], marks: &mut [bool; 256])
    ensures marks { MarksTables marks.old marks.new (λ u. list_any (is_call_of u) (condacts_of_entries entries.now)) }
{
    for entry in entries {
        mark_called(entry.condacts.rows.as_slice(), marks);
    }
}

// Marks the tables that the condacts of the tables with these numbers call.
fn mark_called_from(tables: &[Table], from: &[u8], marks: &mut [bool; 256])
    ensures marks { MarksTables marks.old marks.new
        (λ u. list_any (is_call_of u) (condacts_of_tables tables.now from.now)) }
{
    for table in from {
        mark_called_in(entries_of(tables, *table), marks);
    }
}

/// The numbers below a count that are marked.
pub(crate) fn marked_numbers(
    alloc: Global,
    count: usize,
    marks: &[bool; 256],
) -> Result<Vec<u8>, NoRoom>
    requires few { count ≤ 256 }
    ensures value { IfOk result
        (λ numbers. numbers.items ≡ filter (λ u. slice_index_or marks.now u false) (range_with_len 0 count)) }
{
    let mut numbers = Vec::new(alloc);
    for number in 0..count {
        if marks[number] {
            numbers.push(number as u8)?;
        }
    }
    Ok(numbers)
}

/// The tables that those with these numbers call.
pub(crate) fn called_from(alloc: Global, tables: &[Table], from: &[u8]) -> Result<Vec<u8>, NoRoom>
    requires few { length tables.now ≤ 256 }
    ensures value { IfOk result (λ numbers. numbers.items ≡ called_among tables.now from.now) }
{
    let mut marks = [false; 256];
    mark_called_from(tables, from, &mut marks);
    let numbers = marked_numbers(alloc, tables.len(), &marks)?;
    Ok(numbers)
}
