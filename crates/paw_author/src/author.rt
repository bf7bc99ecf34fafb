// The plain source of the files that an author writes.

ghost use Rattle.std.specs.Prelude.{◌≡◌, ◌<◌, true, false, length, IfOk, MatchOption};
ghost use Rattle.paw_read_error.specs.inner.Gives.{Gives};
ghost use Rattle.paw_author.specs.Authored.{is_plain_file, named_lines, lines_with_tables, hooked_lines, lines_of_units, joined_lines, plain_lines, IsAnswered};
ghost use Rattle.paw_author.specs.FileLines.{file_lines};

use crate::file::{File, Switch};
use crate::fragment::LineInParts;
use crate::hooks::{HookName, hook_names, hooks_known};
use crate::includes::order_of_files;
use crate::joining::{files_chosen, order_joined};
use crate::known::Known;
use crate::lines::file_lines;
use crate::mistake::AuthorError;
use crate::name_rows::names_known;
use crate::named_lines::units_named;
use crate::order::in_order;
use crate::plain_sources::is_plain_source;
use crate::table_numbers::{tables_known, units_numbered};
use crate::units::Unit;
use paw_base::limits::SOURCE_LIMIT;
use std::alloc::{AllocError, Global};
use std::marker::Model;

/// A plain source, line by line.
#[derive(Drop)]
pub struct PlainSource {
    pub lines: Vec<LineInParts>,
}

impl Model for PlainSource {
    ghost use Rattle.paw_author.specs.Fragments.{LinesInParts};

    ghost Value = { LinesInParts };

    ghost view = { λ s. s.lines.items };
}

// The lines of a file where it is a plain source.
fn plain_file(alloc: Global, file: &File) -> Result<Option<Vec<LineInParts>>, AllocError>
    ensures value { IfOk result (λ plain. MatchOption plain (is_plain_file file.now ≡ false)
        (λ lines. (is_plain_file file.now ≡ true) × (lines.items ≡ file_lines 0 file.now.bytes))) }
{
    let bytes = file.bytes.as_slice();
    if bytes.len() > SOURCE_LIMIT {
        return Ok(None);
    }
    let lines = file_lines(alloc, 0, bytes)?;
    Ok(if is_plain_source(lines.as_slice()) {
        Some(lines)
    } else {
        None
    })
}

// The lines of units whose tables have numbers, with numbers in the place of names.
fn named_lines(
    alloc: Global,
    files: usize,
    hooks: &[HookName],
    known: &[Known],
    units: Vec<Unit>,
) -> Result<Vec<LineInParts>, AuthorError>
    ensures gives { Gives (λ lines. lines.items) result (named_lines files hooks.now known.now units.items) }
{
    hooks_known(hooks, units.as_slice())?;
    let named = units_named(alloc, known, units)?;
    Ok(in_order(alloc, files, named.as_slice())?)
}

// The lines of units, where tables have these names.
fn lines_with_tables(
    alloc: Global,
    files: usize,
    hooks: &[HookName],
    known: &[Known],
    units: Vec<Unit>,
) -> Result<Vec<LineInParts>, AuthorError>
    ensures gives { Gives (λ lines. lines.items) result (lines_with_tables files hooks.now known.now units.items) }
{
    let numbered = units_numbered(alloc, hooks, known, units)?;
    named_lines(alloc, files, hooks, known, numbered)
}

// The lines of units, where places have these names.
fn hooked_lines(
    alloc: Global,
    files: usize,
    hooks: &[HookName],
    units: Vec<Unit>,
) -> Result<Vec<LineInParts>, AuthorError>
    ensures gives { Gives (λ lines. lines.items) result (hooked_lines files hooks.now units.items) }
{
    let names = names_known(alloc, units.as_slice())?;
    let known = tables_known(alloc, hooks, names, units.as_slice())?;
    lines_with_tables(alloc, files, hooks, known.as_slice(), units)
}

// The lines of these units of a number of files.
fn lines_of_units(
    alloc: Global,
    files: usize,
    units: Vec<Unit>,
) -> Result<Vec<LineInParts>, AuthorError>
    ensures gives { Gives (λ lines. lines.items) result (lines_of_units files units.items) }
{
    let hooks = hook_names(alloc, units.as_slice())?;
    hooked_lines(alloc, files, hooks.as_slice(), units)
}

// The lines of these files by sections.
fn joined_lines(
    alloc: Global,
    switches: &[Switch],
    files: &[File],
) -> Result<Vec<LineInParts>, AuthorError>
    requires some { 0 < length files.now }
    ensures gives { Gives (λ lines. lines.items) result (joined_lines switches.now files.now) }
{
    let chosen = files_chosen(alloc, switches, files)?;
    let row = order_of_files(alloc, chosen.as_slice())?;
    let units = order_joined(alloc, chosen.as_slice(), row.as_slice())?;
    lines_of_units(alloc, row.len(), units)
}

// The lines of the plain source of these files.
fn lines_of(
    alloc: Global,
    switches: &[Switch],
    files: &[File],
) -> Result<Vec<LineInParts>, AuthorError>
    ensures gives { Gives (λ lines. lines.items) result (plain_lines switches.now files.now) }
{
    match files {
        [] => Ok(Vec::new(alloc)),
        [file, ..] => match plain_file(alloc, file)? {
            Some(lines) => Ok(lines),
            None => joined_lines(alloc, switches, files),
        },
    }
}

/// The plain source that these files are, where these switches are on. The first file includes the others, which stand in
/// any order.
///
/// # Errors
/// Fault exactly where the files have a mistake and memory suffices: the first one. Memory where it doesn't.
pub fn plain_lines(
    alloc: Global,
    switches: &[Switch],
    files: &[File],
) -> Result<PlainSource, AuthorError>
    ensures answer { IsAnswered result (plain_lines switches.now files.now) }
{
    let lines = lines_of(alloc, switches, files)?;
    Ok(PlainSource { lines })
}
