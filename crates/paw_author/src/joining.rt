// The files that are read, and the units of those that stand in the row.

ghost use Rattle.std.specs.Prelude.{◌≡◌, ◌<◌, ◌≤◌, ◌+◌, ◌&&◌, [], IfOk, length, nat_lt, nat_le, slice_get};
ghost use Rattle.paw_read_error.specs.inner.Gives.{Gives};
ghost use Rattle.paw_author.specs.Includes.{lines_or_none};
ghost use Rattle.paw_author.specs.Joining.{file_chosen, files_chosen, order_joined};
ghost use Rattle.paw_author.specs.declared.joining.TheConstants.{FILE_LIMIT};
ghost use Rattle.paw_base.specs.declared.limits.TheConstants.{SOURCE_LIMIT};

use crate::choices::chosen_lines;
use crate::file::{File, Switch};
use crate::fragment::{LineInParts, Origin};
use crate::hooks::add_lines;
use crate::includes::TakenFile;
use crate::lines::file_lines;
use crate::mistake::{AuthorError, wrong_line};
use crate::units::{Unit, file_read};
use paw_base::fault::SourceKind;
use paw_base::limits::SOURCE_LIMIT;
use paw_read_error::read_error::ReadError;
use std::alloc::{AllocError, Global};

/// How many files there may be.
const FILE_LIMIT: usize = 255;

// Whether a file may have this number and this length.
fn fits(number: usize, len: usize) -> bool
    ensures value { result ≡ (nat_lt number FILE_LIMIT && nat_le len SOURCE_LIMIT) }
{
    number < FILE_LIMIT && len <= SOURCE_LIMIT
}

// The taken lines of a file with this number.
fn file_chosen(
    alloc: Global,
    switches: &[Switch],
    number: usize,
    file: &File,
) -> Result<TakenFile, AuthorError>
    ensures gives { Gives (λ taken. taken) result (file_chosen switches.now number file.now) }
    ensures few { IfOk result (λ _. number < FILE_LIMIT) }
{
    let bytes = file.bytes.as_slice();
    if !fits(number, bytes.len()) {
        return Err(ReadError::Fault(wrong_line(
            Origin {
                file: number,
                line: 0,
                column: 0,
            },
            SourceKind::TooBig,
        )));
    }
    let written = file_lines(alloc, number, bytes)?;
    let lines = chosen_lines(alloc, switches, written)?;
    Ok(TakenFile {
        name: Vec::from_slice(alloc, file.name.as_slice())?,
        lines,
    })
}

/// The taken lines of all files.
///
/// # Errors
/// The first fault, or lack of memory.
#[tactic(auto, unfolding(crate::specs::Joining::files_chosen))]
pub(crate) fn files_chosen(
    alloc: Global,
    switches: &[Switch],
    files: &[File],
) -> Result<Vec<TakenFile>, AuthorError>
    ensures gives { Gives (λ chosen. chosen.items) result (files_chosen switches.now 0 [] files.now) }
    ensures each { IfOk result (λ chosen. length chosen.items ≡ length files.now) }
{
    let mut chosen = Vec::new(alloc);
    let mut left = files;
    let mut number: usize = 0;
    while let Some((file, below)) = left.split_first() {
        chosen.push(file_chosen(alloc, switches, number, file)?)?;
        number += 1;
        left = below;
    }
    Ok(chosen)
}

// A copy of the lines of a file.
fn lines_or_none(
    alloc: Global,
    files: &[TakenFile],
    file: usize,
) -> Result<Vec<LineInParts>, AllocError>
    ensures value { IfOk result (λ lines. lines.items ≡ lines_or_none (slice_get files.now file)) }
{
    let mut lines = Vec::new(alloc);
    if file < files.len() {
        let taken = &files[file];
        add_lines(alloc, taken.lines.as_slice(), &mut lines)?;
    }
    Ok(lines)
}

/// The units of the files that stand in the row.
///
/// # Errors
/// The first fault, or lack of memory.
#[tactic(auto, unfolding(crate::specs::Joining::order_joined))]
pub(crate) fn order_joined(
    alloc: Global,
    files: &[TakenFile],
    row: &[usize],
) -> Result<Vec<Unit>, AuthorError>
    ensures gives { Gives (λ units. units.items) result (order_joined files.now 0 [] row.now) }
{
    let mut units = Vec::new(alloc);
    let mut left = row;
    let mut place: usize = 0;
    while let Some((file, below)) = left.split_first() {
        let lines = lines_or_none(alloc, files, *file)?;
        units = file_read(alloc, place, units, lines)?;
        place += 1;
        left = below;
    }
    Ok(units)
}
