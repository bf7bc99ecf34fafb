// The row of files: which files there are, by the lines that include them, and in which order they stand.

ghost use Rattle.std.specs.Prelude.{◌≡◌, ◌<◌, ◌≤◌, ◌==◌, not, IfOk, IfSome, bytes_eq, length};
ghost use Rattle.std.specs.List.{list_any, position, suffix_len};
ghost use Rattle.paw_read_error.specs.inner.Gives.{Gives};
ghost use Rattle.paw_author.specs.Includes.{is_include, written_path, path_folder, included_path, index_of_path, path_of};
ghost use Rattle.paw_author.specs.Includes.{path_origin, file_of, line_before, lines_before, file_before, order_of_files};
ghost use Rattle.paw_author.specs.Includes.{leads_to_itself};

use crate::fragment::{Fragment, LineInParts, Origin};
use crate::mistake::{AuthorError, Mistake, lost_file, wrong_line};
use crate::tokens::{
    is_quoted, is_same, leading_word, line_origin, origin_of, starts_with_byte, token, token_at,
    token_count, without_quotes,
};
use paw_base::fault::SourceKind;
use paw_read_error::read_error::ReadError;
use std::alloc::{AllocError, Global};
use std::collections::VecDeque;
use std::marker::Model;

/// A file: its name, and those of its lines that are taken.
#[derive(Drop)]
pub(crate) struct TakenFile {
    pub(crate) name: Vec<u8>,
    pub(crate) lines: Vec<LineInParts>,
}

impl Model for TakenFile {
    ghost use Rattle.paw_author.specs.Includes.{ReadFile};

    ghost Value = { ReadFile };

    ghost view = { λ f. record { name = f.name.items; lines = f.lines.items } };
}

// ---- lines that include a file ----

/// Whether a line includes a file.
pub(crate) fn is_include(line: &[Fragment]) -> bool
    ensures value { result ≡ is_include line.now }
{
    is_same(leading_word(line), b"/INCLUDE")
}

// The path that a line has, which may stand in quotes.
fn written_path(alloc: Global, line: &[Fragment]) -> Result<Vec<u8>, AllocError>
    ensures value { IfOk result (λ path. path.items ≡ written_path line.now) }
{
    let word = token_at(1, line);
    if is_quoted(word) {
        without_quotes(alloc, word)
    } else {
        Vec::from_slice(alloc, word)
    }
}

// How many bytes stand after the last `/` of a path.
fn name_len(path: &[u8]) -> usize
    ensures value { result ≡ suffix_len (λ b. not (b == 47)) path.now }
    ensures within { result ≤ length path.now }
{
    path.iter().rev().take_while(|b| **b != b'/').count()
}

// The folder of a path.
fn path_folder(path: &[u8]) -> &[u8]
    ensures value { result.now ≡ path_folder path.now }
{
    &path[..path.len() - name_len(path)]
}

// The path that a line of a file names.
fn included_path(alloc: Global, name: &[u8], line: &[Fragment]) -> Result<Vec<u8>, AllocError>
    ensures value { IfOk result (λ path. path.items ≡ included_path name.now line.now) }
{
    let written = written_path(alloc, line)?;
    if starts_with_byte(b'/', written.as_slice()) {
        return Ok(written);
    }
    let mut path = Vec::from_slice(alloc, path_folder(name))?;
    path.extend_from_slice(written.as_slice())?;
    Ok(path)
}

// Whether a file has this path.
fn has_path(file: &TakenFile, path: &[u8]) -> bool
    ensures value { result ≡ bytes_eq file.now.name path.now }
{
    file.name.as_slice() == path
}

// The index of the file with this path.
fn index_of_path(files: &[TakenFile], path: &[u8]) -> Option<usize>
    ensures value { result ≡ index_of_path files.now path.now }
    ensures within { IfSome result (λ i. i < length files.now) }
{
    files.iter().position(|file| has_path(file, path))
}

// The path of a line that includes a file.
fn path_of(alloc: Global, name: &[u8], line: &[Fragment]) -> Result<Vec<u8>, AuthorError>
    ensures gives { Gives (λ path. path.items) result (path_of name.now line.now) }
{
    if token_count(line) != 2 {
        return Err(ReadError::Fault(wrong_line(line_origin(line), SourceKind::Section)));
    }
    Ok(included_path(alloc, name, line)?)
}

// The place of the path in a line.
fn path_origin(line: &[Fragment]) -> Origin
    ensures value { result ≡ path_origin line.now }
{
    origin_of(token(line, 1))
}

// The index of the file that a line of this file includes.
fn file_of(
    alloc: Global,
    files: &[TakenFile],
    name: &[u8],
    line: &[Fragment],
) -> Result<usize, AuthorError>
    ensures gives { Gives (λ file. file) result (file_of files.now name.now line.now) }
    ensures within { IfOk result (λ file. file < length files.now) }
{
    let path = path_of(alloc, name, line)?;
    match index_of_path(files, path.as_slice()) {
        Some(file) => Ok(file),
        None => Err(ReadError::Fault(lost_file(path_origin(line)))),
    }
}

// ---- the row ----

// The fault of a file that leads to itself.
fn leads_to_itself(file: usize) -> Mistake
    ensures value { result ≡ leads_to_itself file }
{
    lost_file(Origin {
        file,
        line: 0,
        column: 0,
    })
}

// Whether a file stands in the row.
fn stands_in(file: usize, row: &VecDeque<usize>) -> bool
    ensures value { result ≡ list_any (λ other. other == file) row.now.items }
{
    row.iter().any(|other| *other == file)
}

// The row with the file that a line includes before it.
#[cycle(row)]
fn line_before(
    alloc: Global,
    files: &[TakenFile],
    depth: usize,
    name: &[u8],
    line: &[Fragment],
    row: VecDeque<usize>,
) -> Result<VecDeque<usize>, AuthorError>
    ensures gives { Gives (λ more. more.items) result
        (line_before (file_before depth files.now) files.now name.now line.now row.items) }
{
    if !is_include(line) {
        return Ok(row);
    }
    let file = file_of(alloc, files, name, line)?;
    file_before(alloc, files, depth, file, row)
}

// The row with the files that these lines include before it, from the last line to the first.
#[cycle(row)]
#[tactic(auto, unfolding(crate::specs::Includes::lines_before))]
fn lines_before(
    alloc: Global,
    files: &[TakenFile],
    depth: usize,
    name: &[u8],
    lines: &[LineInParts],
    row: VecDeque<usize>,
) -> Result<VecDeque<usize>, AuthorError>
    ensures gives { Gives (λ more. more.items) result
        (lines_before (file_before depth files.now) files.now name.now lines.now row.items) }
{
    let mut more = row;
    let mut left = lines;
    while let Some((line, above)) = left.split_last() {
        more = line_before(alloc, files, depth, name, line.parts.as_slice(), more)?;
        left = above;
    }
    Ok(more)
}

// The row with a file before it, and after that file all that it includes.
#[cycle(row)]
#[tactic(auto, unfolding(crate::specs::Includes::file_before))]
fn file_before(
    alloc: Global,
    files: &[TakenFile],
    depth: usize,
    file: usize,
    row: VecDeque<usize>,
) -> Result<VecDeque<usize>, AuthorError>
    requires known { file < length files.now }
    ensures gives { Gives (λ more. more.items) result (file_before depth files.now file row.items) }
{
    if depth == 0 {
        return Err(ReadError::Fault(leads_to_itself(file)));
    }
    if stands_in(file, &row) {
        return Ok(row);
    }
    let own = &files[file];
    let mut more = lines_before(
        alloc,
        files,
        depth - 1,
        own.name.as_slice(),
        own.lines.as_slice(),
        row,
    )?;
    more.push_front(file)?;
    Ok(more)
}

/// The row of files: the first of them, and all that it leads to, each by its index.
///
/// # Errors
/// Fault where a file is lost or leads to itself, or lack of memory.
pub(crate) fn order_of_files(alloc: Global, files: &[TakenFile]) -> Result<Vec<usize>, AuthorError>
    requires some { 0 < length files.now }
    ensures gives { Gives (λ row. row.items) result (order_of_files files.now) }
{
    let row = file_before(alloc, files, files.len(), 0, VecDeque::new(alloc))?;
    Ok(Vec::from(row))
}
