// The order in which the units of several files come out.

ghost use Rattle.std.specs.Prelude.{◌≡◌, ◌++◌, ◌==◌, ◌∷◌, [], find, map, length, take, drop, filter, IfOk, IfSome, slice_get, ◌<◌, if◌then◌else◌};
ghost use Rattle.std.specs.List.{flat_map, position};
ghost use Rattle.std.specs.Option.{option_copied};
ghost use Rattle.paw_author.specs.Hooks.{unit_lines};
ghost use Rattle.paw_author.specs.Order.{made_headers, made_line, header_made, is_header_of, header_or_made, is_own};
ghost use Rattle.paw_author.specs.Order.{is_open_hook, own_lines, lines_with_file, lines_in_files, files_of, header_lines, section_lines};
ghost use Rattle.paw_author.specs.Order.{sections, ends_with_lf, has_line_end, ended_line, all_ended, in_order};
ghost use Rattle.paw_author.specs.declared.sections.TheConstants.{SECTIONS, WORDS};

use crate::fragment::{Fragment, LineInParts, Origin};
use crate::hooks::{add_lines, add_unit, has_no_name, is_header, is_hook};
use crate::sections::{NAMES, SECTIONS, WORDS};
use crate::tokens::line_origin;
use crate::units::Unit;
use std::alloc::{AllocError, Global};
use std::collections::VecDeque;

// ---- headers ----

/// The headers that each plain source has, in their order.
static MADE_HEADERS: [&[u8]; 10] = [
    b"/VOC\n",
    b"/STX\n",
    b"/MTX\n",
    b"/OTX\n",
    b"/LTX\n",
    b"/CON\n",
    b"/OBJ\n",
    b"/PRO 0\n",
    b"/PRO 1\n",
    b"/PRO 2\n",
];

// A line of one part.
fn line_of(alloc: Global, origin: Origin, bytes: &[u8]) -> Result<LineInParts, AllocError>
    ensures value { IfOk result (λ line. line ≡ record { origin = origin; bytes = bytes.now } ∷ []) }
{
    let mut parts = Vec::new(alloc);
    parts.push(Fragment {
        origin,
        bytes: Vec::from_slice(alloc, bytes)?,
    })?;
    Ok(LineInParts { parts })
}

// Adds a line that stands for nothing that is written.
fn add_made_line(
    alloc: Global,
    headers: &[&[u8]],
    index: usize,
    out: &mut Vec<LineInParts>,
) -> Result<(), AllocError>
    ensures value { IfOk result (λ _. out.new.items ≡ out.old.items ++ made_line (slice_get (map (λ header. header.now) headers.now) index)) }
{
    if index < headers.len() {
        let nowhere = Origin {
            file: 0,
            line: 0,
            column: 0,
        };
        out.push(line_of(alloc, nowhere, headers[index])?)?;
    }
    Ok(())
}

// Adds the header of a section that has none.
fn add_made_header(
    alloc: Global,
    section: usize,
    out: &mut Vec<LineInParts>,
) -> Result<(), AllocError>
    ensures value { IfOk result (λ _. out.new.items ≡ out.old.items ++ header_made section) }
{
    if WORDS <= section {
        add_made_line(alloc, &MADE_HEADERS, section - WORDS, out)
    } else {
        Ok(())
    }
}

// Whether a unit is a header of this section.
fn is_header_of(section: usize, u: &Unit) -> bool
    ensures value { result ≡ is_header_of section u.now }
{
    is_header(u) && u.section == section
}

// The first header of a section.
fn header_of(section: usize, all: &[Unit]) -> Option<&Unit>
    ensures value { option_copied result ≡ find (λ u. is_header_of section u) all.now }
{
    all.iter().find(|u| is_header_of(section, *u))
}

// Adds the header of a section.
fn add_header(
    alloc: Global,
    all: &[Unit],
    section: usize,
    out: &mut Vec<LineInParts>,
) -> Result<(), AllocError>
    ensures value { IfOk result (λ _. out.new.items ≡ out.old.items ++ header_lines all.now section) }
{
    match header_of(section, all) {
        None => add_made_header(alloc, section, out),
        Some(u) => add_lines(alloc, u.lines.as_slice(), out),
    }
}

// ---- the units of a section ----

// Whether a unit comes out in this section as one of this file.
fn is_own(section: usize, file: usize, u: &Unit) -> bool
    ensures value { result ≡ is_own section file u.now }
{
    u.section == section && u.file == file && !is_header(u)
}

// Whether a unit marks the place for the entries of the files above its own.
fn is_open_hook(section: usize, file: usize, u: &Unit) -> bool
    ensures value { result ≡ is_open_hook section file u.now }
{
    is_own(section, file, u) && is_hook(u) && has_no_name(u)
}

// The index of that unit.
fn open_hook_of(all: &[Unit], section: usize, file: usize) -> Option<usize>
    ensures value { result ≡ position (λ u. is_open_hook section file u) all.now }
    ensures within { IfSome result (λ i. i < length all.now) }
{
    all.iter().position(|u| is_open_hook(section, file, u))
}

// Adds the lines of a unit where it comes out in this section as one of this file.
fn add_own_unit(
    alloc: Global,
    all: &[Unit],
    section: usize,
    file: usize,
    u: &Unit,
    out: &mut Vec<LineInParts>,
) -> Result<(), AllocError>
    ensures value { IfOk result (λ _. out.new.items
        ≡ out.old.items ++ (if is_own section file u.now then unit_lines all.now u.now else [])) }
{
    if is_own(section, file, u) {
        add_unit(alloc, all, u, out)?;
    }
    Ok(())
}

// Adds the lines that come out in a section for these units of a file.
fn add_own_lines(
    alloc: Global,
    all: &[Unit],
    section: usize,
    file: usize,
    units: &[Unit],
    out: &mut Vec<LineInParts>,
) -> Result<(), AllocError>
    ensures value { IfOk result (λ _. out.new.items ≡ out.old.items ++ own_lines all.now section file units.now) }
{
    for u in units {
        add_own_unit(alloc, all, section, file, u, out)?;
    }
    Ok(())
}

// The lines of a section with those of one file more.
fn lines_with_file(
    alloc: Global,
    all: &[Unit],
    section: usize,
    file: usize,
    above: Vec<LineInParts>,
) -> Result<Vec<LineInParts>, AllocError>
    ensures value { IfOk result (λ lines. lines.items
        ≡ lines_with_file all.now section file above.items (position (λ u. is_open_hook section file u) all.now)) }
{
    let mut above = above;
    match open_hook_of(all, section, file) {
        None => {
            add_own_lines(alloc, all, section, file, all, &mut above)?;
            Ok(above)
        }
        Some(i) => {
            let mut lines = Vec::new(alloc);
            add_own_lines(alloc, all, section, file, &all[..i], &mut lines)?;
            lines.append(&mut above)?;
            add_own_lines(alloc, all, section, file, &all[i + 1..], &mut lines)?;
            Ok(lines)
        }
    }
}

// The lines of a section in the first files, without its header.
#[tactic(auto, unfolding(crate::specs::Order::lines_in_files))]
fn lines_in_files(
    alloc: Global,
    all: &[Unit],
    section: usize,
    files: usize,
) -> Result<Vec<LineInParts>, AllocError>
    ensures value { IfOk result (λ lines. lines.items ≡ lines_in_files all.now section files) }
{
    let mut lines = Vec::new(alloc);
    for file in 0..files {
        lines = lines_with_file(alloc, all, section, file, lines)?;
    }
    Ok(lines)
}

// How many files have lines in a section.
fn files_of(files: usize, section: usize) -> usize
    ensures value { result ≡ files_of files section }
{
    if section == 0 { 1 } else { files }
}

// Adds the lines of a section.
fn add_section(
    alloc: Global,
    files: usize,
    all: &[Unit],
    section: usize,
    out: &mut Vec<LineInParts>,
) -> Result<(), AllocError>
    ensures value { IfOk result (λ _. out.new.items ≡ out.old.items ++ section_lines files all.now section) }
{
    if section == NAMES {
        return Ok(());
    }
    add_header(alloc, all, section, out)?;
    let mut lines = lines_in_files(alloc, all, section, files_of(files, section))?;
    out.append(&mut lines)?;
    Ok(())
}

// The lines of all sections, one section after another.
fn sections(alloc: Global, files: usize, all: &[Unit]) -> Result<Vec<LineInParts>, AllocError>
    ensures value { IfOk result (λ lines. lines.items ≡ sections SECTIONS 0 files all.now) }
{
    let mut lines = Vec::new(alloc);
    for section in 0..SECTIONS {
        add_section(alloc, files, all, section, &mut lines)?;
    }
    Ok(lines)
}

// ---- line ends ----

// Whether bytes end with an LF.
fn ends_with_lf(bytes: &[u8]) -> bool
    ensures value { result ≡ ends_with_lf bytes.now }
{
    bytes.last() == Some(&b'\n')
}

// Whether a line has its line end.
fn has_line_end(line: &[Fragment]) -> bool
    ensures value { result ≡ has_line_end line.now }
{
    match line.last() {
        Some(part) => ends_with_lf(part.bytes.as_slice()),
        None => false,
    }
}

// A line with a line end.
fn ended_line(alloc: Global, line: LineInParts) -> Result<LineInParts, AllocError>
    ensures value { IfOk result (λ ended. ended ≡ ended_line line) }
{
    if has_line_end(line.parts.as_slice()) {
        return Ok(line);
    }
    let origin = line_origin(line.parts.as_slice());
    let LineInParts { mut parts } = line;
    parts.push(Fragment {
        origin,
        bytes: Vec::from_slice(alloc, b"\n")?,
    })?;
    Ok(LineInParts { parts })
}

// A line as it comes out: the last one is as it is.
fn ended_unless(alloc: Global, last: bool, line: LineInParts) -> Result<LineInParts, AllocError>
    ensures value { IfOk result (λ ended. ended ≡ (if last then line else ended_line line)) }
{
    if last {
        Ok(line)
    } else {
        ended_line(alloc, line)
    }
}

// All lines, of which each but the last has a line end.
#[tactic(auto, unfolding(crate::specs::Order::all_ended))]
fn all_ended(alloc: Global, lines: Vec<LineInParts>) -> Result<Vec<LineInParts>, AllocError>
    ensures value { IfOk result (λ ended. ended.items ≡ all_ended lines.items) }
{
    let mut left = VecDeque::from(lines);
    let mut ended = Vec::new(alloc);
    while let Some(line) = left.pop_front() {
        let last = left.is_empty();
        ended.push(ended_unless(alloc, last, line)?)?;
    }
    Ok(ended)
}

/// The lines of all units of this number of files in the order in which they come out.
///
/// # Errors
/// Where there is no memory.
pub(crate) fn in_order(
    alloc: Global,
    files: usize,
    all: &[Unit],
) -> Result<Vec<LineInParts>, AllocError>
    ensures value { IfOk result (λ lines. lines.items ≡ in_order files all.now) }
{
    let lines = sections(alloc, files, all)?;
    all_ended(alloc, lines)
}
