// Lines that belong together: what each line of a file begins, or goes on with.

ghost use Rattle.std.specs.Prelude.{◌≡◌, ◌++◌, ◌∷◌, [], IfOk};
ghost use Rattle.paw_read_error.specs.inner.Gives.{Gives};
ghost use Rattle.paw_author.specs.Sections.{header_section};
ghost use Rattle.paw_author.specs.Units.{UnitLines, unit_begun, begun_here, longer_unit, is_line_of_text, is_aside, include_read};
ghost use Rattle.paw_author.specs.Units.{has_at_most, header_ends, table_name, header_read, is_hook, hook_read};
ghost use Rattle.paw_author.specs.Units.{item_read, slash_read, marked_read, is_data_unit, has_more, more_read, may_have_data};
ghost use Rattle.paw_author.specs.Units.{data_read, meant_read, line_read, lines_read, top_of_file, file_read};

use crate::fragment::{Fragment, LineInParts};
use crate::includes::is_include;
use crate::mistake::{AuthorError, wrong_line};
use crate::sections::{
    NAMED_TABLES, has_facts, has_items, has_texts, header_section, is_number, is_table_header,
    is_table_section,
};
use crate::tokens::{
    is_quoted, is_same, leading_word, line_origin, origin_of, starts_with_slash, texts_end, token,
    token_at, token_count,
};
use paw_base::fault::SourceKind;
use paw_read_error::read_error::ReadError;
use std::alloc::{AllocError, Global};
use std::collections::VecDeque;
use std::marker::Model;

/// What a unit begins with: the top of a file, a header, a place that is marked in a table, an item, or a row or entry.
#[derive(Clone, Copy, Drop, PartialEq, Eq, Debug)]
pub(crate) enum UnitKind {
    Top,
    Header,
    Hook,
    Item,
    Row,
}

/// Lines that belong together, with the section and the file in which they stand; in a table without a number also with
/// the name of the table.
#[derive(Drop)]
pub(crate) struct Unit {
    pub(crate) section: usize,
    pub(crate) table: Vec<u8>,
    pub(crate) file: usize,
    pub(crate) kind: UnitKind,
    pub(crate) lines: Vec<LineInParts>,
}

impl Model for Unit {
    ghost use Rattle.paw_author.specs.Units.{UnitLines};

    ghost Value = { UnitLines };

    ghost view = { λ u. record {
      section = u.section;
      table = u.table.items;
      file = u.file;
      kind = u.kind;
      lines = u.lines.items;
    } };
}

/// The units so far, the one that was begun last, and whether an item of its section stands above.
#[derive(Drop)]
pub(crate) struct Units {
    units: Vec<Unit>,
    last: Unit,
    item: bool,
}

impl Model for Units {
    ghost use Rattle.paw_author.specs.Units.{UnitsRead};

    ghost Value = { UnitsRead };

    ghost view = { λ s. record { units = s.units.items; last = s.last; item = s.item } };
}

// A unit begins with a line, and the one before it ends.
fn unit_begun(
    alloc: Global,
    kind: UnitKind,
    section: usize,
    table: Vec<u8>,
    item: bool,
    line: LineInParts,
    s: Units,
) -> Result<Units, AllocError>
    ensures value { IfOk result (λ next. next ≡ unit_begun kind section table.items item line s) }
{
    let Units {
        mut units,
        last,
        ..
    } = s;
    let file = last.file;
    units.push(last)?;
    let mut lines = Vec::new(alloc);
    lines.push(line)?;
    let last = Unit {
        section,
        table,
        file,
        kind,
        lines,
    };
    Ok(Units { units, last, item })
}

// The section and the table of the unit that was begun last.
fn section_and_table(alloc: Global, s: &Units) -> Result<(usize, Vec<u8>), AllocError>
    ensures value { IfOk result (λ pair. (pair.0 ≡ s.now.last.section) × (pair.1.items ≡ s.now.last.table)) }
{
    let table = Vec::from_slice(alloc, s.last.table.as_slice())?;
    Ok((s.last.section, table))
}

// A unit of the same section begins.
fn begun_here(
    alloc: Global,
    kind: UnitKind,
    line: LineInParts,
    s: Units,
) -> Result<Units, AllocError>
    ensures value { IfOk result (λ next. next ≡ begun_here kind line s) }
{
    let (section, table) = section_and_table(alloc, &s)?;
    let item = s.item;
    unit_begun(alloc, kind, section, table, item, line, s)
}

// A unit with one line more.
fn with_line(line: LineInParts, unit: Unit) -> Result<Unit, AllocError>
    ensures value { IfOk result (λ longer. longer ≡ record unit { lines = unit.lines ++ line ∷ [] }) }
{
    let Unit {
        section,
        table,
        file,
        kind,
        mut lines,
    } = unit;
    lines.push(line)?;
    Ok(Unit {
        section,
        table,
        file,
        kind,
        lines,
    })
}

// A line goes on with the unit that was begun last.
fn longer_unit(line: LineInParts, s: Units) -> Result<Units, AllocError>
    ensures value { IfOk result (λ next. next ≡ longer_unit line s) }
{
    let Units { units, last, item } = s;
    let last = with_line(line, last)?;
    Ok(Units { units, last, item })
}

// ---- lines that begin nothing ----

// Whether a line is one of a text, or a comment below it.
fn is_line_of_text(s: &Units, line: &[Fragment]) -> bool
    ensures value { result ≡ is_line_of_text s.now line.now }
{
    s.item && has_texts(s.last.section) && !starts_with_slash(line)
}

// Whether a line goes with the one above it whatever that is.
fn is_aside(s: &Units, line: &[Fragment]) -> bool
    ensures value { result ≡ is_aside s.now line.now }
{
    is_line_of_text(s, line) || token_count(line) == 0
}

// ---- headers, hooks and items ----

// Looks whether a line has no more tokens than this.
fn has_at_most(count: usize, line: &[Fragment]) -> Result<(), AuthorError>
    ensures gives { Gives (λ _. tt) result (has_at_most count line.now) }
{
    if count < token_count(line) {
        return Err(ReadError::Fault(wrong_line(origin_of(token(line, count)), SourceKind::Extra)));
    }
    Ok(())
}

// Looks whether a header has the tokens that it needs, and no more.
fn header_ends(line: &[Fragment]) -> Result<(), AuthorError>
    ensures gives { Gives (λ _. tt) result (header_ends line.now) }
{
    if !is_table_header(line) {
        return has_at_most(1, line);
    }
    if token_count(line) == 1 {
        return Err(ReadError::Fault(wrong_line(line_origin(line), SourceKind::Missing)));
    }
    has_at_most(if is_number(token_at(1, line)) { 3 } else { 2 }, line)
}

// The name by which a table without a number is known.
fn table_name(alloc: Global, section: usize, line: &[Fragment]) -> Result<Vec<u8>, AllocError>
    ensures value { IfOk result (λ name. name.items ≡ table_name section line.now) }
{
    if section == NAMED_TABLES {
        Vec::from_slice(alloc, token_at(1, line))
    } else {
        Ok(Vec::new(alloc))
    }
}

// A header begins a section.
fn header_read(
    alloc: Global,
    section: usize,
    s: Units,
    line: LineInParts,
) -> Result<Units, AuthorError>
    ensures gives { Gives (λ next. next) result (header_read section s line) }
{
    header_ends(line.parts.as_slice())?;
    let table = table_name(alloc, section, line.parts.as_slice())?;
    Ok(unit_begun(alloc, UnitKind::Header, section, table, false, line, s)?)
}

// Whether a line marks a place in a table.
fn is_hook(line: &[Fragment]) -> bool
    ensures value { result ≡ is_hook line.now }
{
    is_same(leading_word(line), b"/HOOK")
}

// The section of the unit that was begun last.
fn section_of(s: &Units) -> usize
    ensures value { result ≡ s.now.last.section }
{
    s.last.section
}

// A place is marked in a table.
fn hook_read(alloc: Global, s: Units, line: LineInParts) -> Result<Units, AuthorError>
    ensures gives { Gives (λ next. next) result (hook_read s line) }
{
    if !is_table_section(section_of(&s)) {
        return Err(ReadError::Fault(wrong_line(
            line_origin(line.parts.as_slice()),
            SourceKind::Section,
        )));
    }
    has_at_most(2, line.parts.as_slice())?;
    Ok(begun_here(alloc, UnitKind::Hook, line, s)?)
}

// An item begins.
fn item_read(alloc: Global, s: Units, line: LineInParts) -> Result<Units, AuthorError>
    ensures gives { Gives (λ next. next) result (item_read s line) }
{
    if !has_items(section_of(&s)) {
        return Err(ReadError::Fault(wrong_line(
            line_origin(line.parts.as_slice()),
            SourceKind::Section,
        )));
    }
    let (section, table) = section_and_table(alloc, &s)?;
    Ok(unit_begun(alloc, UnitKind::Item, section, table, true, line, s)?)
}

// A line that includes a file is left out.
fn include_read(s: Units, line: LineInParts) -> Result<Units, AuthorError>
    ensures gives { Gives (λ next. next) result (include_read s line) }
{
    if section_of(&s) != 0 {
        return Err(ReadError::Fault(wrong_line(
            line_origin(line.parts.as_slice()),
            SourceKind::Section,
        )));
    }
    Ok(s)
}

// A line that begins with `/` includes a file, or is a hook or an item.
fn slash_read(alloc: Global, s: Units, line: LineInParts) -> Result<Units, AuthorError>
    ensures gives { Gives (λ next. next) result (slash_read s line) }
{
    if is_include(line.parts.as_slice()) {
        include_read(s, line)
    } else if is_hook(line.parts.as_slice()) {
        hook_read(alloc, s, line)
    } else {
        item_read(alloc, s, line)
    }
}

// What begins with `/`: a header, where its name is that of one.
fn marked_read(alloc: Global, s: Units, line: LineInParts) -> Result<Units, AuthorError>
    ensures gives { Gives (λ next. next) result (marked_read (header_section line) s line) }
{
    match header_section(line.parts.as_slice()) {
        None => slash_read(alloc, s, line),
        Some(section) => header_read(alloc, section, s, line),
    }
}

// ---- rows and entries ----

// Whether the unit that was begun last is a row or an entry.
fn last_is_data(s: &Units) -> bool
    ensures value { result ≡ is_data_unit s.now.last.kind }
{
    matches!(s.last.kind, UnitKind::Row)
}

// Whether a line has more of what stands above it.
fn has_more(section: usize, line: &[Fragment]) -> bool
    ensures value { result ≡ has_more section line.now }
{
    if is_table_section(section) {
        leading_word(line).is_empty()
    } else {
        has_facts(section) && is_quoted(token_at(0, line))
    }
}

// A line goes on with a row.
fn more_read(s: Units, line: LineInParts) -> Result<Units, AuthorError>
    ensures gives { Gives (λ next. next) result (more_read s line) }
{
    if !last_is_data(&s) {
        return Err(ReadError::Fault(wrong_line(
            line_origin(line.parts.as_slice()),
            SourceKind::Section,
        )));
    }
    Ok(longer_unit(line, s)?)
}

// Whether a row may stand where the lines so far end.
fn may_have_data(s: &Units) -> bool
    ensures value { result ≡ may_have_data s.now }
{
    s.last.section != 0 && !(has_items(s.last.section) && !s.item)
}

// A line that begins with no `/` is a row, or more of one.
fn data_read(alloc: Global, s: Units, line: LineInParts) -> Result<Units, AuthorError>
    ensures gives { Gives (λ next. next) result (data_read s line) }
{
    if !may_have_data(&s) {
        return Err(ReadError::Fault(wrong_line(
            line_origin(line.parts.as_slice()),
            SourceKind::Section,
        )));
    }
    if has_more(section_of(&s), line.parts.as_slice()) {
        more_read(s, line)
    } else {
        Ok(begun_here(alloc, UnitKind::Row, line, s)?)
    }
}

// ---- lines and files ----

// Reads a line that begins something or has more of it.
fn meant_read(alloc: Global, s: Units, line: LineInParts) -> Result<Units, AuthorError>
    ensures gives { Gives (λ next. next) result (meant_read s line) }
{
    if starts_with_slash(line.parts.as_slice()) {
        marked_read(alloc, s, line)
    } else {
        data_read(alloc, s, line)
    }
}

// Reads a line more.
fn line_read(alloc: Global, s: Units, line: LineInParts) -> Result<Units, AuthorError>
    ensures gives { Gives (λ next. next) result (line_read s line) }
{
    if is_aside(&s, line.parts.as_slice()) {
        return Ok(longer_unit(line, s)?);
    }
    texts_end(line.parts.as_slice())?;
    meant_read(alloc, s, line)
}

// Reads all lines of a file.
#[tactic(auto, unfolding(crate::specs::Units::lines_read))]
fn lines_read(alloc: Global, s: Units, file: Vec<LineInParts>) -> Result<Units, AuthorError>
    ensures gives { Gives (λ next. next) result (lines_read s file.items) }
{
    let mut left = VecDeque::from(file);
    let mut read = s;
    while let Some(line) = left.pop_front() {
        read = line_read(alloc, read, line)?;
    }
    Ok(read)
}

// What stands above the first header of a file.
fn top_of_file(alloc: Global, file: usize) -> Unit
    ensures value { result ≡ top_of_file file }
{
    Unit {
        section: 0,
        table: Vec::new(alloc),
        file,
        kind: UnitKind::Top,
        lines: Vec::new(alloc),
    }
}

// All units that were read.
fn all_units(s: Units) -> Result<Vec<Unit>, AllocError>
    ensures value { IfOk result (λ units. units.items ≡ s.units ++ s.last ∷ []) }
{
    let Units {
        mut units,
        last,
        ..
    } = s;
    units.push(last)?;
    Ok(units)
}

/// The units so far with those of a file more.
///
/// # Errors
/// The first fault, or lack of memory.
pub(crate) fn file_read(
    alloc: Global,
    file: usize,
    units: Vec<Unit>,
    lines: Vec<LineInParts>,
) -> Result<Vec<Unit>, AuthorError>
    ensures gives { Gives (λ all. all.items) result (file_read file units.items lines.items) }
{
    let s = Units {
        units,
        last: top_of_file(alloc, file),
        item: false,
    };
    let read = lines_read(alloc, s, lines)?;
    Ok(all_units(read)?)
}
