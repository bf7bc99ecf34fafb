// Lines with numbers in the place of names.

ghost use Rattle.std.specs.Prelude.{◌≡◌, ◌++◌, [], ◌∷◌, IfOk, decimal, map};
ghost use Rattle.paw_author.specs.NamedLines.{number_meant, word_or_number, parameter_named, kind_list, kinds_of};
ghost use Rattle.paw_author.specs.NamedLines.{kinds_left, part_named, line_named, two_words, entry_named, number_part, without_name, header_named};
ghost use Rattle.paw_author.specs.NamedLines.{first_line_named, is_table_entry, unit_named, some_words, data_kinds, data_named, has_numbers, is_exits_item};
ghost use Rattle.paw_author.specs.NamedLines.{mark_named, mark_line, item_named, other_lines};
ghost use Rattle.paw_base.specs.Condacts.{code_named};

use crate::fragment::{Fragment, LineInParts};
use crate::known::{Known, NameKind, number_for, number_of_any};
use crate::sections::{EXITS, OBJECTS, WORDS, is_number, is_table_section};
use crate::table_numbers::{is_numbered, table_number};
use crate::tokens::{are_token, is_token, starts_with_byte, without_first};
use crate::units::{Unit, UnitKind};
use itoa::Buffer;
use paw_base::rows::{ParamKind, condact_named, condact_row};
use std::alloc::{AllocError, Global};
use std::collections::VecDeque;

// ---- tokens ----

// The number that a word stands for as a parameter of this kind.
fn number_meant(kind: ParamKind, word: &[u8], known: &[Known]) -> Option<u16>
    ensures value { result ≡ number_meant kind word.now known.now }
{
    match kind {
        ParamKind::Location | ParamKind::Place => number_for(NameKind::Location, word, known),
        ParamKind::Object => number_for(NameKind::Object, word, known),
        ParamKind::Flag => number_for(NameKind::Flag, word, known),
        ParamKind::Number => number_of_any(word, known),
        ParamKind::Message => number_for(NameKind::Message, word, known),
        ParamKind::System => number_for(NameKind::System, word, known),
        ParamKind::Table => number_for(NameKind::Table, word, known),
        _ => None,
    }
}

// Puts a number in decimal after bytes.
fn put_number(number: u16, bytes: &mut Vec<u8>) -> Result<(), AllocError>
    ensures value { IfOk result (λ _. bytes.new.items ≡ bytes.old.items ++ decimal number) }
{
    let mut digits = Buffer::new();
    bytes.extend_from_slice(digits.format(number).as_bytes())
}

// A number in decimal after these bytes; the word itself where it stands for none.
fn word_or_number(
    alloc: Global,
    word: &[u8],
    before: &[u8],
    number: Option<u16>,
) -> Result<Vec<u8>, AllocError>
    ensures value { IfOk result (λ bytes. bytes.items ≡ word_or_number word.now before.now number) }
{
    match number {
        None => Vec::from_slice(alloc, word),
        Some(number) => {
            let mut bytes = Vec::from_slice(alloc, before)?;
            put_number(number, &mut bytes)?;
            Ok(bytes)
        }
    }
}

// A parameter with its number in the place of a name.
fn parameter_named(
    alloc: Global,
    known: &[Known],
    kind: ParamKind,
    word: &[u8],
) -> Result<Vec<u8>, AllocError>
    ensures value { IfOk result (λ bytes. bytes.items ≡ parameter_named known.now kind word.now) }
{
    if starts_with_byte(b'@', word) {
        word_or_number(
            alloc,
            word,
            b"@",
            number_for(NameKind::Flag, without_first(word), known),
        )
    } else {
        word_or_number(alloc, word, b"", number_meant(kind, word, known))
    }
}

// ---- entries ----

// Adds a kind of a parameter, where there is one.
fn add_kind(kind: ParamKind, kinds: &mut VecDeque<ParamKind>) -> Result<(), AllocError>
    ensures value { IfOk result (λ _. kinds.new.items ≡ kinds.old.items ++ kind_list kind) }
{
    if kind != ParamKind::Absent {
        kinds.push_back(kind)?;
    }
    Ok(())
}

// Adds the kinds of the parameters of a condact.
fn add_kinds(name: &[u8], kinds: &mut VecDeque<ParamKind>) -> Result<(), AllocError>
    ensures value { IfOk result (λ _. kinds.new.items ≡ kinds.old.items ++ kinds_of (code_named name.now)) }
{
    let Some(code) = condact_named(name) else {
        return Ok(());
    };
    let Some(row) = condact_row(code) else {
        return Ok(());
    };
    add_kind(row.first, kinds)?;
    add_kind(row.second, kinds)
}

/// Takes a part from the parameters that are still to come.
///
/// # Errors
/// Where there is no memory.
pub(crate) fn pass_part(part: &[u8], kinds: &mut VecDeque<ParamKind>) -> Result<(), AllocError>
    ensures value { IfOk result (λ _. kinds.new.items ≡ kinds_left kinds.old.items part.now) }
{
    if !are_token(part) {
        return Ok(());
    }
    if starts_with_byte(b'+', part) {
        kinds.push_front(ParamKind::Number)?;
        return Ok(());
    }
    match kinds.pop_front() {
        Some(_) => Ok(()),
        None => add_kinds(part, kinds),
    }
}

// The bytes of a part where these parameters are still to come.
fn part_named(
    alloc: Global,
    known: &[Known],
    kinds: &VecDeque<ParamKind>,
    part: &[u8],
) -> Result<Vec<u8>, AllocError>
    ensures value { IfOk result (λ bytes. bytes.items ≡ part_named known.now kinds.now.items part.now) }
{
    match kinds.front() {
        None => Vec::from_slice(alloc, part),
        Some(kind) => {
            if are_token(part) {
                parameter_named(alloc, known, *kind, part)
            } else {
                Vec::from_slice(alloc, part)
            }
        }
    }
}

// A line of an entry, where these parameters are still to come.
#[tactic(auto, unfolding(crate::specs::NamedLines::line_named))]
fn line_named(
    alloc: Global,
    known: &[Known],
    kinds: VecDeque<ParamKind>,
    line: LineInParts,
) -> Result<LineInParts, AllocError>
    ensures value { IfOk result (λ named. named ≡ line_named known.now kinds.items line) }
{
    let mut to_come = kinds;
    let LineInParts { parts } = line;
    let mut left = VecDeque::from(parts);
    let mut named = Vec::new(alloc);
    while let Some(part) = left.pop_front() {
        let bytes = part_named(alloc, known, &to_come, part.bytes.as_slice())?;
        pass_part(part.bytes.as_slice(), &mut to_come)?;
        named.push(Fragment {
            origin: part.origin,
            bytes,
        })?;
    }
    Ok(LineInParts { parts: named })
}

/// Two words, which stand before the condacts of an entry.
///
/// # Errors
/// Where there is no memory.
pub(crate) fn two_words(alloc: Global) -> Result<VecDeque<ParamKind>, AllocError>
    ensures value { IfOk result (λ kinds. kinds.items ≡ two_words) }
{
    let mut kinds = VecDeque::new(alloc);
    kinds.push_back(ParamKind::Noun)?;
    kinds.push_back(ParamKind::Noun)?;
    Ok(kinds)
}

// Lines of an entry below its first one, after others.
fn more_named(
    alloc: Global,
    known: &[Known],
    lines: VecDeque<LineInParts>,
    before: Vec<LineInParts>,
) -> Result<Vec<LineInParts>, AllocError>
    ensures value { IfOk result (λ named. named.items ≡ before.items ++ map (λ line. line_named known.now [] line) lines.items) }
{
    let mut left = lines;
    let mut named = before;
    while let Some(line) = left.pop_front() {
        named.push(line_named(alloc, known, VecDeque::new(alloc), line)?)?;
    }
    Ok(named)
}

// The lines of an entry.
fn entry_named(
    alloc: Global,
    known: &[Known],
    lines: Vec<LineInParts>,
) -> Result<Vec<LineInParts>, AllocError>
    ensures value { IfOk result (λ named. named.items ≡ entry_named known.now lines.items) }
{
    let mut left = VecDeque::from(lines);
    let mut named = Vec::new(alloc);
    match left.pop_front() {
        None => Ok(named),
        Some(line) => {
            named.push(line_named(alloc, known, two_words(alloc)?, line)?)?;
            more_named(alloc, known, left, named)
        }
    }
}

// ---- headers of tables ----

// A number as it is written, or this one in the place of a name.
fn number_part(alloc: Global, number: u16, part: Fragment) -> Result<Fragment, AllocError>
    ensures value { IfOk result (λ numbered. numbered ≡ number_part number part) }
{
    if is_number(part.bytes.as_slice()) {
        return Ok(part);
    }
    let mut bytes = Vec::new(alloc);
    put_number(number, &mut bytes)?;
    Ok(Fragment {
        origin: part.origin,
        bytes,
    })
}

// What stands after the number of a table, without its name and the blanks before that.
fn without_name(parts: VecDeque<Fragment>) -> Result<VecDeque<Fragment>, AllocError>
    ensures value { IfOk result (λ left. left.items ≡ without_name parts.items) }
{
    let mut left = parts;
    let Some(gap) = left.pop_front() else {
        return Ok(left);
    };
    let Some(name) = left.pop_front() else {
        left.push_front(gap)?;
        return Ok(left);
    };
    if is_token(&name) {
        return Ok(left);
    }
    left.push_front(name)?;
    left.push_front(gap)?;
    Ok(left)
}

// The header of the table with this number.
fn header_named(alloc: Global, number: u16, line: LineInParts) -> Result<LineInParts, AllocError>
    ensures value { IfOk result (λ named. named ≡ header_named number line) }
{
    let LineInParts { parts } = line;
    let mut left = VecDeque::from(parts);
    let Some(mark) = left.pop_front() else {
        return Ok(LineInParts {
            parts: Vec::from(left),
        });
    };
    let Some(gap) = left.pop_front() else {
        left.push_front(mark)?;
        return Ok(LineInParts {
            parts: Vec::from(left),
        });
    };
    let Some(word) = left.pop_front() else {
        left.push_front(gap)?;
        left.push_front(mark)?;
        return Ok(LineInParts {
            parts: Vec::from(left),
        });
    };
    let mut named = without_name(left)?;
    named.push_front(number_part(alloc, number, word)?)?;
    named.push_front(gap)?;
    named.push_front(mark)?;
    Ok(LineInParts {
        parts: Vec::from(named),
    })
}

// The lines of a header.
fn first_line_named(
    alloc: Global,
    number: u16,
    lines: Vec<LineInParts>,
) -> Result<Vec<LineInParts>, AllocError>
    ensures value { IfOk result (λ named. named.items ≡ first_line_named number lines.items) }
{
    let mut left = VecDeque::from(lines);
    if let Some(line) = left.pop_front() {
        left.push_front(header_named(alloc, number, line)?)?;
    }
    Ok(Vec::from(left))
}

// ---- units ----

/// Whether a unit is an entry.
pub(crate) fn is_table_entry(u: &Unit) -> bool
    ensures value { result ≡ is_table_entry u.now }
{
    is_table_section(u.section) && matches!(u.kind, UnitKind::Row)
}

// An entry with numbers in the place of names.
fn entry_unit(alloc: Global, known: &[Known], u: Unit) -> Result<Unit, AllocError>
    ensures value { IfOk result (λ named. named ≡ record u { lines = entry_named known.now u.lines }) }
{
    let Unit {
        section,
        table,
        file,
        kind,
        lines,
    } = u;
    let lines = entry_named(alloc, known, lines)?;
    Ok(Unit {
        section,
        table,
        file,
        kind,
        lines,
    })
}

// The header of the table with this number, without a name.
fn header_unit(alloc: Global, number: u16, u: Unit) -> Result<Unit, AllocError>
    ensures value { IfOk result (λ named. named ≡ record u { lines = first_line_named number u.lines }) }
{
    let Unit {
        section,
        table,
        file,
        kind,
        lines,
    } = u;
    let lines = first_line_named(alloc, number, lines)?;
    Ok(Unit {
        section,
        table,
        file,
        kind,
        lines,
    })
}

// Adds the words that a row may have after its numbers.
fn add_words(kinds: &mut VecDeque<ParamKind>) -> Result<(), AllocError>
    ensures value { IfOk result (λ _. kinds.new.items ≡ kinds.old.items ++ some_words) }
{
    kinds.push_back(ParamKind::Noun)?;
    kinds.push_back(ParamKind::Noun)?;
    kinds.push_back(ParamKind::Noun)?;
    kinds.push_back(ParamKind::Noun)?;
    kinds.push_back(ParamKind::Noun)?;
    kinds.push_back(ParamKind::Noun)?;
    Ok(())
}

// What the tokens of a row name, by its section.
fn data_kinds(alloc: Global, section: usize) -> Result<VecDeque<ParamKind>, AllocError>
    ensures value { IfOk result (λ kinds. kinds.items ≡ data_kinds section) }
{
    let mut kinds = VecDeque::new(alloc);
    if section == WORDS {
        kinds.push_back(ParamKind::Noun)?;
        kinds.push_back(ParamKind::Number)?;
    } else if section == EXITS {
        kinds.push_back(ParamKind::Noun)?;
        kinds.push_back(ParamKind::Location)?;
    } else if section == OBJECTS {
        kinds.push_back(ParamKind::Object)?;
        kinds.push_back(ParamKind::Place)?;
        kinds.push_back(ParamKind::Number)?;
    }
    add_words(&mut kinds)?;
    Ok(kinds)
}

// The lines of a row.
fn data_named(
    alloc: Global,
    known: &[Known],
    kinds: VecDeque<ParamKind>,
    lines: Vec<LineInParts>,
) -> Result<Vec<LineInParts>, AllocError>
    ensures value { IfOk result (λ named. named.items ≡ data_named known.now kinds.items lines.items) }
{
    let mut left = VecDeque::from(lines);
    if let Some(line) = left.pop_front() {
        left.push_front(line_named(alloc, known, kinds, line)?)?;
    }
    Ok(Vec::from(left))
}

// Whether a unit is a row of words, exits or objects.
fn has_numbers(u: &Unit) -> bool
    ensures value { result ≡ has_numbers u.now }
{
    matches!(u.kind, UnitKind::Row)
        && (u.section == WORDS || u.section == EXITS || u.section == OBJECTS)
}

// A row with numbers in the place of names.
fn data_unit(alloc: Global, known: &[Known], u: Unit) -> Result<Unit, AllocError>
    ensures value { IfOk result (λ named. named ≡ record u { lines = data_named known.now (data_kinds u.section) u.lines }) }
{
    let Unit {
        section,
        table,
        file,
        kind,
        lines,
    } = u;
    let kinds = data_kinds(alloc, section)?;
    let lines = data_named(alloc, known, kinds, lines)?;
    Ok(Unit {
        section,
        table,
        file,
        kind,
        lines,
    })
}

// Whether a unit is an item of exits.
fn is_exits_item(u: &Unit) -> bool
    ensures value { result ≡ is_exits_item u.now }
{
    matches!(u.kind, UnitKind::Item) && u.section == EXITS
}

// The first part of an item of exits, with the number of a location in the place of its name.
fn mark_named(alloc: Global, known: &[Known], part: Fragment) -> Result<Fragment, AllocError>
    ensures value { IfOk result (λ named. named ≡ mark_named known.now part) }
{
    let word = part.bytes.as_slice();
    let number = number_for(NameKind::Location, without_first(word), known);
    Ok(Fragment {
        origin: part.origin,
        bytes: word_or_number(alloc, word, b"/", number)?,
    })
}

// The first line of an item of exits.
fn mark_line(alloc: Global, known: &[Known], line: LineInParts) -> Result<LineInParts, AllocError>
    ensures value { IfOk result (λ named. named ≡ mark_line known.now line) }
{
    let LineInParts { parts } = line;
    let mut left = VecDeque::from(parts);
    if let Some(part) = left.pop_front() {
        left.push_front(mark_named(alloc, known, part)?)?;
    }
    Ok(LineInParts {
        parts: Vec::from(left),
    })
}

// The lines of an item of exits.
fn item_named(
    alloc: Global,
    known: &[Known],
    lines: Vec<LineInParts>,
) -> Result<Vec<LineInParts>, AllocError>
    ensures value { IfOk result (λ named. named.items ≡ item_named known.now lines.items) }
{
    let mut left = VecDeque::from(lines);
    if let Some(line) = left.pop_front() {
        left.push_front(mark_line(alloc, known, line)?)?;
    }
    Ok(Vec::from(left))
}

// An item of exits with the number of a location.
fn item_unit(alloc: Global, known: &[Known], u: Unit) -> Result<Unit, AllocError>
    ensures value { IfOk result (λ named. named ≡ record u { lines = item_named known.now u.lines }) }
{
    let Unit {
        section,
        table,
        file,
        kind,
        lines,
    } = u;
    let lines = item_named(alloc, known, lines)?;
    Ok(Unit {
        section,
        table,
        file,
        kind,
        lines,
    })
}

// A unit outside of tables with numbers in the place of names.
fn other_named(alloc: Global, known: &[Known], u: Unit) -> Result<Unit, AllocError>
    ensures value { IfOk result (λ named. named ≡ record u { lines = other_lines known.now u }) }
{
    if has_numbers(&u) {
        data_unit(alloc, known, u)
    } else if is_exits_item(&u) {
        item_unit(alloc, known, u)
    } else {
        Ok(u)
    }
}

// A unit with numbers in the place of names.
fn unit_named(alloc: Global, known: &[Known], u: Unit) -> Result<Unit, AllocError>
    ensures value { IfOk result (λ named. named ≡ unit_named known.now u) }
{
    if is_table_entry(&u) {
        entry_unit(alloc, known, u)
    } else if is_numbered(&u) {
        header_unit(alloc, table_number(&u), u)
    } else {
        other_named(alloc, known, u)
    }
}

/// All units with numbers in the place of names.
///
/// # Errors
/// Where there is no memory.
pub(crate) fn units_named(
    alloc: Global,
    known: &[Known],
    units: Vec<Unit>,
) -> Result<Vec<Unit>, AllocError>
    ensures value { IfOk result (λ all. all.items ≡ map (λ u. unit_named known.now u) units.items) }
{
    let mut left = VecDeque::from(units);
    let mut all = Vec::new(alloc);
    while let Some(u) = left.pop_front() {
        all.push(unit_named(alloc, known, u)?)?;
    }
    Ok(all)
}
