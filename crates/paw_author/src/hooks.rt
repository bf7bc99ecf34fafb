// Places that are marked in tables: entries of other files stand there.

ghost use Rattle.std.specs.Prelude.{◌≡◌, ◌++◌, ◌==◌, ◌∷◌, [], IfOk, length, if◌then◌else◌};
ghost use Rattle.std.specs.List.{list_any};
ghost use Rattle.paw_read_error.specs.inner.Gives.{Gives};
ghost use Rattle.paw_author.specs.Tokens.{is_same};
ghost use Rattle.paw_author.specs.Hooks.{is_header, is_hook_kind, first_line, hook_name, hook_names, is_for_hook};
ghost use Rattle.paw_author.specs.Hooks.{stand_together, mark_the_same, hook_known, hooks_known};
ghost use Rattle.paw_author.specs.Hooks.{is_entry_for, lines_for, unit_lines};

use crate::fragment::{Fragment, LineInParts};
use crate::mistake::{AuthorError, wrong_line};
use crate::sections::NAMED_TABLES;
use crate::tokens::{is_same, line_origin, token_at};
use crate::units::{Unit, UnitKind};
use paw_base::fault::SourceKind;
use paw_read_error::read_error::ReadError;
use std::alloc::{AllocError, Global};
use std::marker::Model;

// ---- what a unit is ----

/// Whether a unit begins with a header.
pub(crate) fn is_header(u: &Unit) -> bool
    ensures value { result ≡ is_header u.now.kind }
{
    matches!(u.kind, UnitKind::Header)
}

/// Whether a unit marks a place.
pub(crate) fn is_hook(u: &Unit) -> bool
    ensures value { result ≡ is_hook_kind u.now.kind }
{
    matches!(u.kind, UnitKind::Hook)
}

/// The line that a unit begins with.
pub(crate) fn first_line(u: &Unit) -> &[Fragment]
    ensures value { result.now ≡ first_line u.now }
{
    match u.lines.first() {
        Some(line) => line.parts.as_slice(),
        None => &[],
    }
}

// The name of the place that a unit marks.
fn hook_name(u: &Unit) -> &[u8]
    ensures value { result.now ≡ hook_name u.now }
{
    token_at(1, first_line(u))
}

/// Whether the place that a unit marks has no name.
pub(crate) fn has_no_name(u: &Unit) -> bool
    ensures value { result ≡ (length (hook_name u.now) == 0) }
{
    hook_name(u).is_empty()
}

/// The name of a place; no byte for one without a name.
#[derive(Drop)]
pub(crate) struct HookName {
    bytes: Vec<u8>,
}

impl Model for HookName {
    ghost use Rattle.paw_base.specs.Bytes.{Name};

    ghost Value = { Name };

    ghost view = { λ n. n.bytes.items };
}

// Adds the name of the place that a unit marks, where it marks one.
fn add_hook_name(alloc: Global, u: &Unit, names: &mut Vec<HookName>) -> Result<(), AllocError>
    ensures value { IfOk result (λ _. names.new.items ≡ names.old.items ++ (if is_hook_kind u.now.kind then hook_name u.now ∷ [] else [])) }
{
    if is_hook(u) {
        names.push(HookName {
            bytes: Vec::from_slice(alloc, hook_name(u))?,
        })?;
    }
    Ok(())
}

/// The names of the places that are marked.
///
/// # Errors
/// Where there is no memory.
pub(crate) fn hook_names(alloc: Global, all: &[Unit]) -> Result<Vec<HookName>, AllocError>
    ensures value { IfOk result (λ names. names.items ≡ hook_names all.now) }
{
    let mut names = Vec::new(alloc);
    for u in all {
        add_hook_name(alloc, u, &mut names)?;
    }
    Ok(names)
}

// Whether a place has this name.
fn is_hook_named(hook: &HookName, name: &[u8]) -> bool
    ensures value { result ≡ is_same hook.now name.now }
{
    is_same(hook.bytes.as_slice(), name)
}

// Whether one of the places has this name.
fn is_marked_by(hooks: &[HookName], name: &[u8]) -> bool
    ensures value { result ≡ list_any (λ hook. is_same hook name.now) hooks.now }
{
    hooks.iter().any(|hook| is_hook_named(hook, name))
}

/// Whether a unit stands in a table whose name is that of a place.
pub(crate) fn is_for_hook(hooks: &[HookName], u: &Unit) -> bool
    ensures value { result ≡ is_for_hook hooks.now u.now }
{
    u.section == NAMED_TABLES && is_marked_by(hooks, u.table.as_slice())
}

// ---- faults ----

// Whether two units stand in the same table of the same file.
fn stand_together(u: &Unit, v: &Unit) -> bool
    ensures value { result ≡ stand_together u.now v.now }
{
    u.file == v.file && u.section == v.section && is_same(u.table.as_slice(), v.table.as_slice())
}

// Whether two units mark one place.
fn mark_the_same(u: &Unit, v: &Unit) -> bool
    ensures value { result ≡ mark_the_same u.now v.now }
{
    is_hook(v) && is_same(hook_name(u), hook_name(v)) && (!has_no_name(u) || stand_together(u, v))
}

// Whether one of the units before marks the same place.
fn is_marked(before: &[Unit], u: &Unit) -> bool
    ensures value { result ≡ list_any (λ v. mark_the_same u.now v) before.now }
{
    before.iter().any(|v| mark_the_same(u, v))
}

// Looks whether a unit marks no place that is marked already, and stands among no entries for one.
fn hook_known(hooks: &[HookName], before: &[Unit], u: &Unit) -> Result<(), AuthorError>
    ensures gives { Gives (λ _. tt) result (hook_known hooks.now before.now u.now) }
{
    if !is_hook(u) {
        return Ok(());
    }
    if is_for_hook(hooks, u) {
        return Err(ReadError::Fault(wrong_line(line_origin(first_line(u)), SourceKind::Section)));
    }
    if is_marked(before, u) {
        return Err(ReadError::Fault(wrong_line(line_origin(first_line(u)), SourceKind::Duplicate)));
    }
    Ok(())
}

/// Looks whether each place is marked once.
///
/// # Errors
/// Fault where one isn't.
pub(crate) fn hooks_known(hooks: &[HookName], all: &[Unit]) -> Result<(), AuthorError>
    ensures gives { Gives (λ _. tt) result (hooks_known hooks.now [] all.now) }
{
    for (i, u) in all.iter().enumerate() {
        hook_known(hooks, &all[..i], u)?;
    }
    Ok(())
}

// ---- lines ----

// The same bytes with the same origin.
fn copy_of_part(alloc: Global, part: &Fragment) -> Result<Fragment, AllocError>
    ensures value { IfOk result (λ copy. copy ≡ part.now) }
{
    Ok(Fragment {
        origin: part.origin,
        bytes: Vec::from_slice(alloc, part.bytes.as_slice())?,
    })
}

// A line with the same parts.
fn copy_of_line(alloc: Global, line: &[Fragment]) -> Result<LineInParts, AllocError>
    ensures value { IfOk result (λ copy. copy ≡ line.now) }
{
    let mut parts = Vec::new(alloc);
    for part in line {
        parts.push(copy_of_part(alloc, part)?)?;
    }
    Ok(LineInParts { parts })
}

/// Adds copies of lines.
///
/// # Errors
/// Where there is no memory.
pub(crate) fn add_lines(
    alloc: Global,
    lines: &[LineInParts],
    out: &mut Vec<LineInParts>,
) -> Result<(), AllocError>
    ensures value { IfOk result (λ _. out.new.items ≡ out.old.items ++ lines.now) }
{
    for line in lines {
        out.push(copy_of_line(alloc, line.parts.as_slice())?)?;
    }
    Ok(())
}

// Whether a unit is an entry for the place with this name.
fn is_entry_for(name: &[u8], u: &Unit) -> bool
    ensures value { result ≡ is_entry_for name.now u.now }
{
    u.section == NAMED_TABLES && is_same(u.table.as_slice(), name) && !is_header(u)
}

// Adds the lines of a unit where it is an entry for the place with this name.
fn add_entry_for(
    alloc: Global,
    name: &[u8],
    u: &Unit,
    out: &mut Vec<LineInParts>,
) -> Result<(), AllocError>
    ensures value { IfOk result (λ _. out.new.items ≡ out.old.items ++ (if is_entry_for name.now u.now then u.now.lines else [])) }
{
    if is_entry_for(name, u) {
        add_lines(alloc, u.lines.as_slice(), out)?;
    }
    Ok(())
}

// Adds the lines of the entries for the place with this name.
fn add_lines_for(
    alloc: Global,
    name: &[u8],
    all: &[Unit],
    out: &mut Vec<LineInParts>,
) -> Result<(), AllocError>
    ensures value { IfOk result (λ _. out.new.items ≡ out.old.items ++ lines_for name.now all.now) }
{
    for u in all {
        add_entry_for(alloc, name, u, out)?;
    }
    Ok(())
}

/// Adds the lines that come out for a unit.
///
/// # Errors
/// Where there is no memory.
pub(crate) fn add_unit(
    alloc: Global,
    all: &[Unit],
    u: &Unit,
    out: &mut Vec<LineInParts>,
) -> Result<(), AllocError>
    ensures value { IfOk result (λ _. out.new.items ≡ out.old.items ++ unit_lines all.now u.now) }
{
    if !is_hook(u) {
        add_lines(alloc, u.lines.as_slice(), out)
    } else if has_no_name(u) {
        Ok(())
    } else {
        add_lines_for(alloc, hook_name(u), all, out)
    }
}
