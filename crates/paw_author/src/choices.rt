// The parts of a file that stand between `/IF` and `/ENDIF`.

ghost use Rattle.std.specs.Prelude.{◌≡◌, ◌==◌};
ghost use Rattle.paw_read_error.specs.inner.Gives.{Gives};
ghost use Rattle.paw_author.specs.Tokens.{is_same};
ghost use Rattle.paw_author.specs.Choices.{if_line, with_token_count, is_on, after_if, after_else, after_endif, after_change, chosen_with};
ghost use Rattle.paw_author.specs.Choices.{all_taken, chosen_lines, chosen_from, no_line_yet, at_end};

use crate::file::Switch;
use crate::fragment::{Fragment, LineInParts, Origin};
use crate::mistake::{AuthorError, wrong_line};
use crate::tokens::{is_same, leading_word, line_origin, token_at, token_count};
use paw_base::fault::SourceKind;
use paw_read_error::read_error::ReadError;
use std::alloc::Global;
use std::collections::VecDeque;

/// What a line says of parts that may be left out. Wrong stands for one that has too few words or too many.
#[derive(Clone, Copy, Drop, PartialEq, Eq, Debug)]
pub(crate) enum IfLine {
    If,
    Else,
    EndIf,
    Wrong,
    Other,
}

/// An `/IF` whose `/ENDIF` is still to come: whether the half that is read is taken, whether it is the second one, and
/// where the `/IF` stands.
#[derive(Clone, Copy, Drop, PartialEq, Eq, Debug)]
pub(crate) struct OpenIf {
    pub(crate) taken: bool,
    pub(crate) second: bool,
    pub(crate) origin: Origin,
}

// The kind of a line that has to have this number of tokens.
fn with_token_count(count: usize, kind: IfLine, line: &[Fragment]) -> IfLine
    ensures value { result ≡ with_token_count count kind line.now }
{
    if token_count(line) == count {
        kind
    } else {
        IfLine::Wrong
    }
}

// What a line says of parts.
fn if_line(line: &[Fragment]) -> IfLine
    ensures value { result ≡ if_line line.now }
{
    let word = leading_word(line);
    if is_same(word, b"/IF") {
        with_token_count(2, IfLine::If, line)
    } else if is_same(word, b"/ELSE") {
        with_token_count(1, IfLine::Else, line)
    } else if is_same(word, b"/ENDIF") {
        with_token_count(1, IfLine::EndIf, line)
    } else {
        IfLine::Other
    }
}

// Whether a switch is this name, in any case of letters.
fn is_named(switch: &Switch, name: &[u8]) -> bool
    ensures value { result ≡ is_same switch.now name.now }
{
    is_same(switch.bytes.as_slice(), name)
}

// Whether one of the switches has this name.
fn is_on(switches: &[Switch], name: &[u8]) -> bool
    ensures value { result ≡ is_on switches.now name.now }
{
    switches.iter().any(|switch| is_named(switch, name))
}

// Whether all halves that are read are taken.
fn all_taken(parts: &VecDeque<OpenIf>) -> bool
    ensures value { result ≡ all_taken parts.now.items }
{
    parts.iter().all(|part| part.taken)
}

// Begins the second half of the innermost part.
fn begin_else(origin: Origin, parts: &mut VecDeque<OpenIf>) -> Result<(), AuthorError>
    ensures gives { Gives (λ _. parts.new.items) result (after_else origin parts.old.items) }
{
    match parts.pop_front() {
        None => Err(ReadError::Fault(wrong_line(origin, SourceKind::Section))),
        Some(part) => {
            if part.second {
                return Err(ReadError::Fault(wrong_line(origin, SourceKind::Section)));
            }
            parts.push_front(OpenIf {
                taken: !part.taken,
                second: true,
                origin: part.origin,
            })?;
            Ok(())
        }
    }
}

// Ends the innermost part.
fn close(origin: Origin, parts: &mut VecDeque<OpenIf>) -> Result<(), AuthorError>
    ensures gives { Gives (λ _. parts.new.items) result (after_endif origin parts.old.items) }
{
    match parts.pop_front() {
        None => Err(ReadError::Fault(wrong_line(origin, SourceKind::Section))),
        Some(_) => Ok(()),
    }
}

// Begins a part, which is taken where its switch is on.
fn open_part(taken: bool, origin: Origin, parts: &mut VecDeque<OpenIf>) -> Result<(), AuthorError>
    ensures gives { Gives (λ _. parts.new.items) result (after_if taken origin parts.old.items) }
{
    parts.push_front(OpenIf {
        taken,
        second: false,
        origin,
    })?;
    Ok(())
}

// What is open after a line of this kind.
fn change(
    switches: &[Switch],
    kind: IfLine,
    line: &[Fragment],
    parts: &mut VecDeque<OpenIf>,
) -> Result<(), AuthorError>
    ensures gives { Gives (λ _. parts.new.items) result (after_change switches.now kind line.now parts.old.items) }
{
    let origin = line_origin(line);
    match kind {
        IfLine::If => open_part(is_on(switches, token_at(1, line)), origin, parts),
        IfLine::Else => begin_else(origin, parts),
        IfLine::EndIf => close(origin, parts),
        IfLine::Wrong => Err(ReadError::Fault(wrong_line(origin, SourceKind::Section))),
        IfLine::Other => Ok(()),
    }
}

// Takes a line of a file after those above it.
fn take_line(
    switches: &[Switch],
    line: LineInParts,
    parts: &mut VecDeque<OpenIf>,
    lines: &mut Vec<LineInParts>,
) -> Result<(), AuthorError>
    ensures gives { Gives (λ _. record { parts = parts.new.items; lines = lines.new.items }) result
        (chosen_with switches.now (record { parts = parts.old.items; lines = lines.old.items }) line) }
{
    let kind = if_line(line.parts.as_slice());
    if kind != IfLine::Other {
        return change(switches, kind, line.parts.as_slice(), parts);
    }
    if all_taken(parts) {
        lines.push(line)?;
    }
    Ok(())
}

// The lines of a file at its end, where no part may be open.
fn at_end(parts: &VecDeque<OpenIf>) -> Result<(), AuthorError>
    ensures gives { Gives (λ _. tt) result (at_end parts.now.items) }
{
    match parts.front() {
        None => Ok(()),
        Some(part) => Err(ReadError::Fault(wrong_line(part.origin, SourceKind::Missing))),
    }
}

/// The lines of a file without those that aren't taken.
///
/// # Errors
/// The first fault, or lack of memory.
#[tactic(auto, unfolding(crate::specs::Choices::chosen_from))]
pub(crate) fn chosen_lines(
    alloc: Global,
    switches: &[Switch],
    file: Vec<LineInParts>,
) -> Result<Vec<LineInParts>, AuthorError>
    ensures gives { Gives (λ lines. lines.items) result (chosen_lines switches.now file.items) }
{
    let mut left = VecDeque::from(file);
    let mut parts = VecDeque::new(alloc);
    let mut lines = Vec::new(alloc);
    while let Some(line) = left.pop_front() {
        take_line(switches, line, &mut parts, &mut lines)?;
    }
    at_end(&parts)?;
    Ok(lines)
}
