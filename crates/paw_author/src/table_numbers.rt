// The numbers of tables: a table has the one that is written, and otherwise the least that no table has.

ghost use Rattle.std.specs.Prelude.{◌≡◌, ◌-◌, ◌++◌, ◌==◌, ◌&&◌, not, ◌∷◌, [], IfOk, IsTrue, Ok, if◌then◌else◌, map};
ghost use Rattle.paw_read_error.specs.inner.Gives.{Gives};
ghost use Rattle.paw_author.specs.declared.sections.TheConstants.{TABLES, NAMED_TABLES};
ghost use Rattle.paw_author.specs.declared.known.NameKind.TheVariants.{Table};
ghost use Rattle.paw_author.specs.Hooks.{is_for_hook};
ghost use Rattle.paw_author.specs.Known.{number_for};
ghost use Rattle.paw_author.specs.TableNumbers.{is_numbered, numbers_written, is_table_name, numbers_known, first_taken, known_once, name_written};
ghost use Rattle.paw_author.specs.TableNumbers.{names_written, is_named_table, name_given, names_given};
ghost use Rattle.paw_author.specs.TableNumbers.{tables_known, moved_to_table, unit_numbered};

use crate::fragment::Origin;
use crate::hooks::{HookName, first_line, is_for_hook, is_header};
use crate::known::{
    Known, NameKind, Numbers, given_once, kind_index, may_be_name, name_for, number_for,
};
use crate::mistake::{AuthorError, wrong_line};
use crate::sections::{NAMED_TABLES, TABLES};
use crate::tokens::{token_at, token_count, token_origin};
use crate::units::Unit;
use paw_base::fault::SourceKind;
use paw_read_error::read_error::ReadError;
use std::alloc::{AllocError, Global};
use std::collections::VecDeque;

/// The least number that is given.
const FIRST_GIVEN: u16 = 3;

/// How many numbers may be given.
const GIVEN_COUNT: u16 = 253;

// ---- written numbers ----

/// Whether a unit is the header of a table with a number.
pub(crate) fn is_numbered(u: &Unit) -> bool
    ensures value { result ≡ is_numbered u.now }
{
    is_header(u) && TABLES <= u.section && u.section < NAMED_TABLES
}

/// The number of the table with this header.
pub(crate) fn table_number(u: &Unit) -> u16
    requires numbered { IsTrue (is_numbered u.now) }
    ensures value { result ≡ u.now.section - TABLES }
{
    (u.section - TABLES) as u16
}

// Adds the number of a table, where a unit is a header with one.
fn add_number(u: &Unit, numbers: &mut Vec<u16>) -> Result<(), AllocError>
    ensures value { IfOk result (λ _. numbers.new.items ≡ numbers.old.items ++ (if is_numbered u.now then (u.now.section - TABLES) ∷ [] else [])) }
{
    if is_numbered(u) {
        numbers.push(table_number(u))?;
    }
    Ok(())
}

// Adds the numbers that are written.
fn add_numbers(all: &[Unit], numbers: &mut Vec<u16>) -> Result<(), AllocError>
    ensures value { IfOk result (λ _. numbers.new.items ≡ numbers.old.items ++ numbers_written all.now) }
{
    for u in all {
        add_number(u, numbers)?;
    }
    Ok(())
}

// A name is known for one number alone.
fn known_once(
    alloc: Global,
    number: u16,
    before: Option<u16>,
    origin: Origin,
    name: &[u8],
    known: Vec<Known>,
) -> Result<Vec<Known>, AuthorError>
    ensures gives { Gives (λ more. more.items) result (known_once number before origin name.now known.items) }
{
    let mut more = known;
    match before {
        None => {
            more.push(name_for(alloc, NameKind::Table, name, number)?)?;
            Ok(more)
        }
        Some(other) => {
            if other != number {
                return Err(ReadError::Fault(wrong_line(origin, SourceKind::Duplicate)));
            }
            Ok(more)
        }
    }
}

// The names so far with the one that stands after a number in a header.
fn name_written(alloc: Global, u: &Unit, known: Vec<Known>) -> Result<Vec<Known>, AuthorError>
    requires table { IsTrue (is_numbered u.now) }
    ensures gives { Gives (λ more. more.items) result (name_written u.now known.items) }
{
    let line = first_line(u);
    if token_count(line) <= 2 {
        return Ok(known);
    }
    let name = token_at(2, line);
    let origin = token_origin(2, line);
    if !may_be_name(name) {
        return Err(ReadError::Fault(wrong_line(origin, SourceKind::Word)));
    }
    let before = number_for(NameKind::Table, name, known.as_slice());
    known_once(alloc, table_number(u), before, origin, name, known)
}

// The names so far with that of a unit, where it is the header of a table with a number.
fn unit_written(alloc: Global, u: &Unit, known: Vec<Known>) -> Result<Vec<Known>, AuthorError>
    ensures gives { Gives (λ more. more.items) result (if is_numbered u.now then name_written u.now known.items else Ok known.items) }
{
    if is_numbered(u) {
        name_written(alloc, u, known)
    } else {
        Ok(known)
    }
}

// The names so far with all that stand after numbers.
#[tactic(auto, unfolding(crate::specs::TableNumbers::names_written))]
fn names_written(alloc: Global, known: Vec<Known>, all: &[Unit]) -> Result<Vec<Known>, AuthorError>
    ensures gives { Gives (λ more. more.items) result (names_written known.items all.now) }
{
    let mut more = known;
    let mut left = all;
    while let Some((u, below)) = left.split_first() {
        more = unit_written(alloc, u, more)?;
        left = below;
    }
    Ok(more)
}

// ---- given numbers ----

// Whether a unit is the header of a table with a name alone, which isn't that of a place.
fn is_named_table(hooks: &[HookName], u: &Unit) -> bool
    ensures value { result ≡ is_named_table hooks.now u.now }
{
    is_header(u) && u.section == NAMED_TABLES && !is_for_hook(hooks, u)
}

// What is given for the header of a table with a name alone.
fn name_given(alloc: Global, u: &Unit, s: Numbers) -> Result<Numbers, AuthorError>
    ensures gives { Gives (λ next. next) result (name_given u.now s) }
{
    let name = u.table.as_slice();
    let origin = token_origin(1, first_line(u));
    if !may_be_name(name) {
        return Err(ReadError::Fault(wrong_line(origin, SourceKind::Word)));
    }
    given_once(
        alloc,
        FIRST_GIVEN,
        GIVEN_COUNT,
        NameKind::Table,
        origin,
        name,
        s,
    )
}

// What is given for a unit, where it is the header of a table with a name alone.
fn unit_given(
    alloc: Global,
    hooks: &[HookName],
    u: &Unit,
    s: Numbers,
) -> Result<Numbers, AuthorError>
    ensures gives { Gives (λ next. next) result (if is_named_table hooks.now u.now then name_given u.now s else Ok s) }
{
    if is_named_table(hooks, u) {
        name_given(alloc, u, s)
    } else {
        Ok(s)
    }
}

// What is given for all units.
#[tactic(auto, unfolding(crate::specs::TableNumbers::names_given))]
fn names_given(
    alloc: Global,
    hooks: &[HookName],
    all: &[Unit],
    s: Numbers,
) -> Result<Numbers, AuthorError>
    ensures gives { Gives (λ next. next) result (names_given hooks.now s all.now) }
{
    let mut next = s;
    let mut left = all;
    while let Some((u, below)) = left.split_first() {
        next = unit_given(alloc, hooks, u, next)?;
        left = below;
    }
    Ok(next)
}

// Whether a name is that of a table.
fn is_table_name(known: &Known) -> bool
    ensures value { result ≡ is_table_name known.now }
{
    kind_index(known.kind) == kind_index(NameKind::Table)
}

// Adds the number of a name, where it is that of a table.
fn add_known(known: &Known, numbers: &mut Vec<u16>) -> Result<(), AllocError>
    ensures value { IfOk result (λ _. numbers.new.items ≡ numbers.old.items ++ (if is_table_name known.now then known.now.number ∷ [] else [])) }
{
    if is_table_name(known) {
        numbers.push(known.number)?;
    }
    Ok(())
}

// Adds the numbers of tables that are known by a name.
fn add_numbers_known(known: &[Known], numbers: &mut Vec<u16>) -> Result<(), AllocError>
    ensures value { IfOk result (λ _. numbers.new.items ≡ numbers.old.items ++ numbers_known known.now) }
{
    for k in known {
        add_known(k, numbers)?;
    }
    Ok(())
}

// The numbers that tables have before any is given.
fn first_taken(known: &[Known], alloc: Global, all: &[Unit]) -> Result<Vec<u16>, AllocError>
    ensures value { IfOk result (λ taken. taken.items ≡ first_taken known.now all.now) }
{
    let mut taken = Vec::new(alloc);
    taken.push(0)?;
    taken.push(1)?;
    taken.push(2)?;
    add_numbers_known(known, &mut taken)?;
    add_numbers(all, &mut taken)?;
    Ok(taken)
}

/// The names so far with those of all tables.
///
/// # Errors
/// The first fault, or lack of memory.
pub(crate) fn tables_known(
    alloc: Global,
    hooks: &[HookName],
    known: Vec<Known>,
    all: &[Unit],
) -> Result<Vec<Known>, AuthorError>
    ensures gives { Gives (λ more. more.items) result (tables_known hooks.now known.items all.now) }
{
    let taken = first_taken(known.as_slice(), alloc, all)?;
    let known = names_written(alloc, known, all)?;
    let s = names_given(alloc, hooks, all, Numbers { known, taken })?;
    let Numbers { known, .. } = s;
    Ok(known)
}

// ---- units ----

// The unit of a table with this number.
fn moved_to_table(alloc: Global, number: Option<u16>, u: Unit) -> Unit
    ensures value { result ≡ moved_to_table number u }
{
    match number {
        None => u,
        Some(n) => {
            let Unit {
                file,
                kind,
                lines,
                ..
            } = u;
            Unit {
                section: TABLES + n as usize,
                table: Vec::new(alloc),
                file,
                kind,
                lines,
            }
        }
    }
}

// A unit of a table with a name, in the table that has its number.
fn unit_numbered(alloc: Global, hooks: &[HookName], known: &[Known], u: Unit) -> Unit
    ensures value { result ≡ unit_numbered hooks.now known.now u }
{
    if !is_in_named_table(hooks, &u) {
        return u;
    }
    let number = number_of_table(known, &u);
    moved_to_table(alloc, number, u)
}

// Whether a unit stands in a table with a name, and isn't for a place.
fn is_in_named_table(hooks: &[HookName], u: &Unit) -> bool
    ensures value { result ≡ (u.now.section == NAMED_TABLES && not (is_for_hook hooks.now u.now)) }
{
    u.section == NAMED_TABLES && !is_for_hook(hooks, u)
}

// The number of the table with a name in which a unit stands.
fn number_of_table(known: &[Known], u: &Unit) -> Option<u16>
    ensures value { result ≡ number_for Table u.now.table known.now }
{
    number_for(NameKind::Table, u.table.as_slice(), known)
}

/// All units, those of tables with names in the tables that have their numbers.
///
/// # Errors
/// Where there is no memory.
pub(crate) fn units_numbered(
    alloc: Global,
    hooks: &[HookName],
    known: &[Known],
    units: Vec<Unit>,
) -> Result<Vec<Unit>, AllocError>
    ensures value { IfOk result (λ all. all.items ≡ map (λ u. unit_numbered hooks.now known.now u) units.items) }
{
    let mut left = VecDeque::from(units);
    let mut all = Vec::new(alloc);
    while let Some(u) = left.pop_front() {
        all.push(unit_numbered(alloc, hooks, known, u))?;
    }
    Ok(all)
}
