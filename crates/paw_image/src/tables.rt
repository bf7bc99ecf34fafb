// Tables, their entries and condacts, as rows of an image.

ghost use Rattle.std.specs.Prelude.{◌≡◌, ◌++◌, IfOk, OnErr, OnOk};
ghost use Rattle.paw_game.specs.Image.{parameter_image, condact_image, entry_image, table_image};
ghost use Rattle.paw_image.specs.inner.Sizes.{FitsCondact, FitsEntry, FitsTable};
ghost use Rattle.paw_image.specs.Damage.{after_parameter, after_condact};
ghost use Rattle.paw_read_error.specs.inner.Gives.{Gives};
ghost use Rattle.paw_image.specs.inner.Reading.{IsFault, code_at, parameter_at};
ghost use Rattle.paw_image.specs.inner.Reading.{leading_condact, leading_entry, leading_table};
ghost use Rattle.paw_base.specs.Condacts.{first_kind, second_kind};

use crate::fault::ReadFault;
use crate::field_rules::FieldRules;
use crate::fields::{fault_at, read_byte, read_number, read_pair, write_number};
use crate::in_place::InPlace;
use crate::rows::{
    ReadRow, Row, length_of_few, length_of_rows, read_few, read_rows, write_few, write_rows,
};
use paw_base::parts::Condact;
use paw_base::rows::{ParamKind, condact_row};
use paw_game::parts::{Condacts, Entry, Table};
use paw_read_error::read_error::ReadError;
use std::alloc::{AllocError, Global};

// A code of a condact, and the kinds of its parameters.
fn read_code(bytes: &[u8]) -> Result<((u8, (ParamKind, ParamKind)), &[u8]), ReadFault>
    ensures gives { Gives (λ x. (x.0.0, x.1.now)) result (code_at bytes.now) }
    ensures fails { OnErr result (IsFault (code_at bytes.now)) }
    ensures first { IfOk result (λ x. x.0.1.0 ≡ first_kind x.0.0) }
    ensures second { IfOk result (λ x. x.0.1.1 ≡ second_kind x.0.0) }
{
    let (code, rest) = read_byte(bytes)?;
    match condact_row(code) {
        Some(row) => Ok(((code, (row.first, row.second)), rest)),
        None => Err(ReadError::Fault(bytes.len())),
    }
}

// A parameter of this kind; 0 where there is none.
fn read_parameter(kind: ParamKind, bytes: &[u8]) -> Result<(u8, &[u8]), ReadFault>
    ensures gives { Gives (λ x. (x.0, x.1.now)) result (parameter_at kind bytes.now) }
    ensures fails { OnErr result (IsFault (parameter_at kind bytes.now)) }
{
    match kind {
        ParamKind::Absent => Ok((0, bytes)),
        _ => read_byte(bytes),
    }
}

// Writes a parameter of this kind at the end; nothing where there is none.
fn write_parameter(kind: ParamKind, value: u8, out: &mut Vec<u8>) -> Result<(), AllocError>
    ensures writes { OnOk result (out.new.items ≡ out.old.items ++ parameter_image kind value) }
{
    match kind {
        ParamKind::Absent => {}
        _ => out.push(value)?,
    }
    Ok(())
}

/// The condact at the front.
#[tactic(auto, using(crate::proofs::Faults::fault_steps), unfolding(crate::specs::inner::Reading::leading_condact))]
pub fn read_condact(bytes: &[u8]) -> Result<(Condact, &[u8]), ReadFault>
    ensures gives { Gives (λ x. (x.0, x.1.now)) result (leading_condact bytes.now) }
    ensures fails { OnErr result (IsFault (leading_condact bytes.now)) }
{
    let ((code, (first, second)), rest) = read_code(bytes)?;
    let (a, rest) = read_parameter(first, rest)?;
    let (b, rest) = read_parameter(second, rest)?;
    Ok((Condact { code, a, b }, rest))
}

impl ReadRow for Condact {
    ghost reading = { leading_condact };

    fn read(_: Global, bytes: &[u8]) -> Result<(Condact, &[u8]), ReadFault> {
        read_condact(bytes)
    }
}

impl Row for Condact {
    ghost spelling = { condact_image };

    ghost fits = { FitsCondact };

    fn length(&self) -> usize {
        let row = condact_row(self.code).unwrap();
        1 + row.params()
    }

    fn write(&self, out: &mut Vec<u8>) -> Result<(), AllocError> {
        out.push(self.code)?;
        let row = condact_row(self.code).unwrap();
        write_parameter(row.first, self.a, out)?;
        write_parameter(row.second, self.b, out)
    }
}

impl ReadRow for Entry {
    ghost reading = { leading_entry };

    #[tactic(auto, unfolding(crate::specs::inner::Reading::leading_entry))]
    fn read(alloc: Global, bytes: &[u8]) -> Result<(Entry, &[u8]), ReadFault> {
        let ((verb, noun), rest) = read_pair(bytes)?;
        let (rows, rest) = read_few(alloc, rest)?;
        let condacts = Condacts { rows };
        let entry = Entry {
            verb,
            noun,
            condacts,
        };
        Ok((entry, rest))
    }
}

impl Row for Entry {
    ghost spelling = { entry_image };

    ghost fits = { FitsEntry };

    fn length(&self) -> usize {
        2 + length_of_few(&self.condacts.rows)
    }

    fn write(&self, out: &mut Vec<u8>) -> Result<(), AllocError> {
        out.extend_from_slice(&[self.verb, self.noun])?;
        write_few(&self.condacts.rows, out)
    }
}

impl ReadRow for Table {
    ghost reading = { leading_table };

    #[tactic(auto, unfolding(crate::specs::inner::Reading::leading_table))]
    fn read(alloc: Global, bytes: &[u8]) -> Result<(Table, &[u8]), ReadFault> {
        let (count, rest) = read_number(bytes)?;
        let (entries, rest) = read_rows(alloc, count as usize, rest)?;
        Ok((Table { rows: entries }, rest))
    }
}

impl Row for Table {
    ghost spelling = { table_image };

    ghost fits = { FitsTable };

    fn length(&self) -> usize {
        2 + length_of_rows(&self.rows)
    }

    fn write(&self, out: &mut Vec<u8>) -> Result<(), AllocError> {
        write_number(self.rows.len(), out)?;
        write_rows(&self.rows, out)
    }
}

// The bytes after a parameter of this kind.
fn pass_parameter<'a>(
    rules: &FieldRules,
    kind: ParamKind,
    bytes: &'a [u8],
) -> Result<&'a [u8], ReadFault>
    ensures gives { Gives (λ x. x.now) result (after_parameter rules.now kind bytes.now) }
{
    if matches!(kind, ParamKind::Absent) {
        return Ok(bytes);
    }
    let (value, rest) = read_byte(bytes)?;
    if !rules.game.is_parameter(kind, value) {
        return Err(fault_at(bytes));
    }
    Ok(rest)
}

// The bytes after the condact at the front.
#[tactic(auto, unfolding(crate::specs::Damage::after_condact))]
fn pass_condact<'a>(rules: &FieldRules, bytes: &'a [u8]) -> Result<&'a [u8], ReadFault>
    ensures gives { Gives (λ x. x.now) result (after_condact rules.now bytes.now) }
{
    let (code, rest) = read_byte(bytes)?;
    let Some(row) = rules.version.row_of(code) else {
        return Err(fault_at(bytes));
    };
    let rest = pass_parameter(rules, row.first, rest)?;
    pass_parameter(rules, row.second, rest)
}

impl InPlace for Condact {
    ghost passing = { after_condact };

    fn pass<'a>(rules: &FieldRules, bytes: &'a [u8]) -> Result<&'a [u8], ReadFault> {
        pass_condact(rules, bytes)
    }
}
