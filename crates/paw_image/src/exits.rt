// Exits, as rows of an image.

ghost use Rattle.paw_game.specs.Image.{exit_image, exits_image};
ghost use Rattle.std.specs.Prelude.{ℕ, List, []};
ghost use Rattle.paw_image.specs.Damage.{checked_exit, after_exits_of, after_exits};
ghost use Rattle.paw_image.specs.inner.Marks.{Marks};
ghost use Rattle.paw_read_error.specs.inner.Gives.{Gives};
ghost use Rattle.paw_image.specs.inner.Reading.{leading_exit, exits_at};
ghost use Rattle.paw_image.specs.inner.Sizes.{FitsExit, FitsExits};

use crate::fault::ReadFault;
use crate::field_rules::FieldRules;
use crate::fields::{fault_at, read_byte, read_pair};
use crate::in_place::InPlace;
use crate::rows::{ReadRow, Row, length_of_few, read_few, write_few};
use paw_game::parts::{Exit, Exits};
use std::alloc::{AllocError, Global};

impl ReadRow for Exit {
    ghost reading = { leading_exit };

    #[tactic(auto, unfolding(crate::specs::inner::Reading::leading_exit))]
    fn read(_: Global, bytes: &[u8]) -> Result<(Exit, &[u8]), ReadFault> {
        let ((verb, to), rest) = read_pair(bytes)?;
        Ok((Exit { verb, to }, rest))
    }
}

impl Row for Exit {
    ghost spelling = { exit_image };

    ghost fits = { FitsExit };

    fn length(&self) -> usize {
        2
    }

    fn write(&self, out: &mut Vec<u8>) -> Result<(), AllocError> {
        out.extend_from_slice(&[self.verb, self.to])
    }
}

impl ReadRow for Exits {
    ghost reading = { exits_at };

    fn read(alloc: Global, bytes: &[u8]) -> Result<(Exits, &[u8]), ReadFault> {
        let (rows, rest) = read_few(alloc, bytes)?;
        Ok((Exits { rows }, rest))
    }
}

impl Row for Exits {
    ghost spelling = { exits_image };

    ghost fits = { FitsExits };

    fn length(&self) -> usize {
        length_of_few(&self.rows)
    }

    fn write(&self, out: &mut Vec<u8>) -> Result<(), AllocError> {
        write_few(&self.rows, out)
    }
}

// The verb of the exit at the front, which isn't one of the marked verbs, and the bytes after the exit.
#[tactic(auto, unfolding(crate::specs::Damage::checked_exit))]
fn read_exit<'a>(
    rules: &FieldRules,
    marks: &[bool; 256],
    bytes: &'a [u8],
) -> Result<(u8, &'a [u8]), ReadFault>
    ensures gives { (verbs : List ℕ) → Marks marks.now verbs →
        Gives (λ x. (x.0, x.1.now)) result (checked_exit rules.now verbs bytes.now) }
{
    let (verb, locations) = read_byte(bytes)?;
    if !rules.game.is_verb_value(verb) || marks[verb as usize] {
        return Err(fault_at(bytes));
    }
    let (to, rest) = read_byte(locations)?;
    if !rules.game.is_location(to) {
        return Err(fault_at(locations));
    }
    Ok((verb, rest))
}

// The bytes after this number of exits of one location.
fn pass_exits<'a>(rules: &FieldRules, count: u8, bytes: &'a [u8]) -> Result<&'a [u8], ReadFault>
    ensures gives { Gives (λ x. x.now) result (after_exits_of rules.now [] count bytes.now) }
{
    // Which verbs came already, so that an exit needn't be compared with all before it.
    let mut marks = [false; 256];
    let mut rest = bytes;
    for _ in 0..count {
        let (verb, after) = read_exit(rules, &marks, rest)?;
        marks[verb as usize] = true;
        rest = after;
    }
    Ok(rest)
}

impl InPlace for Exits {
    ghost passing = { after_exits };

    #[tactic(auto, unfolding(crate::specs::Damage::after_exits))]
    fn pass<'a>(rules: &FieldRules, bytes: &'a [u8]) -> Result<&'a [u8], ReadFault> {
        let (count, rest) = read_byte(bytes)?;
        pass_exits(rules, count, rest)
    }
}
