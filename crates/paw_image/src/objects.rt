// Objects, as rows of an image.

ghost use Rattle.std.specs.Prelude.{◌≡◌, ◌<◌, OnErr};
ghost use Rattle.paw_game.specs.Image.{weight_byte, object_image};
ghost use Rattle.paw_image.specs.Damage.{after_facts, after_object};
ghost use Rattle.paw_read_error.specs.inner.Gives.{Gives};
ghost use Rattle.paw_image.specs.inner.Reading.{IsFault, leading_facts, object_at};
ghost use Rattle.paw_image.specs.inner.Rows.{after_text_facts};
ghost use Rattle.paw_image.specs.inner.Sizes.{FitsObject};

use crate::fault::ReadFault;
use crate::field_rules::FieldRules;
use crate::fields::{fault_at, read_byte};
use crate::in_place::InPlace;
use crate::rows::{ReadRow, Row};
use crate::texts::read_text;
use paw_base::parts::ObjectFacts;
use paw_game::parts::{ObjectRow, Text};
use std::alloc::{AllocError, Global};

/// The bits of an object's last byte that are its weight.
const WEIGHT_BITS: u8 = 0b0011_1111;

/// The bit of an object's last byte that marks a container.
const CONTAINER_BIT: u8 = 0b0100_0000;

/// The bit of an object's last byte that marks what may be worn.
const WEARABLE_BIT: u8 = 0b1000_0000;

/// The facts of the object whose text was read, and the bytes after them.
#[tactic(auto, using(crate::proofs::Faults::fault_steps), unfolding(crate::specs::inner::Reading::leading_facts))]
pub fn read_facts(bytes: &[u8]) -> Result<(ObjectFacts, &[u8]), ReadFault>
    ensures gives { Gives (λ x. (x.0, x.1.now)) result (leading_facts bytes.now) }
    ensures fails { OnErr result (IsFault (leading_facts bytes.now)) }
{
    let (noun, rest) = read_byte(bytes)?;
    let (adjective, rest) = read_byte(rest)?;
    let (start, rest) = read_byte(rest)?;
    let (weight, rest) = read_byte(rest)?;
    let facts = ObjectFacts {
        noun,
        adjective,
        start,
        weight: weight & WEIGHT_BITS,
        container: weight & CONTAINER_BIT != 0,
        wearable: weight & WEARABLE_BIT != 0,
    };
    Ok((facts, rest))
}

/// The facts of the object at the front.
#[tactic(auto, using(crate::proofs::Faults::fault_steps))]
pub fn read_after_text(bytes: &[u8]) -> Result<(ObjectFacts, &[u8]), ReadFault>
    ensures gives { Gives (λ x. (x.0, x.1.now)) result (after_text_facts bytes.now) }
    ensures fails { OnErr result (IsFault (after_text_facts bytes.now)) }
{
    let (_, rest) = read_text(bytes)?;
    read_facts(rest)
}

// The last byte of an object: its weight, and a bit for each of a container and what may be worn.
fn last_byte(facts: ObjectFacts) -> u8
    requires fits { facts.weight < 64 }
    ensures value { result ≡ weight_byte facts.weight facts.container facts.wearable }
{
    let container = if facts.container { CONTAINER_BIT } else { 0 };
    let wearable = if facts.wearable { WEARABLE_BIT } else { 0 };
    facts.weight + container + wearable
}

impl Row for ObjectRow {
    ghost spelling = { object_image };

    ghost fits = { FitsObject };

    fn length(&self) -> usize {
        self.text.length() + 4
    }

    fn write(&self, out: &mut Vec<u8>) -> Result<(), AllocError> {
        self.text.write(out)?;
        let facts = self.facts;
        out.extend_from_slice(&[facts.noun, facts.adjective, facts.start, last_byte(facts)])
    }
}

impl ReadRow for ObjectRow {
    ghost reading = { object_at };

    #[tactic(auto, unfolding(crate::specs::inner::Reading::object_at))]
    fn read(alloc: Global, bytes: &[u8]) -> Result<(ObjectRow, &[u8]), ReadFault> {
        let (text, rest) = Text::read(alloc, bytes)?;
        let (facts, rest) = read_facts(rest)?;
        Ok((ObjectRow { text, facts }, rest))
    }
}

// The bytes after the facts of an object, which follow its text.
#[tactic(auto, unfolding(crate::specs::Damage::after_facts))]
fn pass_facts<'a>(rules: &FieldRules, bytes: &'a [u8]) -> Result<&'a [u8], ReadFault>
    ensures gives { Gives (λ x. x.now) result (after_facts rules.now bytes.now) }
{
    let (noun, adjectives) = read_byte(bytes)?;
    if !rules.game.is_noun_or_none(noun) {
        return Err(fault_at(bytes));
    }
    let (adjective, starts) = read_byte(adjectives)?;
    if !rules.game.is_adjective_or_none(adjective) {
        return Err(fault_at(adjectives));
    }
    let (start, weights) = read_byte(starts)?;
    if !rules.game.is_place(start) {
        return Err(fault_at(starts));
    }
    let (_, rest) = read_byte(weights)?;
    Ok(rest)
}

impl InPlace for ObjectRow {
    ghost passing = { after_object };

    fn pass<'a>(rules: &FieldRules, bytes: &'a [u8]) -> Result<&'a [u8], ReadFault> {
        let facts = Text::pass(rules, bytes)?;
        pass_facts(rules, facts)
    }
}
