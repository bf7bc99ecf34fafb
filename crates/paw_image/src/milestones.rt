// Milestones in the condacts of entries, so that a condact is found without those far before it.

ghost use Rattle.std.specs.Prelude.{◌≡◌, ◌+◌, ◌*◌, ◌≤◌, ◌<◌, ◌^◌, IfOk, OnOk, drop, length};
ghost use Rattle.paw_image.specs.inner.Milestones.{milestones_of, AreMilestones, IsEnd, BeginsWithList};
ghost use Rattle.paw_image.specs.inner.Milestones.{EntriesMilestones, EntryMilestones};
ghost use Rattle.paw_image.specs.Damage.{after_condact, after_entry, each};
ghost use Rattle.paw_image.specs.inner.Offsets.{begins};
ghost use Rattle.paw_read_error.specs.inner.Gives.{Gives};

use crate::fault::ReadFault;
use crate::field_rules::FieldRules;
use crate::fields::{fault_at, read_byte};
use crate::in_place::pass_each;
use paw_base::limits::ENTRY_LIMIT;
use paw_base::parts::Condact;
use paw_game::values::is_wildcard;
use std::alloc::Global;

/// Where the condacts of a table's entries go on after each eight of them.
#[derive(Drop)]
pub struct Milestones {
    /// The number of the first milestone of each entry.
    pub firsts: Vec<u32>,
    /// Each a number of bytes from the first condact of its entry on.
    pub milestones: Vec<u16>,
}

impl Milestones {
    /// The milestones from those of an entry on.
    pub fn from_entry(&self, entry: u16) -> &[u16]
        ensures value { result.now ≡ milestones_of self.now entry }
    {
        let first = match self.firsts.get(entry as usize) {
            Some(first) => *first as usize,
            None => 0,
        };
        if first > self.milestones.len() {
            return &[];
        }
        &self.milestones[first..]
    }
}

// The bytes after this number of condacts; a milestone is noted after each eight that another follows.
fn pass_condacts<'a>(
    rules: &FieldRules,
    count: u8,
    bytes: &'a [u8],
    milestones: &mut Vec<u16>,
) -> Result<&'a [u8], ReadFault>
    ensures gives { Gives (λ x. x.now) result (each (after_condact rules.now) count bytes.now) }
    ensures milestones { OnOk result
        (AreMilestones (drop (length milestones.old.items) milestones.new.items) count bytes.now) }
    ensures extends { OnOk result (BeginsWithList milestones.old.items milestones.new.items) }
    ensures few { OnOk result (length milestones.new.items ≤ length milestones.old.items + 31) }
{
    // An entry with no condact has no eight that another follows.
    let eights = count.saturating_sub(1) / 8;
    let mut rest = bytes;
    for _ in 0..eights {
        rest = pass_each::<Condact>(rules, 8, rest)?;
        // What is left is a part of all bytes: saturating says so without a proof.
        milestones.push(bytes.len().saturating_sub(rest.len()) as u16)?;
    }
    pass_each::<Condact>(rules, (count - eights * 8) as usize, rest)
}

// The bytes after the entry at the front, whose milestones are noted.
#[tactic(auto, unfolding(crate::specs::Damage::after_entry))]
fn pass_entry<'a>(
    rules: &FieldRules,
    bytes: &'a [u8],
    milestones: &mut Vec<u16>,
) -> Result<&'a [u8], ReadFault>
    ensures gives { Gives (λ x. x.now) result (after_entry rules.now bytes.now) }
    ensures milestones { OnOk result
        (EntryMilestones (drop (length milestones.old.items) milestones.new.items) bytes.now) }
    ensures extends { OnOk result (BeginsWithList milestones.old.items milestones.new.items) }
    ensures few { OnOk result (length milestones.new.items ≤ length milestones.old.items + 31) }
{
    let (verb, nouns) = read_byte(bytes)?;
    if !is_wildcard(verb) && !rules.game.is_verb_value(verb) {
        return Err(fault_at(bytes));
    }
    let (noun, counts) = read_byte(nouns)?;
    if !is_wildcard(noun) && !rules.game.is_noun(noun) {
        return Err(fault_at(nouns));
    }
    let (count, rest) = read_byte(counts)?;
    pass_condacts(rules, count, rest, milestones)
}

/// Passes over a number of entries at the front of the last of all bytes: where each begins, their milestones, and the
/// bytes after them.
pub fn pass_entries<'a>(
    alloc: Global,
    rules: &FieldRules,
    count: usize,
    all: &[u8],
    bytes: &'a [u8],
) -> Result<((Vec<u32>, Milestones), &'a [u8]), ReadFault>
    requires small { length all.now < 2 ^ 32 }
    requires few { count ≤ ENTRY_LIMIT }
    ensures gives { Gives (λ x. x.1.now) result (each (after_entry rules.now) count bytes.now) }
    ensures offsets { IfOk result (λ x. x.0.0.items ≡ begins (after_entry rules.now) (length all.now) count bytes.now) }
    ensures many { IfOk result (λ x. length x.0.0.items ≤ count) }
    ensures milestones { IsEnd all.now bytes.now →
        IfOk result (λ x. EntriesMilestones all.now x.0.0.items x.0.1.firsts.items x.0.1.milestones.items) }
{
    let mut offsets = Vec::new(alloc);
    let mut firsts = Vec::new(alloc);
    let mut milestones = Vec::new(alloc);
    let mut rest = bytes;
    for _ in 0..count {
        // As above.
        offsets.push(all.len().saturating_sub(rest.len()) as u32)?;
        firsts.push(milestones.len() as u32)?;
        rest = pass_entry(rules, rest, &mut milestones)?;
    }
    Ok(((offsets, Milestones { firsts, milestones }), rest))
}
