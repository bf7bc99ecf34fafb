// Where the rows of an image begin.

ghost use Rattle.std.specs.Prelude.{◌≡◌, ◌<◌, ◌^◌, IfOk, length};
ghost use Rattle.std.specs.List.{AllByRecursion};
ghost use Rattle.paw_image.specs.Damage.{each, after_lists, after_table};
ghost use Rattle.paw_image.specs.inner.Milestones.{IsEnd, HasMilestones};
ghost use Rattle.paw_image.specs.inner.Orders.{IsOrder};
ghost use Rattle.paw_image.specs.inner.Offsets.{entries_begin, entries_of, tables_begin, AreGoneOver};
ghost use Rattle.paw_read_error.specs.inner.Gives.{Gives};
ghost use Rattle.paw_image.specs.inner.Views.{HaveMilestones, AreOrdered};

use crate::fault::ReadFault;
use crate::field_rules::FieldRules;
use crate::fields::read_within;
use crate::in_place::pass_rows;
use crate::milestones::{Milestones, pass_entries};
use crate::order::{Order, order_of};
use paw_base::limits::ENTRY_LIMIT;
use paw_game::parts::{Exits, ObjectRow, Text};
use std::alloc::Global;

/// Where the rows of each list begin, so that a row is found without going over those before it.
#[derive(Drop)]
pub struct Offsets {
    pub system: Vec<u32>,
    pub messages: Vec<u32>,
    pub objects: Vec<u32>,
    pub locations: Vec<u32>,
    pub exits: Vec<u32>,
    pub tables: Vec<TableIndex>,
}

/// Where the entries of a table begin, the milestones in their condacts, and the entries in order of verb and noun.
#[derive(Drop)]
pub struct TableIndex {
    pub entries: Vec<u32>,
    pub milestones: Milestones,
    pub order: Order,
}

// Passes over the table at the front of the last of all bytes: its index, and the bytes after it.
#[tactic(auto, unfolding(crate::specs::Damage::after_table, crate::specs::inner::Offsets::entries_begin))]
fn pass_table<'a>(
    alloc: Global,
    rules: &FieldRules,
    all: &[u8],
    bytes: &'a [u8],
) -> Result<(TableIndex, &'a [u8]), ReadFault>
    requires small { length all.now < 2 ^ 32 }
    ensures gives { Gives (λ x. x.1.now) result (after_table rules.now bytes.now) }
    ensures entries { IfOk result (λ x. x.0.entries.items ≡ entries_begin rules.now (length all.now) bytes.now) }
    ensures order { IfOk result (λ x. IsOrder all.now x.0.entries.items x.0.order) }
    ensures marked { IsEnd all.now bytes.now → IfOk result (λ x. HasMilestones all.now x.0) }
{
    let (count, rest) = read_within(0, ENTRY_LIMIT, bytes)?;
    let ((entries, milestones), rest) = pass_entries(alloc, rules, count as usize, all, rest)?;
    let order = order_of(alloc, all, &entries)?;
    let table = TableIndex {
        entries,
        milestones,
        order,
    };
    Ok((table, rest))
}

// Passes over a number of tables: the index of each, and the bytes after them.
fn pass_tables<'a>(
    alloc: Global,
    rules: &FieldRules,
    count: usize,
    all: &[u8],
    bytes: &'a [u8],
) -> Result<(Vec<TableIndex>, &'a [u8]), ReadFault>
    requires small { length all.now < 2 ^ 32 }
    ensures gives { Gives (λ x. x.1.now) result (each (after_table rules.now) count bytes.now) }
    ensures begin { IfOk result (λ x. entries_of x.0.items ≡ tables_begin rules.now (length all.now) count bytes.now) }
    ensures order { IfOk result (λ x. AllByRecursion (λ t. IsOrder all.now t.entries.items t.order) x.0.items) }
    ensures marked { IsEnd all.now bytes.now → IfOk result (λ x. AllByRecursion (HasMilestones all.now) x.0.items) }
{
    let mut tables = Vec::new(alloc);
    let mut rest = bytes;
    for _ in 0..count {
        let (table, after) = pass_table(alloc, rules, all, rest)?;
        tables.push(table)?;
        rest = after;
    }
    Ok((tables, rest))
}

/// Passes over the lists after the words: where their rows begin, and the bytes after them.
#[tactic(auto, unfolding(crate::specs::Damage::after_lists))]
pub fn pass_lists<'a>(
    alloc: Global,
    rules: &FieldRules,
    all: &[u8],
    bytes: &'a [u8],
) -> Result<(Offsets, &'a [u8]), ReadFault>
    requires small { length all.now < 2 ^ 32 }
    ensures gives { Gives (λ x. x.1.now) result (after_lists rules.now bytes.now) }
    ensures over { IfOk result (λ x. AreGoneOver rules.now (length all.now) bytes.now x.0) }
    ensures order { IfOk result (λ x. AreOrdered all.now x.0) }
    ensures marked { IsEnd all.now bytes.now → IfOk result (λ x. HaveMilestones all.now x.0) }
{
    let lengths = rules.game.lengths();
    let total = all.len();
    let (system, rest) = pass_rows::<Text>(alloc, rules, lengths.system, total, bytes)?;
    let (messages, rest) = pass_rows::<Text>(alloc, rules, lengths.messages, total, rest)?;
    let (objects, rest) = pass_rows::<ObjectRow>(alloc, rules, lengths.objects, total, rest)?;
    let (locations, rest) = pass_rows::<Text>(alloc, rules, lengths.locations, total, rest)?;
    let (exits, rest) = pass_rows::<Exits>(alloc, rules, lengths.locations, total, rest)?;
    let (tables, rest) = pass_tables(alloc, rules, lengths.tables, all, rest)?;
    let offsets = Offsets {
        system,
        messages,
        objects,
        locations,
        exits,
        tables,
    };
    Ok((offsets, rest))
}
