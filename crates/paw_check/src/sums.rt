// What reading a table takes, verb by verb. Numbers stop at the greatest of 32 bits.

ghost use Rattle.std.specs.Prelude.{◌≡◌, ℕ, ◌+◌, ◌*◌, ◌<◌, ◌≤◌, ◌==◌, cond, max, length, count_by, sum_by};
ghost use Rattle.std.specs.List.{slice_index_or};
ghost use Rattle.paw_check.specs.Calls.{is_call_of};
ghost use Rattle.paw_check.specs.Costs.{with_call};
ghost use Rattle.paw_check.specs.inner.Capped.{HoldsCapped, in_32_bits, cell_at, is_doall, is_for_every, over_every};
ghost use Rattle.paw_check.specs.inner.Capped.{over_verb};
ghost use Rattle.paw_check.specs.inner.Capped.{dot, entries_take};
ghost use Rattle.paw_check.specs.inner.Found.{IsFound, found_sum, found_taken};
ghost use Rattle.paw_check.specs.inner.Own.{own_in};

use crate::own::Own;
use paw_base::codes::{DOALL, PROCESS};
use paw_base::parts::Condact;
use paw_game::parts::Entry;
use paw_game::values::is_wildcard;

/// A number for each verb, or for each table.
pub(crate) type PerByte = [u32; 256];

/// The greater of two numbers.
pub(crate) fn greater(first: u32, second: u32) -> u32
    ensures value { result ≡ max first second }
{
    if first < second { second } else { first }
}

// The number at a table and a verb; 0 past the last table.
fn cell_at(rows: &[PerByte], table: usize, verb: usize) -> u32
    requires within { verb < 256 }
    ensures value { result ≡ cell_at rows.now table verb }
{
    match rows.get(table) {
        Some(row) => row[verb],
        None => 0,
    }
}

// Whether an entry counts for every verb.
fn is_for_every(changing: bool, entry: &Entry) -> bool
    ensures value { result ≡ is_for_every changing entry.now }
{
    changing || is_wildcard(entry.verb)
}

// ---- the condacts of an entry ----

// The number of these condacts that open a loop.
fn doalls(condacts: &[Condact]) -> u32
    ensures value { result ≡ in_32_bits (count_by is_doall condacts.now) }
{
    let mut count = 0u32;
    for condact in condacts {
        if condact.code == DOALL {
            count = count.saturating_add(1);
        }
    }
    count
}

// What these condacts take by themselves.
fn own_sum(own: &Own, condacts: &[Condact]) -> u32
    ensures value { result ≡ in_32_bits (sum_by (own_in own.now) condacts.now) }
{
    let mut sum = 0u32;
    for condact in condacts {
        sum = sum.saturating_add(own.of(condact));
    }
    sum
}

// What a condact takes for a verb, with the table that it calls.
fn takes(own: &Own, called: &[PerByte], verb: u8, condact: &Condact) -> u32
    ensures value { result ≡ in_32_bits (with_call (own_in own.now) (λ u. cell_at called.now u verb) condact.now) }
{
    let taken = own.of(condact);
    if condact.code == PROCESS {
        taken.saturating_add(cell_at(called, usize::from(condact.a), usize::from(verb)))
    } else {
        taken
    }
}

// What these condacts take for a verb, with the tables that they call.
fn taken_sum(own: &Own, called: &[PerByte], verb: u8, condacts: &[Condact]) -> u32
    ensures value { result
        ≡ in_32_bits (sum_by (with_call (own_in own.now) (λ u. cell_at called.now u verb)) condacts.now) }
{
    let mut sum = 0u32;
    for condact in condacts {
        sum = sum.saturating_add(takes(own, called, verb, condact));
    }
    sum
}

// Adds one for the table that a condact calls, if it calls one.
fn count_call(condact: &Condact, counts: &mut PerByte)
    ensures value { (f : ℕ → ℕ) → HoldsCapped counts.old f →
        HoldsCapped counts.new (λ u. f u + cond (is_call_of u condact.now) 1 0) }
{
    if condact.code == PROCESS {
        let table = usize::from(condact.a);
        counts[table] = counts[table].saturating_add(1);
    }
}

// Adds how often these condacts call each table.
fn count_calls(condacts: &[Condact], counts: &mut PerByte)
    ensures value { (f : ℕ → ℕ) → HoldsCapped counts.old f →
        HoldsCapped counts.new (λ u. f u + count_by (is_call_of u) condacts.now) }
{
    for condact in condacts {
        count_call(condact, counts);
    }
}

// ---- the entries of a table ----

// The number of loops that the entries that count for every verb open.
fn every_doalls(changing: bool, entries: &[Entry]) -> u32
    ensures value { result ≡ in_32_bits (over_every changing (count_by is_doall) entries.now) }
{
    let mut count = 0u32;
    for entry in entries {
        if is_for_every(changing, entry) {
            count = count.saturating_add(doalls(entry.condacts.rows.as_slice()));
        }
    }
    count
}

// What the entries that count for every verb take by themselves.
fn every_own(own: &Own, changing: bool, entries: &[Entry]) -> u32
    ensures value { result ≡ in_32_bits (over_every changing (sum_by (own_in own.now)) entries.now) }
{
    let mut sum = 0u32;
    for entry in entries {
        if is_for_every(changing, entry) {
            sum = sum.saturating_add(own_sum(own, entry.condacts.rows.as_slice()));
        }
    }
    sum
}

// Adds how often an entry calls each table, where it counts for every verb.
fn count_every(changing: bool, entry: &Entry, counts: &mut PerByte)
    ensures value { (f : ℕ → ℕ) → HoldsCapped counts.old f → HoldsCapped counts.new
        (λ u. f u + cond (is_for_every changing entry.now) (count_by (is_call_of u) entry.now.condacts) 0) }
{
    if is_for_every(changing, entry) {
        count_calls(entry.condacts.rows.as_slice(), counts);
    }
}

// How often the entries that count for every verb call each table.
fn every_calls(changing: bool, entries: &[Entry]) -> PerByte
    ensures value { HoldsCapped result (λ u. over_every changing (count_by (is_call_of u)) entries.now) }
{
    let mut counts = [0u32; 256];
    for entry in entries {
        count_every(changing, entry, &mut counts);
    }
    counts
}

// The number of loops that the other entries of each verb open.
fn verb_doalls(changing: bool, entries: &[Entry]) -> PerByte
    ensures value { HoldsCapped result (λ v. over_verb changing v (count_by is_doall) entries.now) }
{
    let mut counts = [0u32; 256];
    for entry in entries {
        if !is_for_every(changing, entry) {
            let verb = usize::from(entry.verb);
            counts[verb] = counts[verb].saturating_add(doalls(entry.condacts.rows.as_slice()));
        }
    }
    counts
}

// What an entry takes for its verb, where it doesn't count for every verb.
fn taken_for_verb(own: &Own, changing: bool, called: &[PerByte], entry: &Entry) -> u32
    ensures value { result ≡ in_32_bits (cond (is_for_every changing entry.now) 0
        (sum_by (with_call (own_in own.now) (λ u. cell_at called.now u entry.now.verb)) entry.now.condacts)) }
{
    if is_for_every(changing, entry) {
        0
    } else {
        taken_sum(own, called, entry.verb, entry.condacts.rows.as_slice())
    }
}

// Adds what is taken for a verb.
fn add_at(sums: &mut PerByte, verb: u8, taken: u32)
    ensures value { (f k : ℕ → ℕ) → taken ≡ in_32_bits (k verb) → HoldsCapped sums.old f
        → HoldsCapped sums.new (λ v. f v + cond (verb == v) (k v) 0) }
{
    let at = verb as usize;
    sums[at] = sums[at].saturating_add(taken);
}

// What the other entries of each verb take, with the tables that they call.
fn verb_taken(own: &Own, changing: bool, called: &[PerByte], entries: &[Entry]) -> PerByte
    ensures value { HoldsCapped result (λ v. over_verb changing v
        (sum_by (with_call (own_in own.now) (λ u. cell_at called.now u v))) entries.now) }
{
    let mut sums = [0u32; 256];
    for entry in entries {
        let taken = taken_for_verb(own, changing, called, entry);
        add_at(&mut sums, entry.verb, taken);
    }
    sums
}

// What a table takes for a verb, called this many times.
fn called_times(counts: &PerByte, called: &[PerByte], table: usize, verb: usize) -> u32
    requires few { table < 256 }
    requires within { verb < 256 }
    ensures value { result ≡ in_32_bits (slice_index_or counts.now table 0 * cell_at called.now table verb) }
{
    counts[table].saturating_mul(cell_at(called, table, verb))
}

// What the tables take for a verb, each called this many times.
fn called_sum(counts: &PerByte, called: &[PerByte], verb: usize) -> u32
    requires few { length called.now ≤ 256 }
    requires within { verb < 256 }
    ensures value { result ≡ in_32_bits (dot counts.now called.now verb) }
{
    let mut sum = 0u32;
    for table in 0..called.len() {
        sum = sum.saturating_add(called_times(counts, called, table, verb));
    }
    sum
}

// What is taken in all passes: in one, and for each loop in one for each object.
fn in_passes(objects: u32, doalls: u32, sum: u32) -> u32
    ensures value { result ≡ in_32_bits ((1 + objects * doalls) * sum) }
{
    objects
        .saturating_mul(doalls)
        .saturating_add(1)
        .saturating_mul(sum)
}

/// What is found in the entries of a table. For those that count for every verb: the number of loops that they open,
/// what they take by themselves, and how often they call each table. For the other entries of each verb: the number of
/// loops that they open, and what they take with the tables that they call.
#[derive(Drop)]
struct TableSums {
    doalls: u32,
    own: u32,
    calls: PerByte,
    verb_doalls: PerByte,
    verb_taken: PerByte,
}

// What is found in these entries of a table.
fn look_over(own: &Own, changing: bool, called: &[PerByte], entries: &[Entry]) -> TableSums
    ensures value { IsFound result (own_in own.now) changing called.now entries.now }
{
    TableSums {
        doalls: every_doalls(changing, entries),
        own: every_own(own, changing, entries),
        calls: every_calls(changing, entries),
        verb_doalls: verb_doalls(changing, entries),
        verb_taken: verb_taken(own, changing, called, entries),
    }
}

impl TableSums {
    // What the condacts of the entries that count for a verb take together.
    fn sum(&self, called: &[PerByte], verb: usize) -> u32
        requires few { length called.now ≤ 256 }
        requires within { verb < 256 }
        ensures value { result ≡ in_32_bits (found_sum self.now called.now verb) }
    {
        self.own
            .saturating_add(called_sum(&self.calls, called, verb))
            .saturating_add(self.verb_taken[verb])
    }

    // What reading the table takes for a verb.
    fn read_for_verb(&self, objects: u32, called: &[PerByte], verb: usize) -> u32
        requires few { length called.now ≤ 256 }
        requires within { verb < 256 }
        ensures value { result ≡ in_32_bits (found_taken objects self.now called.now verb) }
    {
        let doalls = self.doalls.saturating_add(self.verb_doalls[verb]);
        in_passes(objects, doalls, self.sum(called, verb))
    }

    // What reading the table takes for each verb.
    fn row(&self, objects: u32, called: &[PerByte]) -> PerByte
        requires few { length called.now ≤ 256 }
        ensures value { HoldsCapped result (found_taken objects self.now called.now) }
    {
        let mut row = [0u32; 256];
        for verb in 0..256 {
            row[verb] = self.read_for_verb(objects, called, verb);
        }
        row
    }
}

/// What reading a table with these entries takes, for each verb.
pub(crate) fn table_row(
    own: &Own,
    changing: bool,
    objects: u32,
    called: &[PerByte],
    entries: &[Entry],
) -> PerByte
    requires few { length called.now ≤ 256 }
    ensures value { HoldsCapped result (λ v. entries_take objects
        (with_call (own_in own.now) (λ u. cell_at called.now u v)) changing v entries.now) }
{
    look_over(own, changing, called, entries).row(objects, called)
}
