// The change records of a slot.

ghost use Rattle.std.specs.Prelude.{◌≡◌, ◌+◌, ◌*◌, ◌<◌, ◌≤◌, [], ◌++◌, length, None, IfSome, Decides};
ghost use Rattle.std.specs.Prelude.{vec_capacity};
ghost use Rattle.paw_journal.specs.declared.changes.TheConstants.{STRETCH};
ghost use Rattle.paw_journal.specs.Session.{changes, with_changes, first_unsound, change_bytes};
ghost use Rattle.paw_journal.specs.inner.Writes.{ChangesInto, ChangesTo};

use crate::layout::BASE_LENGTH;

/// How many bytes of two states are compared at once. A turn changes few bytes, so most stretches are the same in both.
pub(crate) const STRETCH: usize = 64;

/// Applies change records in order, up to the first one that isn't sound, and returns the number of that one.
pub(crate) fn apply(records: &[u8], state: &mut [u8; 4096]) -> Option<usize>
    ensures unsound { result ≡ first_unsound (changes records.now) }
    ensures few { IfSome result (λ n. 4 * n < length records.now) }
    ensures applied { result ≡ None → state.new ≡ with_changes (changes records.now) state.old }
{
    let mut rest = records;
    let mut number = 0;
    while let [low, high, byte, last, more @ ..] = rest {
        let at = usize::from(*low) + 256 * usize::from(*high);
        if at >= BASE_LENGTH || *last != 0 {
            return Some(number);
        }
        state[at] = *byte;
        rest = more;
        number += 1;
    }
    None
}

/// Adds the change records that lead from one state to another to an empty list, in rising order of their offsets.
pub(crate) fn add_changes(old: &[u8; 4096], new: &[u8; 4096], records: &mut Vec<u8>)
    requires room { 4 * 4096 ≤ vec_capacity records.old }
    requires empty { records.old.items ≡ [] }
    ensures made { ChangesInto old.now new.now records.new.items }
    ensures few { length records.new.items ≤ 4 * 4096 }
    ensures capacity { vec_capacity records.old ≤ vec_capacity records.new }
{
    for stretch in 0..BASE_LENGTH / STRETCH {
        add_stretch(stretch * STRETCH, old, new, records);
    }
}

// Adds the change records of the stretch that begins here.
fn add_stretch(from: usize, old: &[u8; 4096], new: &[u8; 4096], records: &mut Vec<u8>)
    requires within { from + STRETCH ≤ 4096 }
    requires room { 4 * 4096 ≤ vec_capacity records.old }
    requires making { ChangesTo old.now new.now from records.old.items }
    ensures made { ChangesTo old.now new.now (from + STRETCH) records.new.items }
    ensures capacity { vec_capacity records.old ≤ vec_capacity records.new }
{
    let to = from + STRETCH;
    if are_same(&old[from..to], &new[from..to]) {
        return;
    }
    add_bytes(from, to, old, new, records);
}

// Whether these bytes of two states are the same.
fn are_same(old: &[u8], new: &[u8]) -> bool
    ensures value { Decides result (old.now ≡ new.now) }
{
    old == new
}

// Adds the change records of the bytes from one offset up to another.
fn add_bytes(from: usize, to: usize, old: &[u8; 4096], new: &[u8; 4096], records: &mut Vec<u8>)
    requires order { from ≤ to }
    requires within { to ≤ 4096 }
    requires room { 4 * 4096 ≤ vec_capacity records.old }
    requires making { ChangesTo old.now new.now from records.old.items }
    ensures made { ChangesTo old.now new.now to records.new.items }
    ensures capacity { vec_capacity records.old ≤ vec_capacity records.new }
{
    for at in from..to {
        if old[at] != new[at] {
            add_change(at, new[at], records);
        }
    }
}

// Adds a change record to a list.
fn add_change(at: usize, byte: u8, records: &mut Vec<u8>)
    requires within { at < 4096 }
    requires room { length records.old.items + 4 ≤ vec_capacity records.old }
    ensures added { records.new.items ≡ records.old.items ++ change_bytes at byte }
    ensures capacity { vec_capacity records.old ≤ vec_capacity records.new }
{
    let change = [(at % 256) as u8, (at / 256) as u8, byte, 0];
    // The room was taken before.
    records.extend_from_slice(&change).unwrap();
}
