// What a commit writes into a slot.

ghost use Rattle.std.specs.Prelude.{◌≡◌, ◌≤◌, vec_capacity};
ghost use Rattle.paw_journal.specs.Session.{slot_length};
ghost use Rattle.paw_journal.specs.inner.Writes.{Drafts};

use crate::changes::add_changes;
use crate::layout::{BASE_AT, CHANGE_LENGTH, CHANGES_AT, MOST_CHANGES};

/// The state of a slot, and the number of change records after its base.
#[derive(Drop)]
pub struct SlotState {
    pub(crate) records: u16,
    pub(crate) state: [u8; 4096],
}

/// Where a commit writes into a slot, and the number of change records that the slot then has.
#[derive(Clone, Copy, Drop)]
pub(crate) struct CommitDraft {
    pub(crate) at: usize,
    pub(crate) records: u16,
}

/// Puts together what gives a slot, of which this is kept, a new state.
pub(crate) fn draft_over(
    kept: &Option<SlotState>,
    state: &[u8; 4096],
    into: &mut Vec<u8>,
) -> CommitDraft
    requires room { slot_length ≤ vec_capacity into.old }
    ensures drafts { Drafts kept.now state.now into.new.items result }
    ensures capacity { slot_length ≤ vec_capacity into.new }
{
    match kept {
        Some(kept) => draft_changes(kept, state, into),
        None => draft_base(state, into),
    }
}

// Change records to be added to those of the slot or, where these are too many, its base.
fn draft_changes(kept: &SlotState, state: &[u8; 4096], into: &mut Vec<u8>) -> CommitDraft
    requires room { slot_length ≤ vec_capacity into.old }
    ensures drafts { Drafts (Some kept.now) state.now into.new.items result }
    ensures capacity { slot_length ≤ vec_capacity into.new }
{
    into.clear();
    add_changes(&kept.state, state, into);
    let standing = usize::from(kept.records);
    let records = standing + into.len() / CHANGE_LENGTH;
    if records > MOST_CHANGES {
        return draft_base(state, into);
    }
    CommitDraft {
        at: CHANGES_AT + CHANGE_LENGTH * standing,
        records: records as u16,
    }
}

// The base of the slot, whole.
fn draft_base(state: &[u8; 4096], into: &mut Vec<u8>) -> CommitDraft
    requires room { slot_length ≤ vec_capacity into.old }
    ensures bytes { into.new.items ≡ state.now }
    ensures value { result ≡ record { at = 64; records = 0 } }
    ensures capacity { slot_length ≤ vec_capacity into.new }
{
    into.clear();
    // The room was taken before.
    into.extend_from_slice(state).unwrap();
    CommitDraft {
        at: BASE_AT,
        records: 0,
    }
}
