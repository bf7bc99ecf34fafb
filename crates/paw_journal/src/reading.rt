// Reading the state of a slot.

ghost use Rattle.std.specs.Prelude.{◌≡◌, ◌-◌, ◌≤◌, ◌++◌, length, take, true, false, OnOk, OnErr, IfOk, IfErr};
ghost use Rattle.paw_journal.specs.Session.{Digests, slot_length, base_length, state_length, is_current, has_state};
ghost use Rattle.paw_journal.specs.Session.{zeros};
ghost use Rattle.paw_journal.specs.Session.{slot_version, form_length};
ghost use Rattle.paw_journal.specs.inner.Session.{IsDamagedAt};
ghost use Rattle.paw_journal.specs.inner.Room.{kept_slot, slot_with_records};

use crate::changes::apply;
use crate::drafting::SlotState;
use crate::layout::{
    BASE_AT, BASE_LENGTH, CHANGE_LENGTH, CHANGES_AT, MOST_CHANGES, SLOT_VERSION_AT, number_at,
};
use paw_base::layout::{FIRST_LENGTH, FORM_LENGTHS, VERSION};

/// The state of a slot with these bytes: its base with its change records applied.
///
/// # Errors
/// The offset in the slot of its first broken rule.
pub(crate) fn state_in(slot: &[u8]) -> Result<SlotState, u64>
    requires whole { length slot.now ≡ slot_length }
    ensures whole { OnOk result (has_state slot.now ≡ true) }
    ensures broken { OnErr result (has_state slot.now ≡ false) }
    ensures value { IfOk result (λ kept. kept ≡ slot_with_records slot.now) }
    ensures damaged { (digests : Digests) → IfErr result (IsDamagedAt digests slot.now) }
{
    let count = number_at(slot, 0);
    if count > MOST_CHANGES {
        return Err(0);
    }
    let mut state = [0; BASE_LENGTH];
    state.copy_from_slice(&slot[BASE_AT..BASE_AT + BASE_LENGTH]);
    let records = &slot[CHANGES_AT..CHANGES_AT + CHANGE_LENGTH * count];
    match apply(records, &mut state) {
        Some(number) => Err((CHANGES_AT + CHANGE_LENGTH * number) as u64),
        None => Ok(SlotState {
            records: count as u16,
            state,
        }),
    }
}

/// Whether a slot with these bytes is of the version that is written.
pub(crate) fn is_current(slot: &[u8]) -> bool
    requires whole { length slot.now ≡ slot_length }
    ensures value { result ≡ is_current slot.now }
{
    slot[SLOT_VERSION_AT] == VERSION
}

/// What is kept of a slot with these bytes: its state, where it has one and is of the version that is written.
pub(crate) fn kept_in(slot: &[u8]) -> Option<SlotState>
    requires whole { length slot.now ≡ slot_length }
    ensures value { result ≡ kept_slot slot.now }
{
    if !is_current(slot) {
        return None;
    }
    match state_in(slot) {
        Ok(kept) => Some(kept),
        Err(_) => None,
    }
}

// How many bytes of a state a slot of this version has.
fn form_length(version: u8) -> usize
    ensures value { result ≡ form_length version }
    ensures few { result ≤ state_length }
{
    match FORM_LENGTHS.get(version.saturating_sub(1) as usize) {
        Some(length) => *length,
        None => FIRST_LENGTH,
    }
}

/// The state of a slot with these bytes in the form of today: what its version has of it, and zeros for the rest,
/// whatever stood there.
#[tactic(auto, unfolding(paw_base::specs::Bytes::zeros))]
pub(crate) fn brought_up(slot: &[u8], state: &[u8; 4096]) -> [u8; 4096]
    requires whole { length slot.now ≡ slot_length }
    ensures value { result ≡
        take (form_length (slot_version slot.now)) state.now
        ++ zeros (base_length - form_length (slot_version slot.now)) }
{
    let length = form_length(slot[SLOT_VERSION_AT]);
    let mut now = [0; BASE_LENGTH];
    now[..length].copy_from_slice(&state[..length]);
    now
}
