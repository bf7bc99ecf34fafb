// The buffers of a journal.

ghost use Rattle.std.specs.Prelude.{Some, true, ◌≡◌, ◌+◌, ◌≤◌, [], ◌∷◌, ◌++◌, length, IsSome, OnOk, IfErr};
ghost use Rattle.paw_base.specs.declared.limits.TheConstants.{PIECE_LIMIT};
ghost use Rattle.paw_journal.specs.Session.{Digests, slot_length, session_length, zeros, has_state, made_slot};
ghost use Rattle.paw_base.specs.declared.layout.TheConstants.{VERSION};
ghost use Rattle.paw_journal.specs.inner.Session.{IsDamagedAt};
ghost use Rattle.paw_journal.specs.inner.Room.{kept_slot, kept_of, with_slot_kept, with_made, with_state};
ghost use Rattle.paw_journal.specs.inner.Room.{slot_with_records};
ghost use Rattle.paw_journal.specs.inner.Room.{HasReadSlot, ShowsSlot, KeepsRead};
ghost use Rattle.paw_journal.specs.inner.Writes.{Drafts};
ghost use Rattle.paw_journal.specs.inner.Calls.{ReadsStore};
ghost use Rattle.paw_journal.specs.inner.Journal.{failed_stage_call};

use crate::drafting::{CommitDraft, SlotState, draft_over};
use crate::layout::{BASE_AT, PIECE_AT, SLOT_LENGTH, SLOT_VERSION_AT, Slot, number_at};
use crate::reading::{brought_up, is_current, kept_in, state_in};
use crate::store::read;
use paw_base::fault::NoRoom;
use paw_base::layout::{PIECE_LENGTH_AT, VERSION};
use paw_base::piece::PIECE_LIMIT;
use paw_stage::{Stage, StageCall};
use std::alloc::Global;
use std::marker::Model;

/// All the memory that a journal needs: the state and the piece that its session shows, and the states of both slots.
#[derive(Drop)]
pub struct Room {
    slot: Vec<u8>,
    state: [u8; 4096],
    piece: Vec<u8>,
    first: Option<SlotState>,
    second: Option<SlotState>,
}

impl Model for Room {
    ghost use Rattle.std.specs.Prelude.{◌≤◌, vec_capacity};
    ghost use Rattle.paw_base.specs.declared.limits.TheConstants.{PIECE_LIMIT};
    ghost use Rattle.paw_journal.specs.Session.{slot_length};
    ghost use Rattle.paw_journal.specs.inner.Room.{Room};

    ghost Value = { Room };

    ghost view = { λ r. record {
      slot = r.slot.items;
      state = r.state;
      piece = r.piece.items;
      first = r.first;
      second = r.second;
    } };

    ghost invariant = { λ r. (slot_length ≤ vec_capacity r.slot) × (PIECE_LIMIT ≤ vec_capacity r.piece) };
}

impl Room {
    /// Takes all the memory that a journal needs. No other call takes any.
    ///
    /// # Errors
    /// NoRoom where there is no memory.
    pub fn new(alloc: Global) -> Result<Room, NoRoom> {
        let slot = Vec::with_capacity(alloc, SLOT_LENGTH)?;
        let piece = Vec::with_capacity(alloc, PIECE_LIMIT)?;
        Ok(Room {
            slot,
            state: [0; 4096],
            piece,
            first: None,
            second: None,
        })
    }

    /// The state that the session shows, in its first 3,419 bytes.
    pub fn state(&self) -> &[u8; 4096]
        ensures value { result.now ≡ self.now.state }
    {
        &self.state
    }

    /// The piece that the session shows.
    pub fn piece(&self) -> &[u8]
        ensures value { result.now ≡ self.now.piece }
    {
        self.piece.as_slice()
    }

    /// Makes this the state and the piece that the session shows.
    pub(crate) fn hold(&mut self, state: &[u8; 4096], piece: &[u8])
        requires short { length piece.now ≤ PIECE_LIMIT }
        ensures value { self.new ≡ record self.old { state = state.now; piece = piece.now } }
    {
        self.state = *state;
        self.hold_piece(piece);
    }

    // Makes this the piece that the session shows.
    fn hold_piece(&mut self, piece: &[u8])
        requires short { length piece.now ≤ PIECE_LIMIT }
        ensures value { self.new ≡ record self.old { piece = piece.now } }
    {
        self.piece.clear();
        // The memory was taken by `new`.
        self.piece.extend_from_slice(piece).unwrap();
    }

    /// The bytes that are to be written to a slot, or that were read from one.
    pub(crate) fn slot(&self) -> &[u8]
        ensures value { result.now ≡ self.now.slot }
    {
        self.slot.as_slice()
    }

    /// Keeps this as the state of a slot.
    pub(crate) fn keep(&mut self, which: Slot, kept: Option<SlotState>)
        ensures value { self.new ≡ with_slot_kept which kept self.old }
    {
        match which {
            Slot::First => self.first = kept,
            Slot::Second => self.second = kept,
        }
    }

    /// Keeps this state, with this number of change records, as that of a slot, in the place of the one before.
    pub(crate) fn keep_state(&mut self, which: Slot, records: u16, state: &[u8; 4096])
        ensures value { self.new ≡
            with_slot_kept which (Some (record { records = records; state = state.now })) self.old }
    {
        match which {
            Slot::First => put_state(&mut self.first, records, state),
            Slot::Second => put_state(&mut self.second, records, state),
        }
    }

    /// Keeps this as the state of both slots, which are made with it.
    pub(crate) fn keep_made(&mut self, state: &[u8; 4096])
        ensures value { self.new ≡ with_made state.now self.old }
    {
        self.keep_state(Slot::First, 0, state);
        self.keep_state(Slot::Second, 0, state);
    }

    /// Puts together what a commit of this state writes into a slot besides its head and the piece.
    pub(crate) fn draft(&mut self, which: Slot, state: &[u8; 4096]) -> CommitDraft
        ensures drafts { Drafts (kept_of which self.old) state.now self.new.slot result }
        ensures same { self.new ≡ record self.old { slot = self.new.slot } }
    {
        match which {
            Slot::First => draft_over(&self.first, state, &mut self.slot),
            Slot::Second => draft_over(&self.second, state, &mut self.slot),
        }
    }

    /// Puts a whole slot together, as it is made.
    pub(crate) fn fill_new_slot(&mut self)
        requires short { length self.old.piece ≤ PIECE_LIMIT }
        ensures value { self.new ≡ record self.old { slot = made_slot self.old.state self.old.piece } }
    {
        let after = SLOT_LENGTH - PIECE_AT - self.piece.len();
        self.slot.clear();
        self.add_head();
        self.add_zeros(BASE_AT - SLOT_VERSION_AT - 1);
        self.add_body();
        self.add_zeros(after);
    }

    // Adds the first bytes of a slot with no change records.
    fn add_head(&mut self)
        requires empty { self.old.slot ≡ [] }
        ensures value { self.new ≡ record self.old { slot = 0 ∷ 0 ∷ VERSION ∷ [] } }
    {
        // The memory was taken by `new`.
        self.slot.extend_from_slice(&[0, 0, VERSION]).unwrap();
    }

    // Adds this number of zeros to the slot.
    fn add_zeros(&mut self, count: usize)
        requires fits { length self.old.slot + count ≤ slot_length }
        ensures value { self.new ≡ record self.old { slot = self.old.slot ++ zeros count } }
    {
        let size = self.slot.len() + count;
        // The memory was taken by `new`.
        self.slot.resize(size, 0).unwrap();
    }

    // Adds state and piece to the slot.
    fn add_body(&mut self)
        requires fits { length self.old.slot + 4096 + length self.old.piece ≤ slot_length }
        ensures value { self.new ≡ record self.old { slot = self.old.slot ++ self.old.state ++ self.old.piece } }
    {
        // The memory was taken by `new`.
        self.slot.extend_from_slice(&self.state).unwrap();
        self.slot.extend_from_slice(&self.piece).unwrap();
    }

    /// Reads a slot of the attached store.
    ///
    /// # Errors
    /// Read where that call of the stage failed.
    pub(crate) fn read_slot<S: Stage>(
        &mut self,
        stage: &mut S,
        which: Slot,
    ) -> Result<(), StageCall>
        requires attached { S.Tells stage.old → IsSome (S.standing stage.old).attached }
        requires whole { S.Tells stage.old → length (S.standing stage.old).disk.bytes ≡ session_length }
        ensures call { ReadsStore S.Stage (failed_stage_call result) stage.old stage.new }
        ensures same { self.new ≡ record self.old { slot = self.new.slot } }
        ensures read { S.Tells stage.old → OnOk result (HasReadSlot which (S.standing stage.old) self.new) }
        ensures length { length self.new.slot ≡ slot_length }
    {
        // The memory was taken by `new`.
        self.slot.resize(SLOT_LENGTH, 0).unwrap();
        read(stage, which.start(), self.slot.as_mut_slice())
    }

    /// Takes state and piece out of this slot, which was read, and keeps its state where it is of the version that is
    /// written.
    ///
    /// # Errors
    /// The offset in the slot of its first broken rule.
    pub(crate) fn unpack(&mut self, which: Slot) -> Result<(), u64>
        requires whole { length self.old.slot ≡ slot_length }
        ensures shown { (digests : Digests) → OnOk result (ShowsSlot digests self.old self.new) }
        ensures kept { OnOk result (KeepsRead which self.old self.new) }
        ensures damaged { (digests : Digests) → IfErr result (IsDamagedAt digests self.old.slot) }
    {
        let kept = state_in(self.slot())?;
        self.take_slot(which, kept);
        Ok(())
    }

    // Shows the state that was taken out of this slot, and keeps it where the slot is of the version that is written.
    fn take_slot(&mut self, which: Slot, kept: SlotState)
        requires whole { length self.old.slot ≡ slot_length }
        requires sound { has_state self.old.slot ≡ true }
        requires taken { kept ≡ slot_with_records self.old.slot }
        ensures shown { (digests : Digests) → ShowsSlot digests self.old self.new }
        ensures kept { KeepsRead which self.old self.new }
    {
        if is_current(self.slot()) {
            self.show(&kept.state);
            self.keep(which, Some(kept));
        } else {
            let state = brought_up(self.slot(), &kept.state);
            self.show(&state);
            self.keep(which, None);
        }
    }

    /// Keeps the state of this slot, which was read, where it has one of the version that is written; otherwise none.
    pub(crate) fn load_other_state(&mut self, which: Slot)
        requires whole { length self.old.slot ≡ slot_length }
        ensures kept { self.new ≡ with_slot_kept which (kept_slot self.old.slot) self.old }
    {
        let kept = kept_in(self.slot());
        self.keep(which, kept);
    }

    // Shows this state of the slot, and the slot's piece, whose length the state gives.
    fn show(&mut self, state: &[u8; 4096])
        requires whole { length self.old.slot ≡ slot_length }
        ensures value { self.new ≡ with_state state.now self.old }
    {
        let length = number_at(state, PIECE_LENGTH_AT);
        self.state = *state;
        self.piece.clear();
        // The memory was taken by `new`.
        self.piece
            .extend_from_slice(&self.slot[PIECE_AT..PIECE_AT + length])
            .unwrap();
    }
}

// Makes this the state of a slot, where it is.
fn put_state(kept: &mut Option<SlotState>, records: u16, state: &[u8; 4096])
    ensures value { kept.new ≡ Some (record { records = records; state = state.now }) }
{
    match kept {
        Some(slot) => {
            slot.records = records;
            slot.state = *state;
        }
        None => {
            *kept = Some(SlotState {
                records,
                state: *state,
            })
        }
    }
}
