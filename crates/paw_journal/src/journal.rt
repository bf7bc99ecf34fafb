// A session: making one, finding one, and committing to it.

ghost use Rattle.std.specs.Prelude.{◌≡◌, length, OnOk, IfOk, IfErr};
ghost use Rattle.paw_stage.specs.AcrossCalls.{IfTelling};
ghost use Rattle.paw_journal.specs.Session.{BelongsTo, recover, kept_digests, piece_length};
ghost use Rattle.paw_journal.specs.inner.Session.{digests_of};
ghost use Rattle.paw_journal.specs.inner.Written.{WritesLittle};
ghost use Rattle.paw_journal.specs.inner.Store.{LeavesMade, LeavesOldOr};
ghost use Rattle.paw_journal.specs.inner.Writes.{MakesSession, CommitsTo};
ghost use Rattle.paw_journal.specs.inner.Calls.{WritesStore, ReadsStore};
ghost use Rattle.paw_journal.specs.inner.Journal.{IsAtRest, KeptIn, IsSessionRefused, refused_call};

use crate::committing::{choose, write_slot};
use crate::finding::read_header;
use crate::layout::Slot;
use crate::making::{lay_out, mark};
use crate::refusal::{JournalRefusal, SessionPart};
use crate::room::Room;
use crate::store::Attached;
use paw_stage::{Stage, StageCall};

/// A session that stands in the attached store. It knows which slot is in use.
///
/// After a call that failed the journal is gone; the session is attached and found again.
#[derive(Drop)]
pub struct Journal {
    slot: Slot,
}

impl Journal {
    /// Makes a session of the game and the routines with these digests in the attached store, which is empty. It shows
    /// this state, whose bytes 1,369 and 1,370 give the piece's length, and this piece.
    ///
    /// # Errors
    /// Write or Sync where that call of the stage failed. The store then stands for no session, or for that one.
    pub fn create<S: Stage>(
        stage: &mut S,
        room: &mut Room,
        at: Attached,
        game: &[u8; 32],
        rules: &[u8; 32],
        state: &[u8; 4096],
        piece: &[u8],
    ) -> Result<Journal, StageCall>
        requires rests { S.Tells stage.old → IsAtRest (S.standing stage.old) }
        requires attached { S.Tells stage.old → at.length ≡ length (S.standing stage.old).disk.bytes }
        requires empty { at.length ≡ 0 }
        requires piece_length { piece_length state.now ≡ length piece.now }
        ensures call { let digests = digests_of game.now rules.now in
            WritesStore S.Stage result (MakesSession digests state.now piece.now)
            (LeavesMade digests state.now piece.now) stage.old stage.new }
        ensures state { OnOk result (room.new.state ≡ state.now) }
        ensures piece { OnOk result (room.new.piece ≡ piece.now) }
        ensures kept { S.Tells stage.old → IfOk result (λ journal. KeptIn journal room.new (S.standing stage.new)) }
    {
        room.hold(state, piece);
        room.fill_new_slot();
        lay_out(stage, game, rules, room.slot())?;
        mark(stage)?;
        room.keep_made(state);
        Ok(Journal { slot: Slot::First })
    }

    /// Finds the session of the game with this digest in the attached store, and writes nothing. Its state and its
    /// piece are then in the room. It belongs to the routines with this digest, or isn't measured.
    ///
    /// # Errors
    /// Unmade where there is no session, Damaged at its first broken rule, WrongGame where it is of another game,
    /// WrongRoutines where it was played with other routines. These come in this order. Outside(Read) where a read
    /// failed.
    pub fn find<S: Stage>(
        stage: &mut S,
        room: &mut Room,
        at: Attached,
        game: &[u8; 32],
        rules: &[u8; 32],
    ) -> Result<Journal, JournalRefusal>
        requires rests { S.Tells stage.old → IsAtRest (S.standing stage.old) }
        requires attached { S.Tells stage.old → at.length ≡ length (S.standing stage.old).disk.bytes }
        ensures call { ReadsStore S.Stage (refused_call result) stage.old stage.new }
        ensures refused { S.Tells stage.old →
            IfErr result (IsSessionRefused (recover (S.standing stage.old).disk.bytes) game.now rules.now) }
        ensures kept { S.Tells stage.old → IfOk result (λ journal. KeptIn journal room.new (S.standing stage.new)) }
        ensures belongs { S.Tells stage.old →
            OnOk result (BelongsTo game.now rules.now (kept_digests (S.standing stage.new).disk.bytes)) }
    {
        let header = read_header(stage, at.length)?;
        match room.read_slot(stage, header.slot) {
            Ok(_) => {}
            Err(call) => return Err(JournalRefusal::Outside(call)),
        }
        match room.unpack(header.slot) {
            Ok(_) => {}
            Err(at) => {
                return Err(JournalRefusal::Damaged {
                    part: SessionPart::Slot,
                    at,
                });
            }
        }
        header.belongs_to(game, rules)?;
        let other = header.slot.other();
        match room.read_slot(stage, other) {
            Ok(_) => {}
            Err(call) => return Err(JournalRefusal::Outside(call)),
        }
        room.load_other_state(other);
        Ok(Journal { slot: header.slot })
    }

    /// Makes the session show this state, whose bytes 1,369 and 1,370 give the piece's length, and this piece. Whatever
    /// a crash leaves in the meantime shows the old pair or the new one. It writes little: the piece, and what differs
    /// from the state of the slot that isn't in use; or the whole state, where that slot has none of the version that
    /// is written, or no room for the changes.
    ///
    /// # Errors
    /// Write or Sync where that call of the stage failed.
    pub fn commit<S: Stage>(
        self,
        stage: &mut S,
        room: &mut Room,
        state: &[u8; 4096],
        piece: &[u8],
    ) -> Result<Journal, StageCall>
        requires kept { S.Tells stage.old → KeptIn self room.old (S.standing stage.old) }
        requires piece_length { piece_length state.now ≡ length piece.now }
        ensures call { WritesStore S.Stage result (CommitsTo state.now piece.now) (LeavesOldOr state.now piece.now)
            stage.old stage.new }
        ensures few { IfTelling S.Stage stage.old stage.new (WritesLittle self.slot state.now piece.now) }
        ensures state { OnOk result (room.new.state ≡ state.now) }
        ensures piece { OnOk result (room.new.piece ≡ piece.now) }
        ensures kept { S.Tells stage.old → IfOk result (λ journal. KeptIn journal room.new (S.standing stage.new)) }
    {
        let slot = self.slot.other();
        let draft = room.draft(slot, state);
        write_slot(stage, slot, draft, room.slot(), piece)?;
        choose(stage, slot)?;
        room.hold(state, piece);
        room.keep_state(slot, draft.records, state);
        Ok(Journal { slot })
    }
}
