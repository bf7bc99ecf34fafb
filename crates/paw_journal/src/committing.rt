// The writes of a commit: the slot that isn't in use, and then the selector.

ghost use Rattle.std.specs.Prelude.{◌≡◌, ◌+◌, ◌≤◌, length, IsSome};
ghost use Rattle.paw_base.specs.declared.limits.TheConstants.{PIECE_LIMIT};
ghost use Rattle.paw_stage.specs.Disk.{put_at};
ghost use Rattle.paw_stage.specs.inner.Stage.{WritesAtMost};
ghost use Rattle.paw_stage.specs.AcrossCalls.{IfTelling};
ghost use Rattle.paw_journal.specs.Session.{session_length, slot_length, slot_head};
ghost use Rattle.paw_journal.specs.inner.Room.{slot_number};
ghost use Rattle.paw_journal.specs.inner.Store.{LeavesSame, LeavesSlot};
ghost use Rattle.paw_journal.specs.inner.Writes.{IsSpare, LeavesFirst, FillsPart, WritesSlot, Chooses};
ghost use Rattle.paw_journal.specs.inner.Calls.{WritesStore};
ghost use Rattle.paw_journal.specs.inner.Journal.{IsAtRest};

use crate::drafting::CommitDraft;
use crate::layout::{PIECE_AT, SELECTOR_AT, Slot};
use crate::store::{sync, write, write_and_sync};
use paw_base::layout::VERSION;
use paw_stage::{Stage, StageCall};

/// Writes to the slot that isn't in use what makes it show this state and this piece, and makes the store stable.
/// Whatever a crash leaves shows what the session showed before.
pub(crate) fn write_slot<S: Stage>(
    stage: &mut S,
    which: Slot,
    draft: CommitDraft,
    bytes: &[u8],
    piece: &[u8],
) -> Result<(), StageCall>
    requires rests { S.Tells stage.old → IsAtRest (S.standing stage.old) }
    requires spare { S.Tells stage.old → IsSpare (slot_number which) (S.standing stage.old).disk.bytes }
    requires inside { draft.at + length bytes.now ≤ slot_length }
    requires short { length piece.now ≤ PIECE_LIMIT }
    ensures call { WritesStore S.Stage result (WritesSlot which draft bytes.now piece.now) LeavesSame
        stage.old stage.new }
    ensures few { IfTelling S.Stage stage.old stage.new (WritesAtMost (length bytes.now + length piece.now + 3)) }
{
    write_part(stage, which, draft.at, bytes)?;
    write_part(stage, which, PIECE_AT, piece)?;
    write_part(stage, which, 0, &head_of(draft.records))?;
    sync(stage)
}

// The first bytes of a slot with this number of change records, its version among them.
fn head_of(records: u16) -> [u8; 3]
    ensures value { result ≡ slot_head records }
{
    [(records % 256) as u8, (records / 256) as u8, VERSION]
}

// Writes bytes into a slot, from an offset in it on. An empty list makes no write.
fn write_part<S: Stage>(
    stage: &mut S,
    which: Slot,
    at: usize,
    bytes: &[u8],
) -> Result<(), StageCall>
    requires attached { S.Tells stage.old → IsSome (S.standing stage.old).attached }
    requires long { S.Tells stage.old → length (S.standing stage.old).disk.bytes ≡ session_length }
    requires inside { at + length bytes.now ≤ slot_length }
    ensures call { WritesStore S.Stage result (FillsPart which (put_at at bytes.now)) (LeavesFirst (slot_number which))
        stage.old stage.new }
    ensures few { IfTelling S.Stage stage.old stage.new (WritesAtMost (length bytes.now)) }
{
    if bytes.is_empty() {
        return Ok(());
    }
    write(stage, which.start() + at as u64, bytes)
}

/// Chooses a slot. Whatever a crash leaves shows what one of the two slots shows.
pub(crate) fn choose<S: Stage>(stage: &mut S, which: Slot) -> Result<(), StageCall>
    requires rests { S.Tells stage.old → IsAtRest (S.standing stage.old) }
    requires long { S.Tells stage.old → length (S.standing stage.old).disk.bytes ≡ session_length }
    ensures call { WritesStore S.Stage result (Chooses which) (LeavesSlot which) stage.old stage.new }
    ensures few { IfTelling S.Stage stage.old stage.new (WritesAtMost 1) }
{
    write_and_sync(stage, SELECTOR_AT, &[which.selector()])
}
