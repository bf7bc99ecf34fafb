// The store that a session is kept in.

ghost use Rattle.std.specs.Prelude.{◌≡◌, ◌+◌, ◌≤◌, [], ◌∷◌, length, IsSome, OnOk, OnErr, IfOk};
ghost use Rattle.paw_stage.specs.declared.StageCall.TheVariants as call;
ghost use Rattle.paw_stage.specs.Disk.{IsStable};
ghost use Rattle.paw_stage.specs.Stage.{Unattached, part_of, with_written, with_store_synced};
ghost use Rattle.paw_stage.specs.inner.Stage.{WritesAtMost};
ghost use Rattle.paw_stage.specs.Stage.{InAttach, InWrite, InSync};
ghost use Rattle.paw_stage.specs.AcrossCalls.{IfTelling, FailsOnlyBy};
ghost use Rattle.paw_stage.specs.inner.AcrossCalls.{AtEachMoment};
ghost use Rattle.paw_journal.specs.inner.Store.{Opens, HoldsPut, InWriteAndSync};
ghost use Rattle.paw_journal.specs.inner.Calls.{WritesStore, ReadsStore};
ghost use Rattle.paw_journal.specs.inner.Journal.{IsAtRest, failed_stage_call};

use paw_stage::{Stage, StageCall};

/// What attaching a store answered: its length in bytes.
#[derive(Clone, Copy, Drop, PartialEq, Eq, Debug)]
pub struct Attached {
    pub length: u64,
}

/// Makes the file of this name the attached store; a missing one is made empty. It is asked for while nothing is
/// unsynced.
///
/// # Errors
/// Attach where the call of the stage failed. The store attached before is then still attached, or none is.
pub fn attach<S: Stage>(stage: &mut S, name: &str) -> Result<Attached, StageCall>
    requires synced { S.Tells stage.old → IsStable (S.standing stage.old).disk }
    ensures serves { FailsOnlyBy S.Stage (call.Attach ∷ []) (failed_stage_call result) stage.old stage.new }
    ensures attached { S.Tells stage.old → IfOk result (Opens (S.standing stage.old) (S.standing stage.new) name.now) }
    ensures length { S.Tells stage.old → IfOk result (λ at. at.length ≡ length (S.standing stage.new).disk.bytes) }
    ensures rests { S.Tells stage.old → OnOk result (IsAtRest (S.standing stage.new)) }
    ensures left { S.Tells stage.old → OnErr result (Unattached (S.standing stage.old) (S.standing stage.new)) }
    ensures time { AtEachMoment S.Stage stage.old stage.new (λ s. InAttach s (S.standing stage.new) name.now) }
{
    match stage.attach(name) {
        Ok(length) => Ok(Attached { length }),
        Err(_) => Err(StageCall::Attach),
    }
}

/// Reads bytes of the attached store, as many as `into` has, from an offset on.
///
/// # Errors
/// Read where the call of the stage failed.
pub(crate) fn read<S: Stage>(stage: &mut S, at: u64, into: &mut [u8]) -> Result<(), StageCall>
    requires attached { S.Tells stage.old → IsSome (S.standing stage.old).attached }
    requires within { S.Tells stage.old → at + length into.old ≤ length (S.standing stage.old).disk.bytes }
    ensures call { ReadsStore S.Stage (failed_stage_call result) stage.old stage.new }
    ensures read { S.Tells stage.old → OnOk result (into.new ≡ part_of (S.standing stage.old) at (length into.old)) }
{
    match stage.read_at(at, into) {
        Ok(_) => Ok(()),
        Err(_) => Err(StageCall::Read),
    }
}

/// Writes bytes to the attached store, from an offset on.
///
/// # Errors
/// Write where the call of the stage failed.
pub(crate) fn write<S: Stage>(stage: &mut S, at: u64, bytes: &[u8]) -> Result<(), StageCall>
    requires attached { S.Tells stage.old → IsSome (S.standing stage.old).attached }
    requires within { S.Tells stage.old → at ≤ length (S.standing stage.old).disk.bytes }
    ensures call { WritesStore S.Stage result (λ old new. new ≡ with_written at bytes.now old)
        (λ old. InWrite old at (length bytes.now)) stage.old stage.new }
    ensures serves { FailsOnlyBy S.Stage (call.Write ∷ []) (failed_stage_call result) stage.old stage.new }
    ensures few { IfTelling S.Stage stage.old stage.new (WritesAtMost (length bytes.now)) }
    ensures part { IfTelling S.Stage stage.old stage.new (λ old new.
        OnErr result (InWrite old at (length bytes.now) new)) }
{
    match stage.write_at(at, bytes) {
        Ok(_) => Ok(()),
        Err(_) => Err(StageCall::Write),
    }
}

/// Makes what was written to the attached store last.
///
/// # Errors
/// Sync where the call of the stage failed.
pub(crate) fn sync<S: Stage>(stage: &mut S) -> Result<(), StageCall>
    ensures call { WritesStore S.Stage result (λ old new. new ≡ with_store_synced old) InSync stage.old stage.new }
    ensures serves { FailsOnlyBy S.Stage (call.Sync ∷ []) (failed_stage_call result) stage.old stage.new }
    ensures few { S.Tells stage.old → (S.standing stage.new).written ≡ (S.standing stage.old).written }
    ensures part { S.Tells stage.old → OnErr result (S.standing stage.new ≡ S.standing stage.old) }
{
    match stage.sync() {
        Ok(_) => Ok(()),
        Err(_) => Err(StageCall::Sync),
    }
}

/// Writes bytes to the attached store, from an offset on, and makes them last.
///
/// # Errors
/// Write or Sync where that call of the stage failed.
pub(crate) fn write_and_sync<S: Stage>(
    stage: &mut S,
    at: u64,
    bytes: &[u8],
) -> Result<(), StageCall>
    requires attached { S.Tells stage.old → IsSome (S.standing stage.old).attached }
    requires within { S.Tells stage.old → at ≤ length (S.standing stage.old).disk.bytes }
    ensures call { WritesStore S.Stage result (HoldsPut at bytes.now) (InWriteAndSync at bytes.now)
        stage.old stage.new }
    ensures few { IfTelling S.Stage stage.old stage.new (WritesAtMost (length bytes.now)) }
{
    write(stage, at, bytes)?;
    sync(stage)
}
