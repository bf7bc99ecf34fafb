//! The outside as one trait: files, lines and the text shown, so that a clause can speak of all of them at once.
#![tactic(auto)]

mod ahead;
mod failing;
mod failures;
mod files;
mod input;
mod log;
mod memory;
mod real;
mod refusing;
mod replay;
mod stopping;
mod streams;

pub use failing::{FailStage, Listed};
pub use failures::FailureCounts;
pub use input::{LineFailure, LineReader};
pub use log::CallKind;
pub use memory::MemoryStage;
use paw_base::limits::LINE_LIMIT;
pub use real::RealStage;
pub use refusing::{Refusals, RefusingStage};
use std::alloc::Global;
pub use stopping::{StopStage, Stopping};

/// The calls of a stage; failures are counted for each of them. A load has two: `LoadAbsent` counts the loads that
/// found no file, and `Load` those that failed otherwise.
#[derive(Clone, Copy, Drop, PartialEq, Eq, Debug)]
pub enum StageCall {
    Load,
    LoadAbsent,
    Save,
    Attach,
    Read,
    Write,
    Sync,
    Ask,
    Show,
}

/// Why a load gives no bytes: there is no such file, the call failed, or memory was lacking.
#[derive(Clone, Copy, Drop, PartialEq, Eq, Debug)]
pub enum LoadRefusal {
    Absent,
    Failed,
    Memory,
}

/// A call failed.
#[derive(Clone, Copy, Drop, PartialEq, Eq, Debug)]
pub struct Failed;

/// What an ask answers: the length of the line that it took (at most 255), that no line is left, or that it failed.
#[derive(Clone, Copy, Drop, PartialEq, Eq, Debug)]
pub enum Asked {
    Line(u8),
    End,
    Failed,
}

/// The outside: files by name, one of which may be attached as a store, the lines of a player and the text shown to
/// them.
///
/// A stage may report what stands at it, and what stood at each moment, inside its calls too (`Tells`); every stage
/// reports how often each call has failed. A call that fails raises its own count and no other, and one that doesn't
/// fail raises none. What a clause doesn't name stays as it was before the call.
///
/// A store is a file. What a crash leaves of it follows the disk of `specs/Disk.antt`: any bytes wherever it was
/// written since the last sync, and all others as they were.
pub trait Stage {
    ghost use Rattle.std.specs.Prelude.{◌≡◌, ◌≤◌, ◌+◌, ◌↔◌, ℕ, length, Some, IsSome};
    ghost use Rattle.paw_base.specs.Bytes.{Name};
    ghost use Rattle.paw_stage.specs.declared.StageCall.{StageCall};
    ghost use Rattle.paw_stage.specs.declared.StageCall.TheVariants as call;
    ghost use Rattle.paw_stage.specs.Disk.{IsStable, MayStay};
    ghost use Rattle.paw_stage.specs.Stage.{Standing, file_bytes, CountsFailure, failed_in, failed_load, failed_ask};
    ghost use Rattle.paw_stage.specs.Stage.{LoadsTo, SavesTo, AttachesTo, ReadsTo, WritesTo, SyncsTo, AsksTo, ShowsTo};
    ghost use Rattle.paw_stage.specs.Stage.{Still, InAsk, InShow, InSave, InAttach, InWrite, InSync};
    ghost use Rattle.paw_stage.specs.Moments.{Moments};

    /// Whether the stage reports what stands at it. The clauses on what stands hold only of a stage that does; one over
    /// a real system reports nothing but its counts. No call changes whether a stage reports.
    ghost Tells: { Self → Type 0 };

    /// What stands now: the files by name, the lines that are left, the number of lines taken, the text shown, the
    /// attached store and what a crash may leave of it. It has a meaning only for a stage that reports it.
    ghost standing: { Self → Standing };

    /// How often each call has failed so far. A count never falls, and 2^64 - 1 is its last value.
    ghost failures: { Self → StageCall → ℕ };

    /// The time: a number that never falls. One clock runs for files, store, lines and text.
    ghost clock: { Self → ℕ };

    /// What stood at the moments since a time, those inside calls among them.
    ghost since: { Self → ℕ → Standing → Type 0 };

    /// Gives the whole file of a name, or its first `most + 1` bytes where it is longer, so that a caller sees that
    /// it is too long.
    ///
    /// The answer is Absent exactly where there is no such file and the call didn't fail, and Memory only where there
    /// is no memory. Absent counts as a failure of `LoadAbsent`, and Failed as one of `Load`.
    fn load(&mut self, alloc: Global, name: &str, most: usize) -> Result<Vec<u8>, LoadRefusal>
        ensures tells { Tells self.old ↔ Tells self.new }
        ensures counts_failure { CountsFailure (failed_load result) (failures self.old) (failures self.new) }
        ensures still { Tells self.old → standing self.new ≡ standing self.old }
        ensures answer { Tells self.old → LoadsTo (standing self.old) name.now most result }
        ensures time { Tells self.old → Moments clock since self.old self.new (Still (standing self.old)) };

    /// Makes the file of a name hold these bytes. After Failed the file may hold any bytes, or be gone.
    fn save(&mut self, name: &str, bytes: &[u8]) -> Result<(), Failed>
        ensures tells { Tells self.old ↔ Tells self.new }
        ensures counts_failure { CountsFailure (failed_in call.Save result) (failures self.old) (failures self.new) }
        ensures answer { Tells self.old → SavesTo (standing self.old) (standing self.new) name.now bytes.now result }
        ensures time { Tells self.old → Moments clock since self.old self.new (InSave (standing self.old) name.now) };

    /// Makes the file of a name the attached store, and answers its length in bytes. A missing file is made empty. The
    /// call is made only while all that was written to the store before is synced.
    ///
    /// After Failed the store attached before is still attached, or none is.
    fn attach(&mut self, name: &str) -> Result<u64, Failed>
        requires synced { Tells self.old → IsStable (standing self.old).disk }
        ensures tells { Tells self.old ↔ Tells self.new }
        ensures counts_failure { CountsFailure (failed_in call.Attach result) (failures self.old) (failures self.new) }
        ensures answer { Tells self.old → AttachesTo (standing self.old) (standing self.new) name.now result }
        ensures time { Tells self.old →
            Moments clock since self.old self.new (InAttach (standing self.old) (standing self.new) name.now) };

    /// Reads bytes of the attached store, as many as `into` has, from an offset on. All of them lie in the store. After
    /// Failed, `into` may hold any bytes.
    fn read_at(&mut self, at: u64, into: &mut [u8]) -> Result<(), Failed>
        requires attached { Tells self.old → IsSome (standing self.old).attached }
        requires within { Tells self.old → at + length into.old ≤ length (standing self.old).disk.bytes }
        ensures tells { Tells self.old ↔ Tells self.new }
        ensures counts_failure { CountsFailure (failed_in call.Read result) (failures self.old) (failures self.new) }
        ensures still { Tells self.old → standing self.new ≡ standing self.old }
        ensures answer { Tells self.old → ReadsTo (standing self.old) at (length into.old) into.new result }
        ensures time { Tells self.old → Moments clock since self.old self.new (Still (standing self.old)) };

    /// Writes bytes to the attached store from an offset on, which lies in the store or right at its end. After Failed
    /// any part of the range may hold any bytes, and as many bytes as were handed in, or fewer, count as written.
    fn write_at(&mut self, at: u64, bytes: &[u8]) -> Result<(), Failed>
        requires attached { Tells self.old → IsSome (standing self.old).attached }
        requires within { Tells self.old → at ≤ length (standing self.old).disk.bytes }
        ensures tells { Tells self.old ↔ Tells self.new }
        ensures counts_failure { CountsFailure (failed_in call.Write result) (failures self.old) (failures self.new) }
        ensures answer { Tells self.old → WritesTo (standing self.old) (standing self.new) at bytes.now result }
        ensures time { Tells self.old →
            Moments clock since self.old self.new (InWrite (standing self.old) at (length bytes.now)) };

    /// Makes all that was written to the attached store last: a crash then leaves exactly what a read gives.
    fn sync(&mut self) -> Result<(), Failed>
        ensures tells { Tells self.old ↔ Tells self.new }
        ensures counts_failure { CountsFailure (failed_in call.Sync result) (failures self.old) (failures self.new) }
        ensures answer { Tells self.old → SyncsTo (standing self.old) (standing self.new) result }
        ensures time { Tells self.old → Moments clock since self.old self.new (InSync (standing self.old)) };

    /// Takes the next line and gives its first 255 bytes, without its line end. The bytes of `into` past the answered
    /// length may be any.
    ///
    /// The answer is End exactly where no line is left and the call didn't fail. After End and Failed no line is taken.
    fn ask(&mut self, into: &mut [u8; LINE_LIMIT]) -> Asked
        ensures tells { Tells self.old ↔ Tells self.new }
        ensures counts_failure { CountsFailure (failed_ask result) (failures self.old) (failures self.new) }
        ensures answer { Tells self.old → AsksTo (standing self.old) (standing self.new) result into.new }
        ensures time { Tells self.old →
            Moments clock since self.old self.new (InAsk (standing self.old) (standing self.new)) };

    /// Shows a text after the text shown before. After Failed a first part of the text was shown, maybe nothing.
    fn show(&mut self, text: &[u8]) -> Result<(), Failed>
        ensures tells { Tells self.old ↔ Tells self.new }
        ensures counts_failure { CountsFailure (failed_in call.Show result) (failures self.old) (failures self.new) }
        ensures answer { Tells self.old → ShowsTo (standing self.old) (standing self.new) text.now result }
        ensures time { Tells self.old → Moments clock since self.old self.new (InShow (standing self.old) text.now) };

    /// Since now there is no moment but this one.
    ghost only_now: { (s : Self) (m : Standing) → Tells s → since s (clock s) m → m ≡ standing s };

    /// This moment is one of those since any earlier time.
    ghost counts_now: { (s : Self) (t : ℕ) → Tells s → t ≤ clock s → since s t (standing s) };

    /// At each moment a crash may leave what a read of the store gives. So where a write or a sync has failed, and no crash
    /// came, what is there is among what a crash could have left.
    ghost may_stay: { (s : Self) (t : ℕ) (m : Standing) → Tells s → since s t m → MayStay m.disk };

    /// While a store is attached, the file of its name holds the store's bytes.
    ghost files_hold: { (s : Self) (name : Name) → Tells s → (standing s).attached ≡ Some name →
        file_bytes (standing s) name ≡ (standing s).disk.bytes };
}
