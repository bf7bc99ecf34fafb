// A stage in memory.

ghost use Rattle.std.specs.Prelude.{◌≡◌, ◌≤◌, ◌+◌, ◌↔◌, [], ℕ, length, min, IsFalse, IfOk, IfSome, OnOk, OnErr};
ghost use Rattle.std.specs.Prelude.{IsSome};
ghost use Rattle.std.specs.Prelude.{None};
ghost use Rattle.std.specs.Option.{option_map};
ghost use Rattle.paw_stage.specs.declared.StageCall.TheVariants as call;
ghost use Rattle.paw_stage.specs.declared.LoadRefusal.TheVariants as refusal;
ghost use Rattle.paw_stage.specs.declared.Asked.TheVariants as asked;
ghost use Rattle.paw_stage.specs.Disk.{MayLeave, IsStable};
ghost use Rattle.paw_stage.specs.Stage.{CountsFailure, failed_in, failed_load, failed_ask, IsCut};
ghost use Rattle.paw_stage.specs.inner.Stage.{IfAttached};
ghost use Rattle.paw_stage.specs.Stage.{LoadsTo, SavesTo, AttachesTo, ReadsTo, WritesTo, SyncsTo, AsksTo, ShowsTo};
ghost use Rattle.paw_stage.specs.Stage.{Still, InAsk, InShow, InSave, InAttach, InWrite, InSync};
ghost use Rattle.paw_stage.specs.inner.Failures.{count_of};
ghost use Rattle.paw_stage.specs.inner.Crash.{bytes_after_crash, HasNoStore};
ghost use Rattle.paw_stage.specs.inner.Done.{loaded_file, saved_file, attached_store, read_store};
ghost use Rattle.paw_stage.specs.inner.Done.{wrote_store, synced_store, taken_line};
ghost use Rattle.paw_stage.specs.inner.Done.{end_done, shown_text, call_at, calls_made, right_after};
ghost use Rattle.paw_stage.specs.inner.Memory.{empty, standing_of, clock_of, moments_of, only_moment, now_is_moment};
ghost use Rattle.paw_stage.specs.inner.Memory.{AtEachMoment};
ghost use Rattle.paw_stage.specs.inner.Memory.{can_note, call_recorded, failure_recorded, Notes, found_none};
ghost use Rattle.paw_stage.specs.inner.Memory.{line_taken, with_file, with_line_left};
ghost use Rattle.paw_stage.specs.inner.Filed.{file_holds};
ghost use Rattle.paw_stage.specs.inner.Staying.{moment_stays};

use crate::log::{CallKind, Log};
use crate::{Asked, Failed, FailureCounts, LoadRefusal, Stage, StageCall};
use paw_base::fault::NoRoom;
use paw_base::limits::LINE_LIMIT;
use paw_base::lists::Rows;
use std::alloc::Global;
use std::marker::Model;

// A line that is left.
type LineBytes = Rows<u8>;

/// A stage in memory, which reports everything.
///
/// It keeps a record of its calls, and what stands at it is what that record, played again, makes of nothing. Its
/// memory is taken in `new`, `add_file` and `add_line`, so of a stage's calls only `load` can lack memory, for what it
/// gives. Each of them takes one of the spare calls, and the length of the name, the bytes and the text handed to it
/// from the spare bytes. Exactly where either is too small the call is Failed, and then only its own count changes.
#[derive(Drop)]
pub struct MemoryStage {
    lines: Vec<LineBytes>,
    next: usize,
    log: Log,
    counts: FailureCounts,
}

impl Model for MemoryStage {
    ghost use Rattle.std.specs.Prelude.{◌≤◌, length, take, drop};
    ghost use Rattle.paw_stage.specs.inner.Memory.{Memory};

    ghost Value = { Memory };

    // The next line is the first that wasn't taken.
    ghost view = { λ s. record {
      taken = take s.next s.lines.items;
      lines = drop s.next s.lines.items;
      log = s.log;
      counts = s.counts;
    } };

    ghost invariant = { λ s. s.next ≤ length s.lines.items };
}

impl MemoryStage {
    /// A stage with no files, no lines and no text, with spare room for these numbers of calls and bytes.
    pub fn new(alloc: Global, calls: u64, bytes: u64) -> Result<MemoryStage, NoRoom>
        ensures value { IfOk result (λ s. s ≡ empty calls bytes) }
    {
        Ok(MemoryStage {
            lines: Vec::new(alloc),
            next: 0,
            log: Log::new(alloc, calls as usize, bytes as usize)?,
            counts: FailureCounts::none(),
        })
    }

    /// Adds a file, in the place of one of the same name. The spare room stays as it is.
    pub fn add_file(&mut self, name: &str, bytes: &[u8]) -> Result<(), NoRoom>
        ensures ok { OnOk result (self.new ≡ with_file name.now bytes.now self.old) }
        ensures err { OnErr result (self.new ≡ self.old) }
    {
        self.log.add_file(name.as_bytes(), bytes)
    }

    /// Adds a line, without a line end, after those that are left. The spare room stays as it is.
    pub fn add_line(&mut self, alloc: Global, line: &[u8]) -> Result<(), NoRoom>
        ensures ok { OnOk result (self.new ≡ with_line_left line.now self.old) }
        ensures err { OnErr result (self.new ≡ self.old) }
    {
        let line = LineBytes::from_slice(alloc, line)?;
        self.lines.push(line).map_err(|_| NoRoom)
    }

    /// The kind of the call of this number in the record, counted from 0, and the name handed to it, which is empty
    /// where a call takes none; None where there are no more calls. Each file that `add_file` put there stands in the
    /// record too, and no call that was Failed does.
    pub fn call(&self, number: usize) -> Option<(CallKind, &[u8])>
        ensures value { option_map (λ c. (c.0, c.1.now)) result ≡ call_at self.now.log.calls number }
    {
        self.log.call(number)
    }

    /// The text shown.
    pub fn shown(&self) -> &[u8]
        ensures value { result.now ≡ (standing_of self.now).shown }
    {
        self.log.text_shown()
    }

    /// The number of bytes that were written to stores.
    pub fn written(&self) -> u64
        ensures value { result ≡ (standing_of self.now).written }
    {
        self.log.bytes_sent() as u64
    }

    /// The attached store as a crash may leave it, and no bytes where none is attached. Pick 0 gives the bytes at the
    /// last sync, pick 1 those that a read gives, and any other pick these with 255 for each that was written since the
    /// last sync.
    pub fn crash(&self, alloc: Global, pick: u8) -> Result<Vec<u8>, NoRoom>
        ensures made { IfAttached (standing_of self.now) (λ d. IfOk result (λ v. v.items ≡ bytes_after_crash d pick)) }
        ensures among { IfAttached (standing_of self.now) (λ d. IfOk result (λ v. MayLeave d v.items)) }
        ensures none { (standing_of self.now).attached ≡ None → IfOk result (λ v. v.items ≡ []) }
    {
        self.log.crash(alloc, pick)
    }

    /// The number of stage calls that were made: those that took one of the spare calls. A call that was Failed isn't
    /// counted, and a load that was Absent is.
    pub fn calls(&self) -> u64
        ensures value { result ≡ calls_made self.now.log.calls }
    {
        self.log.calls_made() as u64
    }

    /// The attached store as a crash right after the stage call of this number may leave it, by a pick as in `crash`.
    /// The calls counted by `calls` are numbered from 0. None exactly where fewer were made, or where no store was
    /// attached by then.
    pub fn crash_after(&self, alloc: Global, call: u64, pick: u8) -> Result<Option<Vec<u8>>, NoRoom>
        ensures made { IfOk result (λ left. IfSome left (λ v.
            v.items ≡ bytes_after_crash (right_after call self.now.log.calls).disk pick)) }
        ensures among { IfOk result (λ left. IfSome left (λ v.
            MayLeave (right_after call self.now.log.calls).disk v.items)) }
        ensures none { IfOk result (λ left. (left ≡ None) ↔ HasNoStore call self.now.log.calls) }
    {
        self.log.crash_after(alloc, call, pick)
    }
}

impl Stage for MemoryStage {
    ghost Tells = { λ _. Unit {0} };

    ghost standing = { standing_of };

    ghost failures = { λ s. count_of s.counts };

    ghost clock = { clock_of };

    ghost since = { moments_of };

    fn load(&mut self, alloc: Global, name: &str, most: usize) -> Result<Vec<u8>, LoadRefusal>
        ensures counts_failure { CountsFailure (failed_load result) (count_of self.old.counts)
            (count_of self.new.counts) }
        ensures still { standing_of self.new ≡ standing_of self.old }
        ensures answer { LoadsTo (standing_of self.old) name.now most result }
        ensures time { AtEachMoment self.old self.new Still }

        // It fails exactly where there is no room, and then leaves no trace but its count.
        ensures exact { (result ≡ Err refusal.Failed) ↔ IsFalse (can_note (loaded_file name.now) self.old) }
        ensures failed { result ≡ Err refusal.Failed → self.new ≡ failure_recorded call.Load self.old }
        ensures noted { OnOk result (self.new ≡ call_recorded (loaded_file name.now) self.old) }
        ensures absent { result ≡ Err refusal.Absent → self.new ≡ found_none name.now self.old }
        ensures lacking { result ≡ Err refusal.Memory → self.new ≡ call_recorded (loaded_file name.now) self.old }
    {
        if !self.log.add(CallKind::Load, name.as_bytes(), &[]) {
            self.counts.raise(StageCall::Load);
            return Err(LoadRefusal::Failed);
        }
        let Some(len) = self.log.file_len(name.as_bytes()) else {
            self.counts.raise(StageCall::LoadAbsent);
            return Err(LoadRefusal::Absent);
        };
        self.log
            .first_bytes(alloc, name.as_bytes(), first_len(len, most))
            .map_err(|_| LoadRefusal::Memory)
    }

    fn save(&mut self, name: &str, bytes: &[u8]) -> Result<(), Failed>
        ensures counts_failure { CountsFailure (failed_in call.Save result) (count_of self.old.counts)
            (count_of self.new.counts) }
        ensures answer { SavesTo (standing_of self.old) (standing_of self.new) name.now bytes.now result }
        ensures time { AtEachMoment self.old self.new (λ s. InSave s name.now) }
        ensures noted { Notes call.Save (saved_file name.now bytes.now) result self.old self.new }
    {
        if !self.log.add(CallKind::Save, name.as_bytes(), bytes) {
            self.counts.raise(StageCall::Save);
            return Err(Failed);
        }
        Ok(())
    }

    fn attach(&mut self, name: &str) -> Result<u64, Failed>
        requires synced { IsStable (standing_of self.old).disk }
        ensures counts_failure { CountsFailure (failed_in call.Attach result) (count_of self.old.counts)
            (count_of self.new.counts) }
        ensures answer { AttachesTo (standing_of self.old) (standing_of self.new) name.now result }
        ensures time { AtEachMoment self.old self.new (λ s. InAttach s (standing_of self.new) name.now) }
        ensures noted { Notes call.Attach (attached_store name.now) result self.old self.new }
    {
        if !self.log.add(CallKind::Attach, name.as_bytes(), &[]) {
            self.counts.raise(StageCall::Attach);
            return Err(Failed);
        }
        Ok(self.log.store_len() as u64)
    }

    fn read_at(&mut self, at: u64, into: &mut [u8]) -> Result<(), Failed>
        requires attached { IsSome (standing_of self.old).attached }
        requires within { at + length into.old ≤ length (standing_of self.old).disk.bytes }
        ensures counts_failure { CountsFailure (failed_in call.Read result) (count_of self.old.counts)
            (count_of self.new.counts) }
        ensures still { standing_of self.new ≡ standing_of self.old }
        ensures answer { ReadsTo (standing_of self.old) at (length into.old) into.new result }
        ensures time { AtEachMoment self.old self.new Still }
        ensures noted { Notes call.Read read_store result self.old self.new }
    {
        if !self.log.add(CallKind::Read, &[], &[]) {
            self.counts.raise(StageCall::Read);
            return Err(Failed);
        }
        self.log.read_store(at as usize, into);
        Ok(())
    }

    fn write_at(&mut self, at: u64, bytes: &[u8]) -> Result<(), Failed>
        requires attached { IsSome (standing_of self.old).attached }
        requires within { at ≤ length (standing_of self.old).disk.bytes }
        ensures counts_failure { CountsFailure (failed_in call.Write result) (count_of self.old.counts)
            (count_of self.new.counts) }
        ensures answer { WritesTo (standing_of self.old) (standing_of self.new) at bytes.now result }
        ensures time { AtEachMoment self.old self.new (λ s. InWrite s at (length bytes.now)) }
        ensures noted { Notes call.Write (wrote_store at bytes.now) result self.old self.new }
    {
        if !self.log.add(CallKind::Write(at), &[], bytes) {
            self.counts.raise(StageCall::Write);
            return Err(Failed);
        }
        Ok(())
    }

    fn sync(&mut self) -> Result<(), Failed>
        ensures counts_failure { CountsFailure (failed_in call.Sync result) (count_of self.old.counts)
            (count_of self.new.counts) }
        ensures answer { SyncsTo (standing_of self.old) (standing_of self.new) result }
        ensures time { AtEachMoment self.old self.new InSync }
        ensures noted { Notes call.Sync synced_store result self.old self.new }
    {
        if !self.log.add(CallKind::Sync, &[], &[]) {
            self.counts.raise(StageCall::Sync);
            return Err(Failed);
        }
        Ok(())
    }

    fn ask(&mut self, into: &mut [u8; LINE_LIMIT]) -> Asked
        ensures counts_failure { CountsFailure (failed_ask result) (count_of self.old.counts)
            (count_of self.new.counts) }
        ensures answer { AsksTo (standing_of self.old) (standing_of self.new) result into.new }
        ensures time { AtEachMoment self.old self.new (λ s. InAsk s (standing_of self.new)) }

        // It fails exactly where there is no room, and then leaves no trace but its count.
        ensures exact { (result ≡ asked.Failed) ↔ IsFalse (can_note taken_line self.old) }
        ensures failed { result ≡ asked.Failed → self.new ≡ failure_recorded call.Ask self.old }
        ensures noted { (n : ℕ) → result ≡ asked.Line n → self.new ≡ line_taken self.old }
        ensures noted_end { result ≡ asked.End → self.new ≡ call_recorded end_done self.old }
    {
        let kind = if self.next < self.lines.len() {
            CallKind::Take
        } else {
            CallKind::End
        };
        if !self.log.add(kind, &[], &[]) {
            self.counts.raise(StageCall::Ask);
            return Asked::Failed;
        }
        let Some(line) = self.lines.get(self.next) else {
            return Asked::End;
        };
        let n = copy_cut(line.rows.as_slice(), into);
        self.next += 1;
        Asked::Line(n)
    }

    fn show(&mut self, text: &[u8]) -> Result<(), Failed>
        ensures counts_failure { CountsFailure (failed_in call.Show result) (count_of self.old.counts)
            (count_of self.new.counts) }
        ensures answer { ShowsTo (standing_of self.old) (standing_of self.new) text.now result }
        ensures time { AtEachMoment self.old self.new (λ s. InShow s text.now) }
        ensures noted { Notes call.Show (shown_text text.now) result self.old self.new }
    {
        if !self.log.add(CallKind::Show, &[], text) {
            self.counts.raise(StageCall::Show);
            return Err(Failed);
        }
        Ok(())
    }

    ghost only_now = { λ s m _ h. only_moment s m h };

    ghost counts_now = { λ s t _ _. now_is_moment s t };

    ghost may_stay = { λ s t m _ h. moment_stays s t m h };

    ghost files_hold = { λ s name _ h. file_holds s name h };
}

// How many bytes a load gives of a file of this length.
fn first_len(len: usize, most: usize) -> usize
    ensures value { result ≡ min (most + 1) len }
{
    if most < len { most + 1 } else { len }
}

// Gives the first 255 bytes of a line, and how many they are.
fn copy_cut(line: &[u8], into: &mut [u8; LINE_LIMIT]) -> u8
    ensures cut { IsCut line.now into.new result }
{
    let n = line.len().min(LINE_LIMIT);
    into[..n].copy_from_slice(&line[..n]);
    n as u8
}
