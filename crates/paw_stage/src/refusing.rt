// A stage in memory of which some calls are made to fail.

ghost use Rattle.std.specs.Prelude.{◌≡◌, ◌≤◌, ◌+◌, ◌↔◌, ℕ, length, IsTrue, IsSome};
ghost use Rattle.paw_stage.specs.declared.StageCall.TheVariants as call;
ghost use Rattle.paw_stage.specs.declared.Asked.TheVariants as asked;
ghost use Rattle.paw_stage.specs.Disk.{IsStable};
ghost use Rattle.paw_stage.specs.Stage.{CountsFailure, failed_in, failed_load, failed_ask};
ghost use Rattle.paw_stage.specs.Stage.{LoadsTo, SavesTo, AttachesTo, ReadsTo, WritesTo, SyncsTo, AsksTo, ShowsTo};
ghost use Rattle.paw_stage.specs.Stage.{Still, InAsk, InShow, InSave, InAttach, InWrite, InSync};
ghost use Rattle.paw_stage.specs.inner.Failures.{no_failures};
ghost use Rattle.paw_stage.specs.inner.Done.{saved_file, attached_store, read_store};
ghost use Rattle.paw_stage.specs.inner.Done.{wrote_store, synced_store, taken_line};
ghost use Rattle.paw_stage.specs.inner.Done.{end_done, shown_text};
ghost use Rattle.paw_stage.specs.inner.Memory.{clock_of, moments_of, only_moment, now_is_moment};
ghost use Rattle.paw_stage.specs.inner.Memory.{call_recorded, line_taken};
ghost use Rattle.paw_stage.specs.inner.Filed.{file_holds};
ghost use Rattle.paw_stage.specs.inner.Staying.{moment_stays};
ghost use Rattle.paw_stage.specs.inner.Refusing.{failures_of, standing_of, AtEachMoment};
ghost use Rattle.paw_stage.specs.inner.Refusing.{call_refused, passed_on, FailsBelow, CannotPass, Forwards};
ghost use Rattle.paw_stage.specs.inner.Refusing.{ForwardsLoad};

use crate::{Asked, Failed, FailureCounts, LoadRefusal, MemoryStage, Stage, StageCall};
use paw_base::limits::LINE_LIMIT;
use std::alloc::Global;
use std::marker::Model;

/// Which calls of a stage are made to fail.
pub trait Refusals {
    ghost use Rattle.std.specs.Prelude.{◌≡◌, Bool};

    /// Whether the next call is made to fail.
    ghost refuses: { Self → Bool };

    /// The rule once one more call was made.
    ghost later: { Self → Self };

    /// Counts a call, and answers whether it is made to fail.
    fn refuses_next(&mut self) -> bool
        ensures refuses { result ≡ refuses self.old }
        ensures later { self.new ≡ later self.old };
}

/// A stage in memory of which a rule makes some calls fail.
///
/// A call that is made to fail raises its count here and isn't passed on, so nothing else changes. Every other call is
/// passed on. What stands is what stands at the stage below; the counts are those of both together.
#[derive(Drop)]
pub struct RefusingStage<R: Drop> {
    inner: MemoryStage,
    rule: R,
    counts: FailureCounts,
}

impl<R: Drop> Model for RefusingStage<R> {
    ghost use Rattle.paw_stage.specs.inner.Refusing.{Refusing};

    ghost Value = { Refusing R };

    ghost view = { λ s. record { inner = s.inner; rule = s.rule; counts = s.counts } };
}

impl<R: Refusals + Drop> RefusingStage<R> {
    /// A stage over this one, of which a rule makes some calls fail. No call has failed here yet.
    pub(crate) fn over(inner: MemoryStage, rule: R) -> RefusingStage<R>
        ensures value { result ≡ record { inner = inner; rule = rule; counts = no_failures } }
    {
        RefusingStage {
            inner,
            rule,
            counts: FailureCounts::none(),
        }
    }

    /// The stage below.
    pub fn inner(&self) -> &MemoryStage
        ensures value { result.now ≡ self.now.inner }
    {
        &self.inner
    }
}

impl<R: Refusals + Drop> Stage for RefusingStage<R> {
    ghost Tells = { λ _. Unit {0} };

    ghost standing = { standing_of };

    ghost failures = { failures_of };

    ghost clock = { λ s. clock_of s.inner };

    ghost since = { λ s. moments_of s.inner };

    fn load(&mut self, alloc: Global, name: &str, most: usize) -> Result<Vec<u8>, LoadRefusal>
        ensures counts_failure { CountsFailure (failed_load result) (failures_of self.old) (failures_of self.new) }
        ensures still { standing_of self.new ≡ standing_of self.old }
        ensures answer { LoadsTo (standing_of self.old) name.now most result }
        ensures time { AtEachMoment self.old self.new Still }
        ensures forwarded { ForwardsLoad R.refuses R.later name.now result self.old self.new }
    {
        if self.rule.refuses_next() {
            self.counts.raise(StageCall::Load);
            return Err(LoadRefusal::Failed);
        }
        self.inner.load(alloc, name, most)
    }

    fn save(&mut self, name: &str, bytes: &[u8]) -> Result<(), Failed>
        ensures counts_failure { CountsFailure (failed_in call.Save result) (failures_of self.old)
            (failures_of self.new) }
        ensures answer { SavesTo (standing_of self.old) (standing_of self.new) name.now bytes.now result }
        ensures time { AtEachMoment self.old self.new (λ s. InSave s name.now) }
        ensures forwarded { Forwards R.refuses R.later call.Save
            (saved_file name.now bytes.now) result self.old self.new }
    {
        if self.rule.refuses_next() {
            self.counts.raise(StageCall::Save);
            return Err(Failed);
        }
        self.inner.save(name, bytes)
    }

    fn attach(&mut self, name: &str) -> Result<u64, Failed>
        requires synced { IsStable (standing_of self.old).disk }
        ensures counts_failure { CountsFailure (failed_in call.Attach result) (failures_of self.old)
            (failures_of self.new) }
        ensures answer { AttachesTo (standing_of self.old) (standing_of self.new) name.now result }
        ensures time { AtEachMoment self.old self.new (λ s. InAttach s (standing_of self.new) name.now) }
        ensures forwarded { Forwards R.refuses R.later call.Attach (attached_store name.now) result self.old self.new }
    {
        if self.rule.refuses_next() {
            self.counts.raise(StageCall::Attach);
            return Err(Failed);
        }
        self.inner.attach(name)
    }

    fn read_at(&mut self, at: u64, into: &mut [u8]) -> Result<(), Failed>
        requires attached { IsSome (standing_of self.old).attached }
        requires within { at + length into.old ≤ length (standing_of self.old).disk.bytes }
        ensures counts_failure { CountsFailure (failed_in call.Read result) (failures_of self.old)
            (failures_of self.new) }
        ensures still { standing_of self.new ≡ standing_of self.old }
        ensures answer { ReadsTo (standing_of self.old) at (length into.old) into.new result }
        ensures time { AtEachMoment self.old self.new Still }
        ensures forwarded { Forwards R.refuses R.later call.Read read_store result self.old self.new }
    {
        if self.rule.refuses_next() {
            self.counts.raise(StageCall::Read);
            return Err(Failed);
        }
        self.inner.read_at(at, into)
    }

    fn write_at(&mut self, at: u64, bytes: &[u8]) -> Result<(), Failed>
        requires attached { IsSome (standing_of self.old).attached }
        requires within { at ≤ length (standing_of self.old).disk.bytes }
        ensures counts_failure { CountsFailure (failed_in call.Write result) (failures_of self.old)
            (failures_of self.new) }
        ensures answer { WritesTo (standing_of self.old) (standing_of self.new) at bytes.now result }
        ensures time { AtEachMoment self.old self.new (λ s. InWrite s at (length bytes.now)) }
        ensures forwarded { Forwards R.refuses R.later call.Write (wrote_store at bytes.now) result self.old self.new }
    {
        if self.rule.refuses_next() {
            self.counts.raise(StageCall::Write);
            return Err(Failed);
        }
        self.inner.write_at(at, bytes)
    }

    fn sync(&mut self) -> Result<(), Failed>
        ensures counts_failure { CountsFailure (failed_in call.Sync result) (failures_of self.old)
            (failures_of self.new) }
        ensures answer { SyncsTo (standing_of self.old) (standing_of self.new) result }
        ensures time { AtEachMoment self.old self.new InSync }
        ensures forwarded { Forwards R.refuses R.later call.Sync synced_store result self.old self.new }
    {
        if self.rule.refuses_next() {
            self.counts.raise(StageCall::Sync);
            return Err(Failed);
        }
        self.inner.sync()
    }

    fn ask(&mut self, into: &mut [u8; LINE_LIMIT]) -> Asked
        ensures counts_failure { CountsFailure (failed_ask result) (failures_of self.old) (failures_of self.new) }
        ensures answer { AsksTo (standing_of self.old) (standing_of self.new) result into.new }
        ensures time { AtEachMoment self.old self.new (λ s. InAsk s (standing_of self.new)) }

        // It fails exactly where the rule refuses it, or where there is no room below.
        ensures exact { (result ≡ asked.Failed) ↔ CannotPass R.refuses taken_line self.old }
        ensures refused { IsTrue (R.refuses self.old.rule) → self.new ≡ call_refused R.later call.Ask self.old }
        ensures failed { result ≡ asked.Failed → FailsBelow R.refuses R.later call.Ask self.old self.new }
        ensures noted { (n : ℕ) → result ≡ asked.Line n → self.new ≡ passed_on R.later line_taken self.old }
        ensures noted_end { result ≡ asked.End → self.new ≡ passed_on R.later (call_recorded end_done) self.old }
    {
        if self.rule.refuses_next() {
            self.counts.raise(StageCall::Ask);
            return Asked::Failed;
        }
        self.inner.ask(into)
    }

    fn show(&mut self, text: &[u8]) -> Result<(), Failed>
        ensures counts_failure { CountsFailure (failed_in call.Show result) (failures_of self.old)
            (failures_of self.new) }
        ensures answer { ShowsTo (standing_of self.old) (standing_of self.new) text.now result }
        ensures time { AtEachMoment self.old self.new (λ s. InShow s text.now) }
        ensures forwarded { Forwards R.refuses R.later call.Show (shown_text text.now) result self.old self.new }
    {
        if self.rule.refuses_next() {
            self.counts.raise(StageCall::Show);
            return Err(Failed);
        }
        self.inner.show(text)
    }

    ghost only_now = { λ s m _ h. only_moment s.inner m h };

    ghost counts_now = { λ s t _ _. now_is_moment s.inner t };

    ghost may_stay = { λ s t m _ h. moment_stays s.inner t m h };

    ghost files_hold = { λ s name _ h. file_holds s.inner name h };
}
