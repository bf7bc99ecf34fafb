// A count of failures for each call, kept by every stage.

ghost use Rattle.std.specs.Prelude.{◌≡◌, Some};
ghost use Rattle.paw_stage.specs.inner.Failures.{count_of, no_failures, failure_counted, counts_after};
ghost use Rattle.paw_stage.specs.Stage.{CountsFailure, failed_in};

use crate::{Failed, StageCall};

/// How often each call has failed. A count never falls, and stops at its last value, 2^64 - 1.
#[derive(Clone, Copy, Drop, PartialEq, Eq, Debug)]
pub struct FailureCounts {
    pub load: u64,
    pub absent: u64,
    pub save: u64,
    pub attach: u64,
    pub read: u64,
    pub write: u64,
    pub sync: u64,
    pub ask: u64,
    pub show: u64,
}

impl FailureCounts {
    /// No call has failed yet.
    pub fn none() -> FailureCounts
        ensures value { result ≡ no_failures }
    {
        FailureCounts {
            load: 0,
            absent: 0,
            save: 0,
            attach: 0,
            read: 0,
            write: 0,
            sync: 0,
            ask: 0,
            show: 0,
        }
    }

    /// Counts one more failure of a call. Its own count rises, and no other changes.
    pub fn raise(&mut self, call: StageCall)
        ensures raised { self.new ≡ failure_counted call self.old }
        ensures counts_failure { CountsFailure (Some call) (count_of self.old) (count_of self.new) }
    {
        match call {
            StageCall::Load => self.load = self.load.saturating_add(1),
            StageCall::LoadAbsent => self.absent = self.absent.saturating_add(1),
            StageCall::Save => self.save = self.save.saturating_add(1),
            StageCall::Attach => self.attach = self.attach.saturating_add(1),
            StageCall::Read => self.read = self.read.saturating_add(1),
            StageCall::Write => self.write = self.write.saturating_add(1),
            StageCall::Sync => self.sync = self.sync.saturating_add(1),
            StageCall::Ask => self.ask = self.ask.saturating_add(1),
            StageCall::Show => self.show = self.show.saturating_add(1),
        }
    }

    /// Counts one more failure of a call where it failed, and hands on what it answered.
    pub fn count_answer<T>(
        &mut self,
        call: StageCall,
        answer: Result<T, Failed>,
    ) -> Result<T, Failed>
        ensures same { result ≡ answer }
        ensures counted { self.new ≡ counts_after (failed_in call result) self.old }
        ensures counts_failure { CountsFailure (failed_in call result) (count_of self.old) (count_of self.new) }
    {
        if answer.is_err() {
            self.raise(call);
        }
        answer
    }
}
