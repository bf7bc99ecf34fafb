// A stage in memory that stops after a number of calls.

ghost use Rattle.std.specs.Prelude.{◌≡◌, ◌-◌, ◌==◌};
ghost use Rattle.paw_stage.specs.inner.Failures.{no_failures};

use crate::MemoryStage;
use crate::refusing::{Refusals, RefusingStage};

/// A stage in memory that passes on a number of calls and then fails every one.
pub type StopStage = RefusingStage<Stopping>;

/// The rule that all calls fail once a number of them have passed.
#[derive(Drop)]
pub struct Stopping {
    passes: u64,
}

impl Refusals for Stopping {
    ghost refuses = { λ s. s.passes == 0 };

    ghost later = { λ s. record s { passes = s.passes - 1 } };

    fn refuses_next(&mut self) -> bool {
        let stopped = self.passes == 0;
        self.passes = self.passes.saturating_sub(1);
        stopped
    }
}

impl RefusingStage<Stopping> {
    /// A stage over this one, which passes on `passes` calls and then fails every one.
    pub fn new(inner: MemoryStage, passes: u64) -> StopStage
        ensures value { result ≡ record { inner = inner; rule = record { passes = passes }; counts = no_failures } }
    {
        RefusingStage::over(inner, Stopping { passes })
    }
}
