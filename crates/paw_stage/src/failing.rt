// A stage in memory of which the listed calls fail.

ghost use Rattle.std.specs.Prelude.{◌≡◌};
ghost use Rattle.paw_stage.specs.inner.Failures.{no_failures};
ghost use Rattle.paw_stage.specs.inner.Failing.{listing_of, is_listed, call_counted};

use crate::MemoryStage;
use crate::refusing::{Refusals, RefusingStage};
use std::marker::Model;

/// A stage in memory of which the calls with the listed numbers fail, counted from 0 over all calls. From number
/// 2^64 - 1 on each call has that number.
pub type FailStage = RefusingStage<Listed>;

/// The rule that the calls with the listed numbers fail.
#[derive(Drop)]
pub struct Listed {
    calls: Vec<u64>,
    next: u64,
}

impl Model for Listed {
    ghost use Rattle.paw_stage.specs.inner.Failing.{Listing};

    ghost Value = { Listing };

    ghost view = { λ l. record { calls = l.calls.items; next = l.next } };
}

impl Refusals for Listed {
    ghost refuses = { is_listed };

    ghost later = { call_counted };

    fn refuses_next(&mut self) -> bool {
        let number = self.next;
        self.next = number.saturating_add(1);
        self.calls.contains(&number)
    }
}

impl RefusingStage<Listed> {
    /// A stage over this one, of which the calls with these numbers fail. They need not be in order.
    pub fn new(inner: MemoryStage, calls: Vec<u64>) -> FailStage
        ensures value { result ≡ record { inner = inner; rule = listing_of calls.items; counts = no_failures } }
    {
        RefusingStage::over(inner, Listed { calls, next: 0 })
    }
}
