// The steps of a piece: the condacts that were read for it.

ghost use Rattle.std.specs.Prelude.{◌≡◌, ◌<◌, ◌≤◌, take};
ghost use Rattle.paw_base.specs.declared.limits.TheConstants.{STEP_LIMIT};
ghost use Rattle.paw_base.specs.inner.Steps.{KeptSteps};
ghost use Rattle.paw_base.specs.inner.Steps.{no_steps, steps_only_counted, with_step_noted};

use crate::limits::STEP_LIMIT;
use std::marker::Model;

/// One condact that was read: where it stands, its code, and whether reading went on in its entry: only after a
/// condition that failed it didn't.
#[derive(Clone, Copy, Drop, PartialEq, Eq, Debug)]
pub struct StepRow {
    pub table: u8,
    pub entry: u16,
    pub at: u8,
    pub code: u8,
    pub yes: bool,
}

/// What a row holds before a step is kept there.
const NO_STEP: StepRow = StepRow {
    table: 0,
    entry: 0,
    at: 0,
    code: 0,
    yes: false,
};

/// The condacts that were read for a piece: how many there were, and the first 1,000, or none where they are only
/// counted. It asks for no memory.
#[derive(Drop)]
pub struct Steps {
    rows: [StepRow; STEP_LIMIT],
    count: u32,
    // How many rows are kept at most: STEP_LIMIT, or 0 where steps are only counted, because keeping them takes time.
    most: usize,
}

impl Model for Steps {
    ghost use Rattle.std.specs.Prelude.{◌≡◌, ◌≤◌, length, take};
    ghost use Rattle.paw_base.specs.declared.limits.TheConstants.{STEP_LIMIT};
    ghost use Rattle.paw_base.specs.inner.Steps.{KeptSteps};

    ghost Value = { KeptSteps };

    ghost view = { λ s. record { most = s.most; rows = take s.count (take s.most s.rows); count = s.count } };

    ghost invariant = { λ s. (s.most ≤ STEP_LIMIT) × (length s.rows ≡ STEP_LIMIT) };
}

impl Steps {
    /// No steps. Of those that are noted the first 1,000 are kept; all are counted.
    pub fn new() -> Steps
        ensures value { result ≡ no_steps STEP_LIMIT }
    {
        Steps {
            rows: [NO_STEP; STEP_LIMIT],
            count: 0,
            most: STEP_LIMIT,
        }
    }

    /// Forgets the steps that are kept, and from here on only counts them.
    pub fn count_only(&mut self)
        ensures value { self.new ≡ steps_only_counted self.old }
    {
        self.most = 0;
    }

    /// Forgets all steps. Where they are only counted, so are those to come.
    pub fn clear(&mut self)
        ensures value { self.new ≡ no_steps self.old.most }
    {
        self.count = 0;
    }

    /// Notes one step more. It is kept where fewer than the most are.
    pub fn note(&mut self, row: StepRow)
        requires count { self.old.count < 4294967295 }
        ensures value { self.new ≡ with_step_noted row self.old }
    {
        if (self.count as usize) < self.most {
            self.keep(row.table, row.entry, row.at, row.code, row.yes);
        } else {
            self.count += 1;
        }
    }

    // Notes one step more, and keeps it. It stands by itself and takes the fields of the row one by one because most
    // players only count their steps: so the compiler puts no row together where a step is only counted.
    #[cold]
    #[inline(never)]
    fn keep(&mut self, table: u8, entry: u16, at: u8, code: u8, yes: bool)
        requires room { self.old.count < self.old.most }
        ensures value { self.new ≡ with_step_noted
            (record { table = table; entry = entry; at = at; code = code; yes = yes }) self.old }
    {
        self.rows[self.count as usize] = StepRow {
            table,
            entry,
            at,
            code,
            yes,
        };
        self.count += 1;
    }

    /// The steps that are kept: the first ones.
    pub fn rows(&self) -> &[StepRow]
        ensures value { result.now ≡ self.now.rows }
    {
        up_to(up_to(&self.rows, self.most), self.count as usize)
    }

    /// How many steps there were.
    pub fn count(&self) -> u32
        ensures value { result ≡ self.now.count }
    {
        self.count
    }
}

// The first `count` rows, or all where there are fewer.
fn up_to(rows: &[StepRow], count: usize) -> &[StepRow]
    ensures value { result.now ≡ take count rows.now }
{
    &rows[..count.min(rows.len())]
}
