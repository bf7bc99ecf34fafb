// The machine: which tables are open, and what it may still read.

ghost use Rattle.std.specs.Prelude.{◌≡◌, ◌+◌, ◌<◌, ◌≤◌, ◌^◌, [], ◌∷◌, length, reverse};
ghost use Rattle.std.specs.Prelude.{nat_lt, Some, None, IfOk, IfErr};
ghost use Rattle.paw_game.specs.Game.{GameLists};
ghost use Rattle.paw_routines.specs.Routines.{HaveAnswers};
ghost use Rattle.paw_effects.specs.declared.act.Prompt.{Prompt as AtPrompt};
ghost use Rattle.paw_effects.specs.declared.act.Prompt.TheVariants as prompt;
ghost use Rattle.paw_reading.specs.Reading.{step_at};
ghost use Rattle.paw_reading.specs.Turn.{first_table};
ghost use Rattle.paw_reading.specs.inner.Waits.{AreFramesAndLoop};
ghost use Rattle.paw_base.specs.declared.limits.TheConstants.{STEP_LIMIT};
ghost use Rattle.paw_process.specs.declared.machine.TheConstants.{MOST_FRAMES};
ghost use Rattle.paw_process.specs.inner.OpenTables.{OpenTables};
ghost use Rattle.paw_process.specs.inner.OpenTables.{below, ReadsStep, IsReading, IsClosed};
ghost use Rattle.paw_process.specs.inner.OpenTables.{new_machine, only_counting, refilled_to_keep, budget_refilled};
ghost use Rattle.paw_process.specs.inner.OpenTables.{table_begun};
ghost use Rattle.paw_process.specs.inner.Kept.{machine_kept as kept_of};
ghost use Rattle.paw_process.specs.inner.Kept.{frames_fault};
ghost use Rattle.paw_process.specs.inner.Kept.{machine_restored, waiting_at, WaitsAtPrompt};
ghost use Rattle.paw_process.specs.inner.Meaning.{InStories, having, RunsTo, IsStopped, AwaitsAnswer};
ghost use Rattle.paw_process.specs.inner.Meaning.{AnswersQuit, AnswersKey};
ghost use Rattle.paw_process.specs.inner.Steps.{IsReady, IsAfterReading};

use crate::Turned;
use crate::frame::{frame_after_answer, start_of};
use crate::kept::{FrameFault, Frames, frames_fault, waiting_at};
use crate::step::StoryReader;
use crate::surroundings::Surroundings;
use paw_base::limits::{LEVEL_LIMIT, READ_LIMIT};
use paw_base::parts::Condact;
use paw_base::steps::{StepRow, Steps};
use paw_effects::act::Prompt;
use paw_game::tables::Tables;
use paw_reading::frames::{Frame, OpenLoop};
use paw_routines::routines::Routines;
use std::marker::Model;

/// The most tables that may be open at once: one, and one for each level of calls.
pub const MOST_FRAMES: usize = LEVEL_LIMIT + 1;

/// Reads a game's tables in written order, up to the next stop. It holds the frames of the tables that are open, the
/// open loop, and the steps of the open piece; contracts see the frames with the innermost first, and how many condacts
/// the piece may still read.
#[derive(Drop)]
pub struct Machine {
    frames: [Frame; MOST_FRAMES],
    count: usize,
    turning: Option<OpenLoop>,
    waiting: Option<Prompt>,
    steps: Steps,
}

impl Model for Machine {
    ghost use Rattle.paw_base.specs.declared.limits.TheConstants.{READ_LIMIT};
    ghost use Rattle.paw_process.specs.declared.machine.TheConstants.{MOST_FRAMES};
    ghost use Rattle.std.specs.Prelude.{◌≡◌, ◌-◌, ◌≤◌, length, take, reverse};
    ghost use Rattle.paw_process.specs.inner.OpenTables.{OpenTables};

    ghost Value = { OpenTables };

    ghost view = { λ m. record {
      frames = reverse (take m.count m.frames);
      turning = m.turning;
      waiting = m.waiting;
      left = READ_LIMIT - m.steps.count;
      steps = m.steps;
    } };

    ghost invariant = { λ m.
        (m.count ≤ MOST_FRAMES) × (length m.frames ≡ MOST_FRAMES) × (m.steps.count ≤ READ_LIMIT) };
}

impl Machine {
    /// A machine with no open table, a full budget, and no steps. Of the steps of a piece it keeps the first 1,000; all
    /// are counted.
    pub fn new() -> Machine
        ensures value { result ≡ new_machine STEP_LIMIT }
    {
        Machine {
            frames: [start_of(0); MOST_FRAMES],
            count: 0,
            turning: None,
            waiting: None,
            steps: Steps::new(),
        }
    }

    /// Forgets the steps that are kept, and from here on only counts them: for a machine whose steps are shown nowhere,
    /// because keeping them takes time.
    pub fn count_steps_only(&mut self)
        ensures value { self.new ≡ only_counting self.old }
    {
        self.steps.count_only();
    }

    /// Opens a table at its start, where no table is open.
    pub fn begin(&mut self, table: u8)
        requires closed { IsClosed self.old }
        ensures value { self.new ≡ table_begun table self.old }
        ensures reading { IsReading self.new }
    {
        self.push(start_of(table));
    }

    /// Fills up the budget and drops the steps, as for a new piece.
    pub fn refill(&mut self)
        ensures value { self.new ≡ budget_refilled self.old }
    {
        self.steps.clear();
    }

    /// Drops all tables that are open, and the open loop.
    pub fn close(&mut self)
        ensures value { self.new ≡ record self.old { frames = []; turning = None; waiting = None } }
        ensures closed { IsClosed self.new }
    {
        self.count = 0;
        self.turning = None;
        self.waiting = None;
    }

    /// Takes the answer to QUIT's question (whether it is yes), or the key of ANYKEY (whatever the answer is). After
    /// yes or a key, reading goes on after the condact; after no, QUIT's table is left as DONE leaves it. Nothing is
    /// read here: `run` goes on.
    pub fn answer(&mut self, yes: bool)
        requires waits { AwaitsAnswer self.old }
        ensures quit { self.old.waiting ≡ Some prompt.Quit → AnswersQuit yes self.old.frames self.new.frames }
        ensures key { self.old.waiting ≡ Some prompt.Key → AnswersKey self.old.frames self.new.frames }
        ensures reading { IsReading self.new }
        ensures rest { self.new ≡ record self.old { frames = self.new.frames; waiting = None } }
    {
        let waiting = self.take_waiting();
        let f = self.top();
        self.set_top(frame_after_answer(waiting, f, yes));
    }

    /// Reads on to the next stop. Where it waits, the text of the open piece is complete, and the machine's frames show
    /// where; otherwise no table and no loop is open. A piece reads at most 200,000 condacts and holds at most 65,535
    /// bytes. At more the machine stops as Spent, and the world and the piece may then hold anything, as after a call
    /// that is too deep.
    pub fn run<T: Tables, F: Fn(u8, u8) -> u8>(
        &mut self,
        tables: &T,
        routines: &Routines<F>,
        surroundings: &mut Surroundings,
    ) -> Turned
        requires ready { IsReady (T.game tables.now) self.old surroundings.old.world }
        requires answers { HaveAnswers F.Fn routines.now }
        requires draws { surroundings.old.world.draws + self.old.left < 2 ^ 64 }
        ensures meaning { InStories F.Fn routines.now (T.game tables.now) (λ g.
            RunsTo g (having surroundings.old self.old) result (having surroundings.new self.new)) }
        ensures stopped { IsStopped result self.new }
        ensures after { IsAfterReading (T.game tables.now) (having surroundings.old self.old)
            (having surroundings.new self.new) }
    {
        let reader = StoryReader { tables, routines };
        // The innermost frame. The machine takes it back where it calls a table or waits, so that most condacts write
        // no frame.
        let mut f = self.top();
        loop {
            match reader.read_on(self, surroundings, &mut f) {
                None => {}
                Some(turned) => return turned,
            }
        }
    }

    /// The frames of the machine and its loop, to be kept where it waits. Restored at the prompt where it waits, they
    /// give the same machine with a full budget and no steps, of which it keeps the first 1,000; and they can be
    /// restored wherever they are frames of a run.
    pub fn frames(&self) -> Frames
        ensures value { result ≡ kept_of self.now }
        ensures again { (p : AtPrompt) → WaitsAtPrompt p self.now →
            machine_restored result (waiting_at p) ≡ refilled_to_keep STEP_LIMIT self.now }
        ensures sound { (g : GameLists) (p : AtPrompt) →
            AreFramesAndLoop g p (reverse self.now.frames) self.now.turning → frames_fault g p result ≡ None }
    {
        let mut rows = [start_of(0); MOST_FRAMES];
        rows[..self.count].copy_from_slice(&self.frames[..self.count]);
        Frames {
            count: self.count as u8,
            rows,
            turning: self.turning,
        }
    }

    /// A machine with kept frames that waits at this prompt, with a full budget and no steps. Its `frames` are these
    /// again.
    ///
    /// # Errors
    /// The least depth at which the frames break a rule, exactly where they break one for this game: inside tables the
    /// outermost table is 0, 1 or 2, each frame but the last is at a PROCESS that calls the next one's table, and the
    /// last at the condact of the prompt; the open loop is at a DOALL of its level's table. At the other prompts no
    /// table is open.
    pub fn restore<T: Tables>(
        tables: &T,
        kept: &Frames,
        prompt: Prompt,
    ) -> Result<Machine, FrameFault>
        ensures value { IfOk result (λ m. m ≡ machine_restored kept.now (waiting_at prompt)) }
        ensures stands { IfOk result (λ m. WaitsAtPrompt prompt m) }
        ensures frames { IfOk result (λ m. AreFramesAndLoop (T.game tables.now) prompt (reverse m.frames) m.turning) }
        ensures again { IfOk result (λ m. kept_of m ≡ kept.now) }
        ensures sound { IfOk result (λ m. frames_fault (T.game tables.now) prompt kept.now ≡ None) }
        ensures fault { IfErr result (λ e. frames_fault (T.game tables.now) prompt kept.now ≡ Some e.depth) }
    {
        // The clause of this call says that the game is valid, which the proof needs. The compiler leaves the call out.
        let _counts = tables.counts();
        if let Some(depth) = frames_fault(tables, prompt, kept) {
            return Err(FrameFault { depth });
        }
        Ok(Machine {
            frames: kept.rows,
            count: kept.count as usize,
            turning: kept.turning,
            waiting: waiting_at(prompt),
            steps: Steps::new(),
        })
    }

    /// The steps of the open piece, or of the piece that was closed last: how many condacts were read for it, and the
    /// first 1,000, or none where the machine only counts them.
    pub fn steps(&self) -> &Steps
        ensures value { result.now ≡ self.now.steps }
    {
        &self.steps
    }

    /// The number of the outermost open table.
    pub fn first_table(&self) -> u8
        requires some { 0 < length self.now.frames }
        ensures value { result ≡ first_table (reverse self.now.frames) }
    {
        self.frames[0].table
    }

    /// The number of open tables.
    pub(crate) fn depth(&self) -> usize
        ensures value { result ≡ length self.now.frames }
        ensures room { result ≤ MOST_FRAMES }
    {
        self.count
    }

    /// The innermost frame.
    pub(crate) fn top(&self) -> Frame
        requires some { 0 < length self.now.frames }
        ensures value { self.now.frames ≡ result ∷ below self.now.frames }
    {
        self.frames[self.count - 1]
    }

    /// Puts another frame in the place of the innermost one.
    pub(crate) fn set_top(&mut self, f: Frame)
        requires some { 0 < length self.old.frames }
        ensures value { self.new ≡ record self.old { frames = f ∷ below self.old.frames } }
    {
        self.frames[self.count - 1] = f;
    }

    /// Opens a table inside the others.
    pub(crate) fn push(&mut self, f: Frame)
        requires room { length self.old.frames < MOST_FRAMES }
        ensures value { self.new ≡ record self.old { frames = f ∷ self.old.frames } }
    {
        self.frames[self.count] = f;
        self.count += 1;
    }

    /// Closes the innermost table.
    pub(crate) fn pop(&mut self)
        requires some { 0 < length self.old.frames }
        ensures value { self.new ≡ record self.old { frames = below self.old.frames } }
    {
        self.count -= 1;
    }

    /// The open loop.
    pub(crate) fn turning(&self) -> Option<OpenLoop>
        ensures value { result ≡ self.now.turning }
    {
        self.turning
    }

    /// Makes this the open loop, or leaves none open.
    pub(crate) fn set_open_loop(&mut self, turning: Option<OpenLoop>)
        ensures value { self.new ≡ record self.old { turning = turning } }
    {
        self.turning = turning;
    }

    // The prompt at which the machine waited; afterwards it waits at none.
    fn take_waiting(&mut self) -> Option<Prompt>
        ensures was { result ≡ self.old.waiting }
        ensures rest { self.new ≡ record self.old { waiting = None } }
    {
        self.waiting.take()
    }

    /// Makes the machine wait at this prompt, or at none.
    pub(crate) fn set_waiting(&mut self, waiting: Option<Prompt>)
        ensures value { self.new ≡ record self.old { waiting = waiting } }
    {
        self.waiting = waiting;
    }

    /// Whether the open piece may read one more condact. The count of its steps says so, and there is no other counter.
    pub(crate) fn may_read(&self) -> bool
        ensures value { result ≡ nat_lt 0 self.now.left }
    {
        self.steps.count() < READ_LIMIT
    }

    /// Notes that a frame's condact was read: with yes, or with no for a condition that failed.
    pub(crate) fn note(&mut self, f: Frame, c: Condact, yes: bool)
        requires may { 0 < self.old.left }
        ensures reads { ReadsStep (step_at f c yes) self.old self.new }
        ensures same { self.new ≡ record self.old { left = self.new.left; steps = self.new.steps } }
    {
        let step = StepRow {
            table: f.table,
            entry: f.entry,
            at: f.at,
            code: c.code,
            yes,
        };
        self.steps.note(step);
    }
}
