// The lines that a player takes.

ghost use Rattle.std.specs.Prelude.{◌≡◌, ◌+◌, ◌<◌, ◌≤◌, false, length, reverse};
ghost use Rattle.paw_base.specs.Bytes.{RoutineAnswers};
ghost use Rattle.paw_base.specs.declared.limits.TheConstants.{LINE_LIMIT};
ghost use Rattle.paw_routines.specs.Routines.{HaveAnswers};
ghost use Rattle.paw_effects.specs.Story.{story_of};
ghost use Rattle.paw_effects.specs.declared.act.Prompt.TheVariants as prompt;
ghost use Rattle.paw_reading.specs.Run.{is_timeout, is_ignored, reply, begins_with};
ghost use Rattle.paw_reading.specs.Turn.{first_table};
ghost use Rattle.paw_process.specs.inner.OpenTables.{IsClosed};
ghost use Rattle.paw_process.specs.inner.Meaning.{InStories};
ghost use Rattle.paw_turn.specs.declared.phase.Next.TheVariants as next;
ghost use Rattle.paw_turn.specs.inner.Player.{WaitsIn};
ghost use Rattle.paw_turn.specs.inner.Phases.{PlaysAs, RunsAs, from_prompt, from_path, IsPlayable};
ghost use Rattle.paw_turn.specs.inner.Phases.{MayHear, MayAnswer, Stays, StaysInGame, StopsInTable};

use crate::flags;
use crate::phase::{Next, Phase, TurnStop};
use crate::turn::{PlayState, TurnRules, halt_next, or_spent};
use paw_base::flags::TIMEOUT_FLAG;
use paw_base::messages::{GOODBYE_MESSAGE, TIMEOUT_MESSAGE};
use paw_effects::act::Prompt;
use paw_effects::text::say;
use paw_game::tables::Tables;
use paw_process::Turned;
use paw_reading::halt::Halt;
use paw_world::world::World;

// Whether a line is ~, which stands for a timeout.
fn is_timeout(line: &[u8]) -> bool
    ensures value { result ≡ is_timeout line.now }
{
    line == b"~".as_slice()
}

// Whether a line changes nothing: it is a timeout, and flag 48 is 0.
fn is_ignored(world: &World, line: &[u8]) -> bool
    ensures value { result ≡ is_ignored world.now line.now }
{
    is_timeout(line) && world.flag(TIMEOUT_FLAG) == 0
}

// The answer that a line gives to a question: a timeout gives an empty line.
fn reply(line: &[u8]) -> &[u8]
    ensures value { result.now ≡ reply line.now }
{
    if is_timeout(line) { &[] } else { line }
}

// Whether the first byte that isn't a space is this letter, as a capital or a small one.
fn begins_with(capital: u8, line: &[u8]) -> bool
    requires letter { capital + 32 < 256 }
    ensures value { result ≡ begins_with capital line.now }
{
    for &byte in line {
        if byte != b' ' {
            return byte == capital || byte == capital + 32;
        }
    }
    false
}

impl PlayState {
    // Takes a line that isn't ignored at the main prompt: a timeout says message 35 and leads to the time frame; any
    // other line becomes the pending one.
    fn hear_line<T: Tables>(&mut self, tables: &T, line: &[u8]) -> Next
        requires line { length line.now ≤ LINE_LIMIT }
        requires heard { is_ignored self.old.surroundings.world line.now ≡ false }
        requires playable { IsPlayable (T.game tables.now) self.old }
        requires closed { IsClosed self.old.machine }
        ensures meaning { (X : RoutineAnswers) → let g = story_of (T.game tables.now) X in
            PlaysAs g (from_prompt g prompt.Main self.old line.now) self.old result self.new }
        ensures stays { StaysInGame (T.game tables.now) self.old result self.new }
    {
        if is_timeout(line) {
            flags::set_timeout(&mut self.surroundings.world, true);
            self.say(tables, TIMEOUT_MESSAGE, Phase::TimeFrame)
        } else {
            flags::set_timeout(&mut self.surroundings.world, false);
            self.surroundings.pending.set(line);
            Next::Go(Phase::Phrase)
        }
    }

    // Takes the answer to END's question that isn't ignored: at no the game is over, and otherwise it starts anew.
    fn hear_again<T: Tables>(&mut self, tables: &T, line: &[u8]) -> Next
        requires heard { is_ignored self.old.surroundings.world line.now ≡ false }
        requires playable { IsPlayable (T.game tables.now) self.old }
        requires waits { WaitsIn prompt.Again self.old.machine }
        ensures meaning { (X : RoutineAnswers) → let g = story_of (T.game tables.now) X in
            PlaysAs g (from_prompt g prompt.Again self.old line.now) self.old result self.new }
        ensures stays { StaysInGame (T.game tables.now) self.old result self.new }
    {
        flags::set_timeout(&mut self.surroundings.world, is_timeout(line));
        self.machine.close();
        if !begins_with(b'N', reply(line)) {
            self.surroundings.world.restart();
            self.surroundings.pending.set(&[]);
            return Next::Go(Phase::Describe);
        }
        self.surroundings.pending.drop_line();
        let said = say(
            tables,
            &self.surroundings.world,
            &mut self.surroundings.piece,
            GOODBYE_MESSAGE,
        );
        or_spent(said, halt_next(Halt::Over))
    }
}

impl<T: Tables, F: Fn(u8, u8) -> u8> TurnRules<'_, T, F> {
    /// Takes a line at a prompt, and plays on to the next one or to the end.
    pub(crate) fn take(&self, state: &mut PlayState, prompt: Prompt, line: &[u8]) -> TurnStop
        requires line { length line.now ≤ LINE_LIMIT }
        requires answers { HaveAnswers F.Fn self.now.routines.now }
        requires ready { MayHear (T.game self.now.tables.now) prompt state.old }
        ensures meaning { InStories F.Fn self.now.routines.now (T.game self.now.tables.now) (λ g.
            PlaysAs g (from_prompt g prompt state.old line.now) state.old (next.Stop result) state.new) }
        ensures stays { StaysInGame (T.game self.now.tables.now) state.old (next.Stop result) state.new }
    {
        match self.hear(state, prompt, line) {
            Next::Go(phase) => self.play(state, phase),
            Next::Stop(stop) => stop,
        }
    }

    // Takes a line at a prompt. One that is ignored changes nothing.
    fn hear(&self, state: &mut PlayState, prompt: Prompt, line: &[u8]) -> Next
        requires line { length line.now ≤ LINE_LIMIT }
        requires answers { HaveAnswers F.Fn self.now.routines.now }
        requires ready { MayHear (T.game self.now.tables.now) prompt state.old }
        ensures meaning { InStories F.Fn self.now.routines.now (T.game self.now.tables.now) (λ g.
            PlaysAs g (from_prompt g prompt state.old line.now) state.old result state.new) }
        ensures stays { StaysInGame (T.game self.now.tables.now) state.old result state.new }
    {
        if is_ignored(&state.surroundings.world, line) {
            return Next::Stop(TurnStop::Waits(prompt));
        }
        match prompt {
            Prompt::Main => state.hear_line(self.tables, line),
            Prompt::Quit | Prompt::Key => self.hear_answer(state, prompt, line),
            Prompt::Again => state.hear_again(self.tables, line),
            Prompt::Over => unreachable!(), // Where the game is over, no line is taken.
        }
    }

    // Takes the answer to QUIT's question, or a key, that isn't ignored, and goes on where the tables wait.
    fn hear_answer(&self, state: &mut PlayState, prompt: Prompt, line: &[u8]) -> Next
        requires answers { HaveAnswers F.Fn self.now.routines.now }
        requires ready { MayAnswer (T.game self.now.tables.now) prompt line.now state.old }
        ensures meaning { InStories F.Fn self.now.routines.now (T.game self.now.tables.now) (λ g.
            PlaysAs g (from_prompt g prompt state.old line.now) state.old result state.new) }
        ensures stays { StaysInGame (T.game self.now.tables.now) state.old result state.new }
    {
        let table = state.machine.first_table();
        let turned = self.run_answered(state, prompt, line);
        state.after_table(self.tables, table, turned)
    }

    // Gives the machine an answer that isn't ignored, and lets it read on to its next stop.
    fn run_answered(&self, state: &mut PlayState, prompt: Prompt, line: &[u8]) -> Turned
        requires answers { HaveAnswers F.Fn self.now.routines.now }
        requires ready { MayAnswer (T.game self.now.tables.now) prompt line.now state.old }
        ensures runs { InStories F.Fn self.now.routines.now (T.game self.now.tables.now) (λ g.
            RunsAs g (from_path g prompt state.old line.now) state.old result state.new) }
        ensures stops { StopsInTable (first_table (reverse state.old.machine.frames)) result state.new.machine }
        ensures stays { Stays (T.game self.now.tables.now) state.old state.new }
    {
        flags::set_timeout(&mut state.surroundings.world, is_timeout(line));
        state.machine.answer(begins_with(b'Y', reply(line)));
        state
            .machine
            .run(self.tables, self.routines, &mut state.surroundings)
    }
}
