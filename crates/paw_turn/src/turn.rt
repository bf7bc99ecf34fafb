// The state of play within a turn, and the phases.

ghost use Rattle.std.specs.Prelude.{◌≡◌, suc, ◌+◌, ◌*◌, ◌<◌, ◌≤◌, ℕ, [], length, None};
ghost use Rattle.std.specs.Prelude.{false};
ghost use Rattle.paw_base.specs.Bytes.{RoutineAnswers};
ghost use Rattle.paw_base.specs.declared.limits.TheConstants.{PIECE_LIMIT, STEP_LIMIT};
ghost use Rattle.paw_base.specs.declared.words.TheConstants.{NO_WORD};
ghost use Rattle.paw_base.specs.inner.Piece.{Puts};
ghost use Rattle.paw_game.specs.Valid.{Valid};
ghost use Rattle.paw_phrase.specs.Sentence.{IsNoPhrase};
ghost use Rattle.paw_effects.specs.Story.{story_of};
ghost use Rattle.paw_effects.specs.inner.Opening.{opening_world};
ghost use Rattle.paw_effects.specs.Texts.{say_text};
ghost use Rattle.paw_reading.specs.Run.{line_dropped};
ghost use Rattle.paw_reading.specs.Reading.{table_read};
ghost use Rattle.paw_reading.specs.Turn.{saying, view_text, prompt_text, refusal_text};
ghost use Rattle.paw_reading.specs.Turn.{AtDescribe, AtTimeFrame, AtPhrase, after_phrase, after_left, table_done, turn};
ghost use Rattle.paw_process.specs.inner.OpenTables.{ReadsNone, new_machine};
ghost use Rattle.paw_process.specs.inner.Meaning.{InStories};
ghost use Rattle.paw_turn.specs.declared.phase.Phase.TheVariants as phase;
ghost use Rattle.paw_turn.specs.declared.phase.Next.TheVariants as next;
ghost use Rattle.paw_turn.specs.inner.Player.{step_of};
ghost use Rattle.paw_turn.specs.inner.Phases.{at_phase, state_settled, opened_piece, Moves};
ghost use Rattle.paw_turn.specs.inner.Phases.{ReadsTurn, Plays, MovesAfter};
ghost use Rattle.paw_turn.specs.inner.Phases.{IsPlayable, MayGoOn, MayReadTables, Stays, StaysInGame};
ghost use Rattle.paw_turn.specs.inner.Phases.{StopsInTable};
ghost use Rattle.paw_turn.specs.inner.Phases.{with_piece, left_of, work, Falls};
ghost use Rattle.paw_turn.specs.inner.Phases.{halt_next, or_spent, table_rank, FallsAfter, RunsAs, from_table, Uses};

use crate::flags;
use crate::phase::{Next, Phase, TurnStop};
use paw_base::fault::SpentKind;
use paw_base::flags::{LOCATION_FLAG, PROMPT_FLAG, VERB_FLAG};
use paw_base::messages::{
    DARK_MESSAGE, IMPOSSIBLE_MESSAGE, LINE_MESSAGE, NO_WAY_MESSAGE, PROMPT_MESSAGE, UNKNOWN_MESSAGE,
};
use paw_base::piece::Piece;
use paw_base::tables::{DESCRIBED_TABLE, FRAME_TABLE, RESPONSE_TABLE};
use paw_base::words::FIRST_PLAIN_VERB;
use paw_effects::act::Prompt;
use paw_effects::opening::opening_world;
use paw_effects::text::{print_location, put, say};
use paw_game::tables::Tables;
use paw_phrase::{Found, Pending};
use paw_process::{Machine, Surroundings, Turned, take_phrase};
use paw_reading::halt::Halt;
use paw_routines::routines::Routines;
use paw_world::world::World;

/// The state of play within a turn: the surroundings that reading changes, and the machine.
#[derive(Drop)]
pub(crate) struct PlayState {
    pub(crate) surroundings: Surroundings,
    pub(crate) machine: Machine,
}

/// The game that turns are played in, and the routines that it calls.
#[derive(Drop)]
pub(crate) struct TurnRules<'a, T: Tables, F: Fn(u8, u8) -> u8> {
    pub(crate) tables: &'a T,
    pub(crate) routines: &'a Routines<F>,
}

/// Play has ended for this reason, and nothing goes on.
pub(crate) fn halt_next(halt: Halt) -> Next
    ensures value { result ≡ halt_next halt }
{
    Next::Stop(TurnStop::Halted(halt))
}

/// Goes on this way if the text was shown; otherwise the piece is spent.
pub(crate) fn or_spent(shown: bool, next: Next) -> Next
    ensures value { result ≡ or_spent shown next }
{
    if shown {
        next
    } else {
        halt_next(Halt::Spent(SpentKind::Text))
    }
}

impl PlayState {
    /// The state of play at the start of a game, with this piece.
    pub(crate) fn new<T: Tables>(tables: &T, seed: u64, piece: Piece) -> PlayState
        ensures valid { Valid (T.game tables.now) }
        ensures world { result.surroundings.world ≡ opening_world (T.game tables.now) seed }
        ensures pending { result.surroundings.pending ≡ record { bytes = []; earlier = NO_WORD } }
        ensures machine { result.machine ≡ new_machine STEP_LIMIT }
        ensures piece { result.surroundings.piece ≡ piece }
    {
        PlayState {
            surroundings: Surroundings {
                world: opening_world(tables, seed),
                pending: Pending::new(),
                piece,
            },
            machine: Machine::new(),
        }
    }

    /// Goes back to the start of a game, with an empty piece. Where steps are only counted, they still are.
    pub(crate) fn renew<T: Tables>(&mut self, tables: &T, seed: u64)
        ensures world { self.new.surroundings.world ≡ opening_world (T.game tables.now) seed }
        ensures pending { self.new.surroundings.pending ≡ record { bytes = []; earlier = NO_WORD } }
        ensures machine { self.new.machine ≡ new_machine self.old.machine.steps.most }
        ensures piece { self.new.surroundings.piece ≡ [] }
    {
        self.surroundings.world = opening_world(tables, seed);
        self.surroundings.pending = Pending::new();
        self.machine.close();
        self.open_piece();
    }

    /// Goes on with these parts in the place of its own, and with an empty piece.
    pub(crate) fn seat(&mut self, world: World, machine: Machine, pending: Pending)
        ensures value { self.new ≡ record {
          surroundings = record { world = world; pending = pending; piece = [] };
          machine = machine;
        } }
    {
        self.surroundings.world = world;
        self.machine = machine;
        self.surroundings.pending = pending;
        self.surroundings.piece.clear();
    }

    /// Begins a new piece: it is empty, and may read all condacts that a piece may.
    pub(crate) fn open_piece(&mut self)
        ensures value { self.new ≡ opened_piece self.old }
    {
        self.surroundings.piece.clear();
        self.machine.refill();
    }

    /// Takes the text out of the piece.
    pub(crate) fn clear_piece(&mut self)
        ensures value { self.new ≡ with_piece [] self.old }
    {
        self.surroundings.piece.clear();
    }

    /// The text of the piece.
    pub(crate) fn piece(&self) -> &[u8]
        ensures value { result.now ≡ self.now.surroundings.piece }
        ensures short { length result.now ≤ PIECE_LIMIT }
    {
        self.surroundings.piece.bytes()
    }

    /// Takes the text out of a piece of which nothing is to be shown.
    pub(crate) fn settle(&mut self, stop: TurnStop)
        ensures value { self.new ≡ state_settled (step_of stop) self.old }
    {
        match stop {
            TurnStop::Waits(_) | TurnStop::Halted(Halt::Over) => {}
            TurnStop::Halted(_) => self.surroundings.piece.clear(),
        }
    }

    // Says a system message, unless the piece has no room for it.
    fn put_message<T: Tables>(&mut self, tables: &T, message: u8) -> bool
        ensures puts { Puts self.old.surroundings.piece self.new.surroundings.piece result
            (say_text (T.game tables.now) self.old.surroundings.world message) }
        ensures same { self.new ≡ with_piece self.new.surroundings.piece self.old }
    {
        say(
            tables,
            &self.surroundings.world,
            &mut self.surroundings.piece,
            message,
        )
    }

    /// Says a system message, and goes on with a phase.
    pub(crate) fn say<T: Tables>(&mut self, tables: &T, message: u8, phase: Phase) -> Next
        requires ready { MayGoOn (T.game tables.now) self.old }
        ensures meaning { (X : RoutineAnswers) → let g = story_of (T.game tables.now) X in
            Moves g
            (λ n r. saying (say_text (T.game tables.now) self.old.surroundings.world message)
            (turn g n (at_phase phase)) r)
            self.old result self.new }
        ensures same { self.new ≡ with_piece self.new.surroundings.piece self.old }
        ensures falls { Falls (work phase self.old + 1) result self.new }
        ensures stays { StaysInGame (T.game tables.now) self.old result self.new }
    {
        or_spent(self.put_message(tables, message), Next::Go(phase))
    }

    // Shows where the game is: a message where it is dark without light, and otherwise the location's text.
    fn show_view<T: Tables>(&mut self, tables: &T) -> bool
        ensures puts { Puts self.old.surroundings.piece self.new.surroundings.piece result
            (view_text (T.game tables.now) self.old.surroundings.world) }
        ensures same { self.new ≡ with_piece self.new.surroundings.piece self.old }
    {
        if flags::is_unlit(&self.surroundings.world) {
            self.put_message(tables, DARK_MESSAGE)
        } else {
            print_location(
                tables,
                &self.surroundings.world,
                &mut self.surroundings.piece,
                self.surroundings.world.flag(LOCATION_FLAG),
            )
        }
    }

    // Shows the prompt.
    fn show_prompt<T: Tables>(&mut self, tables: &T) -> bool
        ensures puts { Puts self.old.surroundings.piece self.new.surroundings.piece result
            (prompt_text (T.game tables.now) self.old.surroundings.world) }
        ensures same { self.new ≡ with_piece self.new.surroundings.piece self.old }
    {
        let message = match self.surroundings.world.flag(PROMPT_FLAG) {
            0 => PROMPT_MESSAGE,
            message => message,
        };
        self.put_message(tables, message)
            && put(
                tables,
                &self.surroundings.world,
                &mut self.surroundings.piece,
                LINE_MESSAGE,
            )
    }

    // Shows the prompt once no phrase is left, and waits for a line.
    fn prompt<T: Tables>(&mut self, tables: &T) -> Next
        requires ready { MayGoOn (T.game tables.now) self.old }
        ensures meaning { (X : RoutineAnswers) → let g = story_of (T.game tables.now) X in
            Moves g (λ n r. after_phrase g (turn g n) r IsNoPhrase) self.old result self.new }
        ensures stays { StaysInGame (T.game tables.now) self.old result self.new }
        ensures falls { (most : ℕ) → Falls most result self.new }
        ensures machine { self.new.machine ≡ self.old.machine }
    {
        self.surroundings.pending.drop_line();
        if self.show_prompt(tables) {
            Next::Stop(TurnStop::Waits(Prompt::Main))
        } else {
            halt_next(Halt::Spent(SpentKind::Text))
        }
    }

    // Says that no entry answered and no exit leads on, drops the rest of the line, and goes on with the time frame.
    // It isn't inlined, because few lines are refused, and `after_table` is then small enough to be inlined itself.
    #[inline(never)]
    fn refuse<T: Tables>(&mut self, tables: &T) -> Next
        requires ready { MayGoOn (T.game tables.now) self.old }
        ensures meaning { (X : RoutineAnswers) → let g = story_of (T.game tables.now) X in
            Moves g (λ n r. saying (refusal_text (T.game tables.now) r.world) (turn g n AtTimeFrame) (line_dropped r))
            self.old result self.new }
        ensures stays { StaysInGame (T.game tables.now) self.old result self.new }
        ensures falls { Falls (work phase.Response self.old) result self.new }
        ensures machine { self.new.machine ≡ self.old.machine }
    {
        self.surroundings.pending.drop_line();
        let message = if self.surroundings.world.flag(VERB_FLAG) < FIRST_PLAIN_VERB {
            NO_WAY_MESSAGE
        } else {
            IMPOSSIBLE_MESSAGE
        };
        self.say(tables, message, Phase::TimeFrame)
    }

    // Takes the exit for the verb, where the location has one.
    fn connect<T: Tables>(&mut self, tables: &T) -> Next
        requires ready { MayGoOn (T.game tables.now) self.old }
        ensures meaning { (X : RoutineAnswers) → let g = story_of (T.game tables.now) X in
            Moves g (λ n r. after_left g (turn g n) 0 false r) self.old result self.new }
        ensures stays { StaysInGame (T.game tables.now) self.old result self.new }
        ensures falls { Falls (work phase.Response self.old) result self.new }
        ensures machine { self.new.machine ≡ self.old.machine }
    {
        let here = self.surroundings.world.flag(LOCATION_FLAG);
        match tables.exit(here, self.surroundings.world.flag(VERB_FLAG)) {
            Some(to) => {
                self.surroundings.world.set_flag(LOCATION_FLAG, to);
                Next::Go(Phase::Describe)
            }
            None => self.refuse(tables),
        }
    }

    // Goes on after table 0, 1 or 2, which was left with an action carried out or not.
    fn after_left<T: Tables>(&mut self, tables: &T, table: u8, acted: bool) -> Next
        requires ready { MayGoOn (T.game tables.now) self.old }
        ensures meaning { (X : RoutineAnswers) → let g = story_of (T.game tables.now) X in
            Moves g (λ n r. after_left g (turn g n) table acted r) self.old result self.new }
        ensures stays { StaysInGame (T.game tables.now) self.old result self.new }
        ensures falls { Falls (4 * left_of self.old + table_rank table) result self.new }
        ensures machine { self.new.machine ≡ self.old.machine }
    {
        match table {
            RESPONSE_TABLE if acted => Next::Go(Phase::TimeFrame),
            RESPONSE_TABLE => self.connect(tables),
            DESCRIBED_TABLE => Next::Go(Phase::TimeFrame),
            _ => {
                flags::pass_time_frame(&mut self.surroundings.world);
                Next::Go(Phase::Phrase)
            }
        }
    }

    /// Goes on after table 0, 1 or 2, by how the machine stopped.
    pub(crate) fn after_table<T: Tables>(&mut self, tables: &T, table: u8, turned: Turned) -> Next
        requires playable { IsPlayable (T.game tables.now) self.old }
        requires stops { StopsInTable table turned self.old.machine }
        ensures meaning { (X : RoutineAnswers) →
            MovesAfter (story_of (T.game tables.now) X) table turned self.old result self.new }
        ensures left { ReadsNone self.old.machine self.new.machine }
        ensures stays { StaysInGame (T.game tables.now) self.old result self.new }
        ensures falls { FallsAfter table turned self.old result self.new }
    {
        match turned {
            Turned::Left(acted) => self.after_left(tables, table, acted),
            Turned::Redescribe => Next::Go(Phase::Describe),
            Turned::Waits(prompt) => Next::Stop(TurnStop::Waits(prompt)),
            Turned::Halted(halt) => halt_next(halt),
        }
    }

    // Takes the next phrase. A sentence counts a turn; at a phrase with no known word message 6 is said, and the rest
    // of the line is dropped; with none left the prompt comes.
    fn phrase<T: Tables>(&mut self, tables: &T) -> Next
        requires ready { MayGoOn (T.game tables.now) self.old }
        ensures meaning { (X : RoutineAnswers) → let g = story_of (T.game tables.now) X in
            Moves g (λ n r. turn g (suc n) AtPhrase r) self.old result self.new }
        ensures stays { StaysInGame (T.game tables.now) self.old result self.new }
        ensures falls { Falls (work phase.Phrase self.old) result self.new }
        ensures machine { self.new.machine ≡ self.old.machine }
    {
        match take_phrase(
            tables,
            &mut self.surroundings.world,
            &mut self.surroundings.pending,
        ) {
            Found::Sentence => {
                flags::count_turn(&mut self.surroundings.world);
                Next::Go(Phase::Response)
            }
            Found::Nothing => {
                self.surroundings.pending.drop_line();
                self.say(tables, UNKNOWN_MESSAGE, Phase::TimeFrame)
            }
            Found::Empty => self.prompt(tables),
        }
    }
}

impl<T: Tables, F: Fn(u8, u8) -> u8> TurnRules<'_, T, F> {
    // Reads table 0, 1 or 2 from its start, up to the machine's next stop.
    fn run_table(&self, state: &mut PlayState, table: u8) -> Turned
        requires may { MayReadTables F.Fn self.now.routines.now (T.game self.now.tables.now) state.old }
        ensures runs { InStories F.Fn self.now.routines.now (T.game self.now.tables.now) (λ g.
            RunsAs g (from_table g table state.old) state.old result state.new) }
        ensures stops { StopsInTable table result state.new.machine }
        ensures uses { Uses result state.old state.new }
        ensures stays { Stays (T.game self.now.tables.now) state.old state.new }
    {
        state.machine.begin(table);
        state
            .machine
            .run(self.tables, self.routines, &mut state.surroundings)
    }

    // Reads table 0, 1 or 2, and goes on after it.
    fn read_table(&self, state: &mut PlayState, table: u8) -> Next
        requires may { MayReadTables F.Fn self.now.routines.now (T.game self.now.tables.now) state.old }
        ensures meaning { InStories F.Fn self.now.routines.now (T.game self.now.tables.now) (λ g.
            ReadsTurn g (λ n r. table_done g (turn g n) table (table_read g table r)) state.old result state.new) }
        ensures stays { StaysInGame (T.game self.now.tables.now) state.old result state.new }
        ensures falls { Falls (4 * left_of state.old + table_rank table) result state.new }
    {
        let turned = self.run_table(state, table);
        state.after_table(self.tables, table, turned)
    }

    // Describes the location, and reads table 1.
    fn describe(&self, state: &mut PlayState) -> Next
        requires may { MayReadTables F.Fn self.now.routines.now (T.game self.now.tables.now) state.old }
        ensures meaning { InStories F.Fn self.now.routines.now (T.game self.now.tables.now) (λ g.
            ReadsTurn g (λ n r. turn g (suc n) AtDescribe r) state.old result state.new) }
        ensures stays { StaysInGame (T.game self.now.tables.now) state.old result state.new }
        ensures falls { Falls (work phase.Describe state.old) result state.new }
    {
        flags::describe(&mut state.surroundings.world);
        if state.show_view(self.tables) {
            self.read_table(state, DESCRIBED_TABLE)
        } else {
            halt_next(Halt::Spent(SpentKind::Text))
        }
    }

    // Goes through one phase.
    fn phase(&self, state: &mut PlayState, phase: Phase) -> Next
        requires may { MayReadTables F.Fn self.now.routines.now (T.game self.now.tables.now) state.old }
        ensures meaning { InStories F.Fn self.now.routines.now (T.game self.now.tables.now) (λ g.
            ReadsTurn g (λ n r. turn g (suc n) (at_phase phase) r) state.old result state.new) }
        ensures stays { StaysInGame (T.game self.now.tables.now) state.old result state.new }
        ensures falls { Falls (work phase state.old) result state.new }
    {
        match phase {
            Phase::Describe => self.describe(state),
            Phase::TimeFrame => self.read_table(state, FRAME_TABLE),
            Phase::Phrase => state.phrase(self.tables),
            Phase::Response => self.read_table(state, RESPONSE_TABLE),
        }
    }

    /// Plays on from a phase to the next prompt, or to the end.
    pub(crate) fn play(&self, state: &mut PlayState, first: Phase) -> TurnStop
        requires may { MayReadTables F.Fn self.now.routines.now (T.game self.now.tables.now) state.old }
        ensures meaning { InStories F.Fn self.now.routines.now (T.game self.now.tables.now) (λ g.
            Plays g first state.old (next.Stop result) state.new) }
        ensures stays { StaysInGame (T.game self.now.tables.now) state.old (next.Stop result) state.new }
    {
        let mut phase = first;
        loop {
            match self.phase(state, phase) {
                Next::Go(next) => phase = next,
                Next::Stop(stop) => return stop,
            }
        }
    }
}
