// The reading of one condact, and how reading goes on after it.

ghost use Rattle.std.specs.Prelude.{◌≡◌, ◌+◌, ◌-◌, ◌<◌, ◌≤◌, [], ◌∷◌, length};
ghost use Rattle.std.specs.Prelude.{Bool, true, false, Some, None, IfNone, IfSome, IsNone, if◌then◌else◌};
ghost use Rattle.paw_base.specs.Bytes.{RoutineAnswers};
ghost use Rattle.paw_base.specs.declared.fault.SpentKind.TheVariants as spent;
ghost use Rattle.paw_base.specs.declared.limits.TheConstants.{ENTRY_LIMIT};
ghost use Rattle.paw_base.specs.declared.messages.TheConstants.{QUIT_MESSAGE};
ghost use Rattle.paw_game.specs.Valid.{Valid};
ghost use Rattle.paw_game.specs.inner.Valid.{is_right};
ghost use Rattle.paw_game.specs.Tables.{condact_at};
ghost use Rattle.paw_routines.specs.Routines.{HaveAnswers};
ghost use Rattle.paw_effects.specs.Story.{Story, story_of};
ghost use Rattle.paw_effects.specs.Holds.{is_condition};
ghost use Rattle.paw_effects.specs.Texts.{put_text};
ghost use Rattle.paw_effects.specs.declared.act.Effect.TheVariants as effects;
ghost use Rattle.paw_effects.specs.declared.act.Prompt.TheVariants as prompt;
ghost use Rattle.paw_reading.specs.declared.frames.Frame.{Frame};
ghost use Rattle.paw_reading.specs.declared.halt.Halt.TheVariants as halt;
ghost use Rattle.paw_reading.specs.Run.{Run};
ghost use Rattle.paw_reading.specs.Reading.{Left, deeper, printing, waits, loop_of};
ghost use Rattle.paw_reading.specs.inner.Parts.{parses};
ghost use Rattle.paw_reading.specs.inner.GoingOn.{along};
ghost use Rattle.paw_process.specs.inner.OpenTables.{below, ReadsNone, IsAtCondact, AtCondacts};
ghost use Rattle.paw_process.specs.inner.OpenTables.{IsLoopWithin, LoopFits, IsReading};
ghost use Rattle.paw_process.specs.inner.Meaning.{InStories, having, going_in, run_held};
ghost use Rattle.paw_process.specs.inner.Moves.{Continues, StandsOrStopped, with_open_loop, looping, loop_resolved};
ghost use Rattle.paw_process.specs.inner.Moves.{acted_at};
ghost use Rattle.paw_process.specs.inner.Moves.{next_of, past_of, loop_at_frames, reading_at, Enters, EntersNone};
ghost use Rattle.paw_process.specs.inner.Moves.{ReadsTable, ReadsOne};
ghost use Rattle.paw_process.specs.inner.Steps.{IsReady, MayReadOne, MayReadNext, HasMoved, HasStepped};
ghost use Rattle.paw_process.specs.inner.AfterCondact.{with_frame, frame_of, moved_on, stop_after_condact, held_at};
ghost use Rattle.paw_process.specs.inner.AfterCondact.{ReachesTable};
ghost use Rattle.paw_process.specs.inner.Work.{machine_work, frames_work, loop_work, Progress};
ghost use Rattle.paw_process.specs.declared.Turned.TheVariants as turned;
ghost use Rattle.paw_process.specs.declared.after_condact.AfterCondact.TheVariants as after_condact;
ghost use Rattle.paw_world.specs.inner.Places.{left_above};

use crate::Turned;
use crate::after_condact::AfterCondact;
use crate::frame::{after_found, frame_at, next_entry, past, start_of};
use crate::machine::{MOST_FRAMES, Machine};
use crate::objects::{next_taken, take};
use crate::phrase::take_phrase;
use crate::surroundings::Surroundings;
use paw_base::fault::SpentKind;
use paw_base::flags::{NOUN_FLAG, VERB_FLAG};
use paw_base::messages::QUIT_MESSAGE;
use paw_base::parts::Condact;
use paw_effects::act::{Act, Effect, Prompt, Truth};
use paw_effects::condact::{act, is_condition, test};
use paw_effects::text::put;
use paw_game::cursor::CondactCursor;
use paw_game::tables::Tables;
use paw_phrase::Pending;
use paw_reading::frames::{Frame, OpenLoop};
use paw_reading::halt::Halt;
use paw_routines::routines::Routines;
use paw_world::world::World;

// Drops the rest of the line, if the action says so.
fn drop_line(pending: &mut Pending, done: Act)
    ensures value { pending.new ≡ record pending.old { bytes = if done.drop_line then [] else pending.old.bytes } }
{
    if done.drop_line {
        pending.drop_line();
    }
}

/// The game that is read, and the routines that it calls.
#[derive(Drop)]
pub(crate) struct StoryReader<'a, T: Tables, F: Fn(u8, u8) -> u8> {
    pub(crate) tables: &'a T,
    pub(crate) routines: &'a Routines<F>,
}

impl Machine {
    // Leaves the innermost table, which has no open loop of its own: its caller goes on after the call.
    fn leave(&mut self, acted: bool) -> Option<Turned>
        requires reading { IsReading self.old }
        requires no_loop { LoopFits (length (below self.old.frames)) self.old.turning }
        ensures meaning { (g : Story) (r : Run) →
            Continues g (along g (below self.old.frames) (Left acted r)) result self.new.frames r }
        ensures stands { StandsOrStopped result self.new }
        ensures same { self.new ≡ record self.old { frames = self.new.frames } }
        ensures falls { frames_work self.new.frames ≤ frames_work (below self.old.frames) }
    {
        self.pop();
        if self.depth() == 0 {
            return Some(Turned::Left(acted));
        }
        let f = self.top();
        self.set_top(past(f, f.acted || acted));
        None
    }

    // Stops where the location is described again or play has ended: nothing is open any more.
    fn stop(&mut self, turned: Turned) -> Option<Turned>
        ensures value { result ≡ Some turned }
        ensures closed { self.new ≡ record self.old { frames = []; turning = None; waiting = None } }
    {
        self.close();
        Some(turned)
    }

    // Makes this the innermost frame after a move of the machine, since reading goes on there, unless it has stopped.
    fn take_top(&self, turned: Option<Turned>, f: &mut Frame)
        requires stands { StandsOrStopped turned self.now }
        ensures held { held_at turned f.new self.now ≡ self.now }
        ensures in_table { ReachesTable turned f.new }
    {
        if turned.is_none() {
            *f = self.top();
        }
    }

    // Begins to read a table one level deeper, from its start.
    fn call(&mut self, table: u8) -> Option<Turned>
        requires reading { IsReading self.old }
        requires at { AtCondacts self.old.frames }
        ensures meaning { (g : Story) (r : Run) →
            Continues g
            (along g self.old.frames
            (deeper g (length (below self.old.frames)) table (with_open_loop self.old.turning r)))
            result self.new.frames (with_open_loop self.new.turning r) }
        ensures stands { StandsOrStopped result self.new }
        ensures left { ReadsNone self.old self.new }
    {
        if self.depth() == MOST_FRAMES {
            return self.stop(Turned::Halted(Halt::TooDeep { table }));
        }
        self.push(start_of(table));
        None
    }

    // The loop that the innermost frame's DOALL opens.
    fn loop_at(&self, f: Frame, place: u8) -> OpenLoop
        requires some { 0 < length self.now.frames }
        ensures value { result ≡ loop_of (length (below self.now.frames)) f place }
    {
        OpenLoop {
            level: (self.depth() - 1) as u8,
            table: f.table,
            entry: f.entry,
            at: f.at,
            place,
            last: 0,
        }
    }

    // Cancels the open loop, if the action says so.
    fn cancel_loop(&mut self, done: Act)
        ensures value { self.new ≡ record self.old { turning = if done.cancel_loop then None else self.old.turning } }
    {
        if done.cancel_loop {
            self.set_open_loop(None);
        }
    }
}

impl<T: Tables, F: Fn(u8, u8) -> u8> StoryReader<'_, T, F> {
    // Lets the innermost table's loop take its next object above this one, or its first one: reading goes on after the
    // loop's DOALL. False exactly where none is left, and then nothing changes.
    #[inline(never)] // Its answer comes in a register, and what is done where none is left stands where it is called.
    fn takes_object(
        &self,
        machine: &mut Machine,
        world: &mut World,
        l: OpenLoop,
        above: Option<u8>,
    ) -> bool
        requires ready { IsReady (T.game self.now.tables.now) machine.old world.old }
        requires own { IsLoopWithin (length machine.old.frames) l }
        requires level { l.level ≡ length (below machine.old.frames) }
        ensures meaning { (X : RoutineAnswers) (r : Run) → let g = story_of (T.game self.now.tables.now) X in
            loop_at_frames g (below machine.old.frames) l (left_above world.old.places above)
            (looping world.old machine.old.turning r)
            ≡ if result then going_in g machine.new.frames (looping world.new machine.new.turning r)
            else along g (below machine.old.frames) (Left true (looping world.old None r)) }
        ensures after { HasMoved (T.game self.now.tables.now) machine.old world.old None machine.new world.new }
        ensures same { result ≡ false → machine.new ≡ machine.old }
        ensures world { result ≡ false → world.new ≡ world.old }
        ensures falls { result ≡ true → machine.old.turning ≡ Some l → above ≡ Some l.last →
            machine_work machine.new ≤ frames_work (below machine.old.frames) + loop_work machine.old.turning }
    {
        match next_taken(self.tables, world, l.place, above) {
            Some(o) => {
                take(self.tables, world, o);
                machine.set_open_loop(Some(OpenLoop {
                    level: l.level,
                    table: l.table,
                    entry: l.entry,
                    at: l.at,
                    place: l.place,
                    last: o,
                }));
                machine.set_top(Frame {
                    table: l.table,
                    entry: l.entry,
                    at: l.at + 1,
                    acted: true,
                });
                true
            }
            None => false,
        }
    }

    // Lets the innermost table's loop take its next object above this one, or its first one. With none left the loop
    // is closed, and the table is left with an action carried out.
    fn next_object(
        &self,
        machine: &mut Machine,
        world: &mut World,
        l: OpenLoop,
        above: Option<u8>,
    ) -> Option<Turned>
        requires ready { IsReady (T.game self.now.tables.now) machine.old world.old }
        requires own { IsLoopWithin (length machine.old.frames) l }
        requires level { l.level ≡ length (below machine.old.frames) }
        ensures meaning { (X : RoutineAnswers) (r : Run) → let g = story_of (T.game self.now.tables.now) X in
            Continues g (loop_at_frames g (below machine.old.frames) l (left_above world.old.places above)
            (looping world.old machine.old.turning r))
            result machine.new.frames (looping world.new machine.new.turning r) }
        ensures after { HasMoved (T.game self.now.tables.now) machine.old world.old result machine.new world.new }
        ensures falls { machine.old.turning ≡ Some l → above ≡ Some l.last →
            machine_work machine.new ≤ frames_work (below machine.old.frames) + loop_work machine.old.turning }
    {
        if self.takes_object(machine, world, l, above) {
            return None;
        }
        machine.set_open_loop(None);
        machine.leave(true)
    }

    // Leaves the innermost table or, where its level's loop is open, takes the next object.
    fn leave_level(&self, machine: &mut Machine, world: &mut World, acted: bool) -> Option<Turned>
        requires ready { IsReady (T.game self.now.tables.now) machine.old world.old }
        ensures meaning { (X : RoutineAnswers) (r : Run) → let g = story_of (T.game self.now.tables.now) X in
            Continues g (loop_resolved g (below machine.old.frames)
            (Left acted (looping world.old machine.old.turning r)))
            result machine.new.frames (looping world.new machine.new.turning r) }
        ensures after { HasMoved (T.game self.now.tables.now) machine.old world.old result machine.new world.new }
        ensures falls { machine_work machine.new
            ≤ frames_work (below machine.old.frames) + loop_work machine.old.turning }
    {
        let level = machine.depth() - 1;
        match machine.turning() {
            Some(l) if l.level as usize == level => self.next_object(
                machine,
                world,
                l,
                Some(l.last),
            ),
            _ => machine.leave(acted),
        }
    }

    // Takes the next phrase: after a sentence reading goes on at the next entry, otherwise at the next condact.
    fn parse(&self, machine: &mut Machine, surroundings: &mut Surroundings, f: Frame)
        requires ready { IsReady (T.game self.now.tables.now) machine.old surroundings.old.world }
        requires at { IsAtCondact f }
        ensures meaning { (X : RoutineAnswers) (r : Run) → let g = story_of (T.game self.now.tables.now) X in
            loop_resolved g (below machine.old.frames)
            (parses g f (next_of g (below machine.old.frames) f) (past_of g (below machine.old.frames) f)
            (run_held (having surroundings.old machine.old) r))
            ≡ going_in g machine.new.frames (run_held (having surroundings.new machine.new) r) }
        ensures same { machine.new ≡ record machine.old { frames = machine.new.frames } }
        ensures after { HasMoved (T.game self.now.tables.now) machine.old surroundings.old.world None
            machine.new surroundings.new.world }
    {
        let found = take_phrase(
            self.tables,
            &mut surroundings.world,
            &mut surroundings.pending,
        );
        machine.set_top(after_found(found, f));
    }

    // Goes on after an action of a frame that is read in place of the innermost one, as an effect other than Go says.
    // The machine takes the frame back only where it is read again: after a call, and after an answer. So most condacts
    // write no frame.
    fn go_elsewhere(
        &self,
        machine: &mut Machine,
        surroundings: &mut Surroundings,
        f: Frame,
        effect: Effect,
    ) -> Option<Turned>
        requires ready { IsReady (T.game self.now.tables.now) machine.old surroundings.old.world }
        requires at { IsAtCondact f }
        requires elsewhere { effect ≡ effects.Go → ⊥ }
        ensures meaning { (X : RoutineAnswers) (r : Run) → let g = story_of (T.game self.now.tables.now) X in
            Continues g
            (acted_at g (below machine.old.frames) f effect (run_held (having surroundings.old machine.old) r))
            result machine.new.frames (run_held (having surroundings.new machine.new) r) }
        ensures after { HasMoved (T.game self.now.tables.now) machine.old surroundings.old.world result
            machine.new surroundings.new.world }
        ensures spent { effect ≡ effects.Spent → result ≡ Some (turned.Halted (halt.Spent spent.Text)) }
    {
        match effect {
            Effect::Go => unreachable!(), // The caller itself goes on after Go.
            Effect::Exit(acted) => self.leave_level(machine, &mut surroundings.world, acted),
            Effect::Redescribe => machine.stop(Turned::Redescribe),
            Effect::Call(table) => {
                machine.set_top(f);
                machine.call(table)
            }
            Effect::Loop(place) => {
                let l = machine.loop_at(f, place);
                self.next_object(machine, &mut surroundings.world, l, None)
            }
            Effect::Ask(prompt) => {
                machine.set_top(f);
                machine.set_waiting(Some(prompt));
                Some(Turned::Waits(prompt))
            }
            Effect::Parse => {
                self.parse(machine, surroundings, f);
                None
            }
            Effect::Spent => machine.stop(Turned::Halted(Halt::Spent(SpentKind::Text))),
        }
    }

    // Goes on after an action of a frame.
    fn follow(
        &self,
        machine: &mut Machine,
        surroundings: &mut Surroundings,
        f: Frame,
        effect: Effect,
    ) -> AfterCondact
        requires ready { IsReady (T.game self.now.tables.now) machine.old surroundings.old.world }
        requires at { IsAtCondact f }
        ensures meaning { (X : RoutineAnswers) (r : Run) → let g = story_of (T.game self.now.tables.now) X in
            Continues g
            (acted_at g (below machine.old.frames) f effect (run_held (having surroundings.old machine.old) r))
            (stop_after_condact result) (moved_on f result machine.new).frames
            (run_held (having surroundings.new (moved_on f result machine.new)) r) }
        ensures after { HasMoved (T.game self.now.tables.now) machine.old surroundings.old.world
            (stop_after_condact result) machine.new surroundings.new.world }
        ensures spent { effect ≡ effects.Spent →
            stop_after_condact result ≡ Some (turned.Halted (halt.Spent spent.Text)) }
    {
        match effect {
            Effect::Go => AfterCondact::Next(true),
            effect => AfterCondact::Moved(self.go_elsewhere(machine, surroundings, f, effect)),
        }
    }

    // Tests a condition of a frame.
    fn test(
        &self,
        machine: &mut Machine,
        surroundings: &mut Surroundings,
        f: Frame,
        c: Condact,
    ) -> AfterCondact
        requires may { MayReadOne (T.game self.now.tables.now) f c machine.old surroundings.old.world }
        requires kind { is_condition c ≡ true }
        ensures meaning { (X : RoutineAnswers) → let g = story_of (T.game self.now.tables.now) X in
            ReadsOne g (below machine.old.frames) f c (having surroundings.old machine.old)
            (stop_after_condact result) (having surroundings.new (moved_on f result machine.new)) }
        ensures after { HasStepped (T.game self.now.tables.now) (having surroundings.old machine.old)
            (stop_after_condact result) (having surroundings.new machine.new) }
    {
        match test(self.tables, &mut surroundings.world, c) {
            Truth::Yes => {
                machine.note(f, c, true);
                AfterCondact::Next(f.acted)
            }
            Truth::No => {
                machine.note(f, c, false);
                AfterCondact::NextEntry
            }
            Truth::Ask => {
                machine.note(f, c, true);
                machine.set_top(f);
                AfterCondact::Moved(self.ask(machine, surroundings))
            }
        }
    }

    // Asks QUIT's question, and waits for the answer.
    fn ask(&self, machine: &mut Machine, surroundings: &mut Surroundings) -> Option<Turned>
        requires ready { IsReady (T.game self.now.tables.now) machine.old surroundings.old.world }
        requires at { AtCondacts machine.old.frames }
        ensures meaning { (X : RoutineAnswers) (f : Frame) (r : Run) →
            machine.old.frames ≡ f ∷ below machine.old.frames →
            let g = story_of (T.game self.now.tables.now) X in
            Continues g (loop_resolved g (below machine.old.frames)
            (printing (put_text g.game surroundings.old.world QUIT_MESSAGE)
            (waits g prompt.Quit f (past_of g (below machine.old.frames) f))
            (run_held (having surroundings.old machine.old) r)))
            result machine.new.frames (run_held (having surroundings.new machine.new) r) }
        ensures after { HasMoved (T.game self.now.tables.now) machine.old surroundings.old.world result
            machine.new surroundings.new.world }
        ensures world { surroundings.new.world ≡ surroundings.old.world }
    {
        if !put(
            self.tables,
            &surroundings.world,
            &mut surroundings.piece,
            QUIT_MESSAGE,
        ) {
            return machine.stop(Turned::Halted(Halt::Spent(SpentKind::Text)));
        }
        machine.set_waiting(Some(Prompt::Quit));
        Some(Turned::Waits(Prompt::Quit))
    }

    // Carries out an action of a frame.
    fn act(
        &self,
        machine: &mut Machine,
        surroundings: &mut Surroundings,
        f: Frame,
        c: Condact,
    ) -> AfterCondact
        requires answers { HaveAnswers F.Fn self.now.routines.now }
        requires may { MayReadOne (T.game self.now.tables.now) f c machine.old surroundings.old.world }
        requires kind { is_condition c ≡ false }
        ensures meaning { InStories F.Fn self.now.routines.now (T.game self.now.tables.now) (λ g.
            ReadsOne g (below machine.old.frames) f c (having surroundings.old machine.old)
            (stop_after_condact result) (having surroundings.new (moved_on f result machine.new))) }
        ensures after { HasStepped (T.game self.now.tables.now) (having surroundings.old machine.old)
            (stop_after_condact result) (having surroundings.new machine.new) }
    {
        machine.note(f, c, true);
        let done = act(
            self.tables,
            &mut surroundings.world,
            self.routines,
            &mut surroundings.piece,
            c,
        );
        // A piece that is spent is never shown, so what becomes of its line and its loop doesn't matter.
        drop_line(&mut surroundings.pending, done);
        machine.cancel_loop(done);
        self.follow(machine, surroundings, f, done.effect)
    }

    // Reads the condact of a frame, where the piece may read one more.
    fn read(
        &self,
        machine: &mut Machine,
        surroundings: &mut Surroundings,
        f: Frame,
        c: Condact,
    ) -> AfterCondact
        requires may { MayReadNext F.Fn self.now.routines.now
            (T.game self.now.tables.now) machine.old surroundings.old.world }
        requires at { IsAtCondact f }
        requires found { condact_at (T.game self.now.tables.now) f.table f.entry f.at ≡ Some c }
        requires condact { is_right (T.game self.now.tables.now) c ≡ true }
        ensures meaning { InStories F.Fn self.now.routines.now (T.game self.now.tables.now) (λ g.
            ReadsTable g (reading_at g (below machine.old.frames) f) (having surroundings.old machine.old)
            (stop_after_condact result) (having surroundings.new (moved_on f result machine.new))) }
        ensures counts { IsNone (stop_after_condact result) →
            machine.old.left ≡ (moved_on f result machine.new).left + 1 }
        ensures after { HasStepped (T.game self.now.tables.now) (having surroundings.old machine.old)
            (stop_after_condact result) (having surroundings.new machine.new) }
    {
        if !machine.may_read() {
            return AfterCondact::Moved(machine.stop(Turned::Halted(Halt::Spent(
                SpentKind::Condacts,
            ))));
        }
        if is_condition(c) {
            self.test(machine, surroundings, f, c)
        } else {
            self.act(machine, surroundings, f, c)
        }
    }

    // Reads the condact at a cursor, which moves on to the next one. Where there is none, reading goes on at the next
    // entry.
    fn read_at_cursor(
        &self,
        machine: &mut Machine,
        surroundings: &mut Surroundings,
        cursor: &mut CondactCursor,
        acted: bool,
    ) -> AfterCondact
        requires stands { T.stands self.now.tables.now cursor.old }
        requires may { MayReadNext F.Fn self.now.routines.now
            (T.game self.now.tables.now) machine.old surroundings.old.world }
        requires entry { cursor.old.entry < ENTRY_LIMIT }
        requires valid { Valid (T.game self.now.tables.now) }
        ensures meaning { InStories F.Fn self.now.routines.now (T.game self.now.tables.now) (λ g.
            let f = frame_of cursor.old acted in
            ReadsTable g (reading_at g (below machine.old.frames) f) (having surroundings.old machine.old)
            (stop_after_condact result) (having surroundings.new (moved_on f result machine.new))) }
        ensures progress { let f = frame_of cursor.old acted in IsNone (stop_after_condact result) →
            Progress (with_frame f machine.old) (moved_on f result machine.new) }
        ensures after { HasStepped (T.game self.now.tables.now) (having surroundings.old machine.old)
            (stop_after_condact result) (having surroundings.new machine.new) }
        ensures stands { T.stands self.now.tables.now cursor.new }
        ensures moves { (yes : Bool) → result ≡ after_condact.Next yes →
            frame_of cursor.new yes ≡ record (frame_of cursor.old yes) { at = cursor.old.at + 1 } }
    {
        let f = frame_at(*cursor, acted);
        match self.tables.next_condact(cursor) {
            None => AfterCondact::NextEntry,
            Some(c) => self.read(machine, surroundings, f, c),
        }
    }

    // The cursor at the condact of a frame.
    fn cursor_of(&self, f: Frame) -> CondactCursor
        ensures stands { T.stands self.now.tables.now result }
        ensures at { frame_of result f.acted ≡ f }
    {
        self.tables.cursor(f.table, f.entry, f.at)
    }

    // The cursor at which reading goes on from a frame: inside an entry that of its condact, and at the start of an
    // entry that of the first condact of the next entry that matches. None exactly where none matches.
    fn enter(&self, world: &World, f: Frame) -> Option<CondactCursor>
        requires entry { 0 < f.at → f.entry < ENTRY_LIMIT }
        ensures stands { IfSome result (λ c. T.stands self.now.tables.now c) }
        ensures some { IfSome result (λ c. Enters (T.game self.now.tables.now) world.now f (frame_of c f.acted)) }
        ensures none { IfNone result (EntersNone (T.game self.now.tables.now) world.now f) }
    {
        if f.at > 0 {
            return Some(self.cursor_of(f));
        }
        let verb = world.flag(VERB_FLAG);
        let noun = world.flag(NOUN_FLAG);
        self.tables.match_cursor(f.table, f.entry, verb, noun)
    }

    /// Reads on at a frame in the place of the innermost one: in its entry, or in the next one that matches, and so on
    /// from entry to entry, as long as reading goes on in the table. It leaves the frame where reading goes on then,
    /// which the machine needn't hold yet, unless the machine has stopped.
    pub(crate) fn read_on(
        &self,
        machine: &mut Machine,
        surroundings: &mut Surroundings,
        f: &mut Frame,
    ) -> Option<Turned>
        requires may { MayReadNext F.Fn self.now.routines.now
            (T.game self.now.tables.now) machine.old surroundings.old.world }
        requires entry { 0 < f.old.at → f.old.entry < ENTRY_LIMIT }
        ensures meaning { InStories F.Fn self.now.routines.now (T.game self.now.tables.now) (λ g.
            ReadsTable g (going_in g (f.old ∷ below machine.old.frames)) (having surroundings.old machine.old)
            result (having surroundings.new (held_at result f.new machine.new))) }
        ensures progress { IsNone result →
            Progress (with_frame f.old machine.old) (held_at result f.new machine.new) }
        ensures after { HasStepped (T.game self.now.tables.now) (having surroundings.old machine.old)
            result (having surroundings.new machine.new) }
        ensures in_table { ReachesTable result f.new }
    {
        // The clause of this call says that the game is valid, which the proof needs. The compiler leaves the call out.
        let _counts = self.tables.counts();
        // Both loops stand in one function, so that no answer is made and tested after each entry. The cursor and
        // `acted` are all that changes from condact to condact.
        'entries: loop {
            let Some(start) = self.enter(&surroundings.world, *f) else {
                let turned = self.leave_level(machine, &mut surroundings.world, f.acted);
                machine.take_top(turned, f);
                return turned;
            };
            let mut cursor = start;
            let mut acted = f.acted;
            'condacts: loop {
                let here = frame_at(cursor, acted);
                match self.read_at_cursor(machine, surroundings, &mut cursor, acted) {
                    AfterCondact::Next(by_now) => acted = by_now,
                    AfterCondact::NextEntry => {
                        *f = next_entry(here);
                        continue 'entries;
                    }
                    AfterCondact::Moved(turned) => {
                        machine.take_top(turned, f);
                        return turned;
                    }
                }
            }
        }
    }
}
