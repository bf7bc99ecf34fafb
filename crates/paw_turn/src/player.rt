// A player of a game.

ghost use Rattle.std.specs.Prelude.{◌≡◌, ◌+◌, ◌<◌, ◌≤◌, ◌^◌, List, [], ◌∷◌, None, length, reverse, IfOk};
ghost use Rattle.paw_base.specs.Bytes.{RoutineAnswers, Seed, Texts};
ghost use Rattle.paw_base.specs.declared.limits.TheConstants.{LINE_LIMIT, PIECE_LIMIT, READ_LIMIT, STEP_LIMIT};
ghost use Rattle.paw_routines.specs.Routines.{AreAnswersOf, HaveAnswers};
ghost use Rattle.paw_effects.specs.Story.{story_of};
ghost use Rattle.paw_effects.specs.declared.act.Prompt.{Prompt as AtPrompt};
ghost use Rattle.paw_effects.specs.declared.act.Prompt.TheVariants as prompt;
ghost use Rattle.paw_reading.specs.Run.{StepRow};
ghost use Rattle.paw_reading.specs.Turn.{reading, going_on_from};
ghost use Rattle.paw_process.specs.inner.Kept.{machine_kept};
ghost use Rattle.paw_process.specs.inner.Kept.{frames_fault};
ghost use Rattle.paw_turn.specs.declared.Step.TheVariants as step;
ghost use Rattle.paw_turn.specs.inner.Parts.{Fits, IsStanding, seat_at, prompt_at};
ghost use Rattle.paw_turn.specs.inner.Player.{IsNew, IsSeated, IsFinished, PlaysTo, run_at, only_counting_player};

use crate::parts::{Parts, prompt_at, stop_at};
use crate::phase::{Phase, TurnStop};
use crate::turn::{PlayState, TurnRules};
use crate::{Step, step_of};
use paw_base::fault::NoRoom;
use paw_base::piece::Piece;
use paw_base::steps::Steps;
use paw_effects::act::Prompt;
use paw_game::tables::Tables;
use paw_phrase::Pending;
use paw_process::{Machine, Surroundings};
use paw_routines::routines::Routines;
use paw_world::world::World;
use std::alloc::Global;
use std::marker::Model;

#[cfg(test)]
mod tests;

/// A player of one game, which it borrows with the routines that the game calls: it takes lines, and after each lends
/// the piece of text that the line brought. It takes all its memory when it is made.
#[derive(Drop)]
pub struct Player<'a, T: Tables, F: Fn(u8, u8) -> u8> {
    rules: TurnRules<'a, T, F>,
    state: PlayState,
    last: TurnStop,
}

impl<'a, T: Tables, F: Fn(u8, u8) -> u8> Model for Player<'a, T, F> {
    ghost use Rattle.paw_turn.specs.inner.Player.{PlayerView, step_of};

    ghost Value = { PlayerView F };

    ghost view = { λ p. record {
      game = T.game p.rules.tables.now;
      routines = p.rules.routines.now;
      world = p.state.surroundings.world;
      pending = p.state.surroundings.pending;
      machine = p.state.machine;
      piece = p.state.surroundings.piece;
      last = step_of p.last;
    } };
}

impl<'a, T: Tables, F: Fn(u8, u8) -> u8> Player<'a, T, F> {
    /// A player at the start of a game that calls these routines, with the seed of its random draws. Of the steps of a
    /// piece it keeps the first 1,000; all are counted.
    ///
    /// # Errors
    /// NoRoom where there is no memory for a piece.
    pub fn new(
        alloc: Global,
        tables: &'a T,
        routines: &'a Routines<F>,
        seed: u64,
    ) -> Result<Player<'a, T, F>, NoRoom>
        ensures game { IfOk result (λ p. p.game ≡ T.game tables.now) }
        ensures routines { IfOk result (λ p. p.routines ≡ routines.now) }
        ensures new { IfOk result (λ p. IsNew p seed) }
        ensures most { IfOk result (λ p. p.machine.steps.most ≡ STEP_LIMIT) }
        ensures last { IfOk result (λ p. p.last ≡ step.Waits prompt.Main) }
        ensures seated { IfOk result IsSeated }
    {
        let piece = Piece::new(alloc)?;
        Ok(Player {
            rules: TurnRules { tables, routines },
            state: PlayState::new(tables, seed, piece),
            last: TurnStop::Waits(Prompt::Main),
        })
    }

    /// As `new`, but the player only counts its steps, as after `count_steps_only`.
    ///
    /// # Errors
    /// NoRoom where there is no memory for a piece.
    pub fn new_only_counting(
        alloc: Global,
        tables: &'a T,
        routines: &'a Routines<F>,
        seed: u64,
    ) -> Result<Player<'a, T, F>, NoRoom>
        ensures game { IfOk result (λ p. p.game ≡ T.game tables.now) }
        ensures routines { IfOk result (λ p. p.routines ≡ routines.now) }
        ensures new { IfOk result (λ p. IsNew p seed) }
        ensures most { IfOk result (λ p. p.machine.steps.most ≡ 0) }
        ensures last { IfOk result (λ p. p.last ≡ step.Waits prompt.Main) }
        ensures seated { IfOk result IsSeated }
    {
        let mut player = Player::new(alloc, tables, routines, seed)?;
        player.count_steps_only();
        Ok(player)
    }

    /// Forgets the steps that are kept, and from here on only counts them: for a player whose steps are shown nowhere,
    /// because keeping them takes time. All else stays as it is.
    pub fn count_steps_only(&mut self)
        ensures value { self.new ≡ only_counting_player self.old }
        ensures seated { IsSeated self.old → IsSeated self.new }
        ensures new { (seed : Seed) → IsNew self.old seed → IsNew self.new seed }
    {
        self.state.machine.count_steps_only();
    }

    /// A player of a game that calls these routines, which stands at a prompt with these parts, lent or restored
    /// earlier: they stand there as a run of the game may. The next line goes on from there; where the game is over the
    /// player is finished. It keeps its steps, or only counts them, as the machine does.
    ///
    /// # Errors
    /// NoRoom where there is no memory for a piece. The parts are gone then.
    pub fn adopt(
        alloc: Global,
        tables: &'a T,
        routines: &'a Routines<F>,
        world: World,
        machine: Machine,
        pending: Pending,
        prompt: Prompt,
    ) -> Result<Player<'a, T, F>, NoRoom>
        requires fits { Fits (T.game tables.now) world machine pending prompt }
        ensures value { IfOk result (λ p. p ≡ seat_at (T.game tables.now) routines.now world machine pending prompt) }
        ensures seated { IfOk result IsSeated }
    {
        // The clause of this call says that the game is valid, which the proof needs. The compiler leaves the call out.
        let _counts = tables.counts();
        let piece = Piece::new(alloc)?;
        Ok(Player {
            rules: TurnRules { tables, routines },
            state: PlayState {
                surroundings: Surroundings {
                    world,
                    pending,
                    piece,
                },
                machine,
            },
            last: stop_at(prompt),
        })
    }

    /// Goes back to the start of the game, with another seed: the player is as `new` gives it, but where it only counts
    /// its steps it still does. Takes no memory.
    pub fn renew(&mut self, seed: u64)
        requires seated { IsSeated self.old }
        ensures game { self.new.game ≡ self.old.game }
        ensures routines { self.new.routines ≡ self.old.routines }
        ensures new { IsNew self.new seed }
        ensures most { self.new.machine.steps.most ≡ self.old.machine.steps.most }
        ensures last { self.new.last ≡ step.Waits prompt.Main }
        ensures seated { IsSeated self.new }
    {
        self.state.renew(self.rules.tables, seed);
        self.last = TurnStop::Waits(Prompt::Main);
    }

    /// Goes on with these parts at a prompt: the player is as `adopt` gives it. Takes no memory.
    pub fn seat(&mut self, world: World, machine: Machine, pending: Pending, prompt: Prompt)
        requires seated { IsSeated self.old }
        requires fits { Fits self.old.game world machine pending prompt }
        ensures value { self.new ≡ seat_at self.old.game self.old.routines world machine pending prompt }
        ensures seated { IsSeated self.new }
    {
        self.state.seat(world, machine, pending);
        self.last = stop_at(prompt);
    }

    /// Plays the piece before the first line. It is asked for once, right after `new` or `renew`.
    pub fn start(&mut self) -> Step
        requires seated { IsSeated self.old }
        requires answers { HaveAnswers F.Fn self.old.routines }
        requires new { IsNew self.old self.old.world.seed }
        ensures last { self.new.last ≡ result }
        ensures game { self.new.game ≡ self.old.game }
        ensures routines { self.new.routines ≡ self.old.routines }
        ensures meaning { (X : RoutineAnswers) → AreAnswersOf F.Fn self.old.routines X →
            let g = story_of self.old.game X in
            PlaysTo g (reading g self.old.world.seed) result self.new [] [] }
        ensures seated { IsSeated self.new }
        ensures draws { self.new.world.draws ≤ self.old.world.draws + READ_LIMIT }
        ensures most { self.new.machine.steps.most ≡ self.old.machine.steps.most }
    {
        let stop = self.rules.play(&mut self.state, Phase::Describe);
        self.state.settle(stop);
        self.last = stop;
        step_of(stop)
    }

    /// Takes a line of at most 255 bytes, and plays on to the next prompt or to the end. A finished player answers the
    /// same again, with an empty piece; its other parts stay as they are.
    pub fn take(&mut self, line: &[u8]) -> Step
        requires seated { IsSeated self.old }
        requires answers { HaveAnswers F.Fn self.old.routines }
        requires line { length line.now ≤ LINE_LIMIT }
        requires draws { self.old.world.draws + READ_LIMIT < 2 ^ 64 }
        ensures last { self.new.last ≡ result }
        ensures game { self.new.game ≡ self.old.game }
        ensures routines { self.new.routines ≡ self.old.routines }
        ensures meaning { (X : RoutineAnswers) → AreAnswersOf F.Fn self.old.routines X →
            (p : AtPrompt) → self.old.last ≡ step.Waits p → (pieces : Texts) (traces : List (List StepRow)) →
            let g = story_of self.old.game X in
            let frames = self.old.machine.frames in
            PlaysTo g (λ lines. going_on_from g p (reverse frames) (run_at self.old pieces traces (line.now ∷ lines)))
            result self.new pieces traces }
        ensures finished { IsFinished self.old.last →
            (result ≡ self.old.last) × (self.new ≡ record self.old { piece = [] }) }
        ensures seated { IsSeated self.new }
        ensures draws { self.new.world.draws ≤ self.old.world.draws + READ_LIMIT }
        ensures most { self.new.machine.steps.most ≡ self.old.machine.steps.most }
    {
        let TurnStop::Waits(prompt) = self.last else {
            self.state.clear_piece();
            return step_of(self.last);
        };
        self.state.open_piece();
        let stop = self.rules.take(&mut self.state, prompt, line);
        self.state.settle(stop);
        self.last = stop;
        step_of(stop)
    }

    /// The last piece: what is to be shown before the next line is asked for. It is empty after Spent and TooDeep, and
    /// has at most 65,535 bytes.
    pub fn piece(&self) -> &[u8]
        ensures value { result.now ≡ self.now.piece }
        ensures short { length result.now ≤ PIECE_LIMIT }
    {
        self.state.piece()
    }

    /// The steps of the last piece: how many condacts were read for it, and the first 1,000, or none where the player
    /// only counts them. After Spent and TooDeep they are those of the piece that wasn't closed.
    pub fn steps(&self) -> &Steps
        ensures value { result.now ≡ self.now.machine.steps }
    {
        self.state.machine.steps()
    }

    /// Lends the world, the machine, what is pending, and the prompt at which the player stands: Over once the game is
    /// over, or the player is spent or too deep. Where it waits or the game is over, a player seated with them is this
    /// one with an empty piece, and the machine's frames are always accepted when they are restored.
    pub fn parts(&self) -> Parts<'_>
        ensures world { result.world.now ≡ self.now.world }
        ensures machine { result.machine.now ≡ self.now.machine }
        ensures pending { result.pending.now ≡ self.now.pending }
        ensures prompt { result.prompt ≡ prompt_at self.now.last }
        ensures fits { IsSeated self.now → IsStanding self.now.last →
            Fits self.now.game self.now.world self.now.machine self.now.pending (prompt_at self.now.last) }
        ensures same { IsSeated self.now → IsStanding self.now.last →
            seat_at self.now.game self.now.routines self.now.world self.now.machine self.now.pending
            (prompt_at self.now.last) ≡ record self.now { piece = [] } }
        ensures accepted { IsSeated self.now → IsStanding self.now.last →
            frames_fault self.now.game (prompt_at self.now.last) (machine_kept self.now.machine) ≡ None }
    {
        Parts {
            world: &self.state.surroundings.world,
            machine: &self.state.machine,
            pending: &self.state.surroundings.pending,
            prompt: prompt_at(self.last),
        }
    }
}
