// What a walk shows before each piece.

use paw_base::fault::NoRoom;
use paw_base::steps::Steps;
use paw_game::tables::Tables;
use paw_routines::routines::Routines;
use paw_turn::Player;
use std::alloc::Global;

/// What a walk shows before each piece, and the player whose steps that needs.
pub trait Preface: Drop {
    ghost use Rattle.std.specs.Prelude.{◌≡◌, IfOk};
    ghost use Rattle.paw_effects.specs.declared.act.Prompt.TheVariants as prompt;
    ghost use Rattle.paw_turn.specs.declared.Step.TheVariants as step;
    ghost use Rattle.paw_turn.specs.inner.Player.{IsNew, IsSeated};
    ghost use Rattle.paw_play.specs.inner.ShowSteps.{ShowSteps, NotesShown, preface};

    /// Whether the pieces are shown as they are or traced.
    ghost showing: { ShowSteps };

    /// Takes the memory that it needs.
    ///
    /// # Errors
    /// NoRoom where there is none.
    fn new(alloc: Global) -> Result<Self, NoRoom>;

    /// A player at the start of a game, which keeps its steps where they are shown; elsewhere it need not keep any,
    /// because keeping them takes time.
    ///
    /// # Errors
    /// NoRoom where there is no memory for a piece.
    fn player<'a, T: Tables, F: Fn(u8, u8) -> u8>(
        alloc: Global,
        tables: &'a T,
        routines: &'a Routines<F>,
        seed: u64,
    ) -> Result<Player<'a, T, F>, NoRoom>
        ensures game { IfOk result (λ p. p.game ≡ T.game tables.now) }
        ensures routines { IfOk result (λ p. p.routines ≡ routines.now) }
        ensures new { IfOk result (λ p. IsNew p seed) }
        ensures keeps { IfOk result (λ p. NotesShown showing p.machine.steps.most) }
        ensures last { IfOk result (λ p. p.last ≡ step.Waits prompt.Main) }
        ensures seated { IfOk result IsSeated };

    /// The text before a piece for which these steps were read.
    fn text(&mut self, steps: &Steps) -> &[u8]
        ensures text { result.now ≡ preface showing steps.now };
}

/// The preface of a plain walk: nothing is shown before a piece.
#[derive(Drop)]
pub struct Nothing;

impl Preface for Nothing {
    ghost use Rattle.paw_play.specs.inner.ShowSteps.{Plain};

    ghost showing = { Plain };

    fn new(_alloc: Global) -> Result<Nothing, NoRoom> {
        Ok(Nothing)
    }

    fn player<'a, T: Tables, F: Fn(u8, u8) -> u8>(
        alloc: Global,
        tables: &'a T,
        routines: &'a Routines<F>,
        seed: u64,
    ) -> Result<Player<'a, T, F>, NoRoom> {
        Player::new_only_counting(alloc, tables, routines, seed)
    }

    fn text(&mut self, _steps: &Steps) -> &[u8] {
        &[]
    }
}
