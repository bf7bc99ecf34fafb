// The game in the bytes of an image file.

ghost use Rattle.std.specs.Prelude.{◌≡◌, ◌≢◌, Some, None, IfOk, IfErr};
ghost use Rattle.paw_base.specs.Bytes.{Bytes};
ghost use Rattle.paw_game.specs.Game.{GameLists};
ghost use Rattle.paw_stage.specs.AcrossCalls.{IsOneOf};
ghost use Rattle.paw_image.specs.Damage.{bad};
ghost use Rattle.paw_image.specs.Images.{IsImage};
ghost use Rattle.paw_image.specs.inner.Images.{AtDamage};
ghost use Rattle.paw_image.specs.inner.Views.{game_read};
ghost use Rattle.paw_top.specs.Answers.{IfMemory, load_memory, failed_call};
ghost use Rattle.paw_top.specs.inner.Answers.{failed_or};
ghost use Rattle.paw_top.specs.inner.Loads.{GivesNone};
ghost use Rattle.paw_top.specs.declared.outcome.Outcome.TheVariants as outcome;

use crate::outcome::{MemoryAt, Outcome};
use paw_game::game::Game;
use paw_image::decoder::decode;
use paw_image::refusal::ImageRefusal;
use paw_image::view::View;
use std::alloc::Global;

// The answer for bytes that give no game.
fn refused_as(refusal: ImageRefusal) -> Outcome
    ensures none { (bytes : Bytes) → AtDamage refusal (λ _. (g : GameLists) → ¬ IsImage bytes g) →
        AtDamage refusal (λ at. bad bytes ≡ Some at) → GivesNone bytes result }
    ensures form { result ≢ outcome.Usage }
    ensures memory { IfMemory result (IsOneOf load_memory) }
    ensures fine { failed_call result ≡ None }
{
    match refusal {
        ImageRefusal::Damaged { at } => Outcome::ImageDamaged { at },
        ImageRefusal::Memory => Outcome::Memory(MemoryAt::Image),
    }
}

/// The game whose image the bytes are, read in place, or why there is none.
pub(crate) fn view_in<'a>(alloc: Global, bytes: &'a [u8]) -> Result<View<'a>, Outcome>
    ensures found { IfOk result (λ view. IsImage bytes.now (game_read view)) }
    ensures none { IfErr result (GivesNone bytes.now) }
    ensures form { IfErr result (λ o. o ≢ outcome.Usage) }
    ensures memory { IfErr result (λ o. IfMemory o (IsOneOf load_memory)) }
    ensures fine { failed_or result ≡ None }
{
    match View::new(alloc, bytes) {
        Ok(view) => Ok(view),
        Err(refusal) => Err(refused_as(refusal)),
    }
}

/// The game whose image the bytes are, or why there is none.
pub(crate) fn game_in(alloc: Global, bytes: &[u8]) -> Result<Game, Outcome>
    ensures found { IfOk result (IsImage bytes.now) }
    ensures none { IfErr result (GivesNone bytes.now) }
    ensures form { IfErr result (λ o. o ≢ outcome.Usage) }
    ensures memory { IfErr result (λ o. IfMemory o (IsOneOf load_memory)) }
    ensures fine { failed_or result ≡ None }
{
    match decode(alloc, bytes) {
        Ok(game) => Ok(game),
        Err(refusal) => Err(refused_as(refusal)),
    }
}
