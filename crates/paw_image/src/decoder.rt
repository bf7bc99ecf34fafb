// From the bytes of an image to the game.

ghost use Rattle.std.specs.Prelude.{◌≡◌, ◌≤◌, Some, None, length, IfOk, IfErr, IfSome};
ghost use Rattle.paw_game.specs.Game.{GameLists};
ghost use Rattle.paw_image.specs.Damage.{bad};
ghost use Rattle.paw_image.specs.Images.{IsImage};
ghost use Rattle.paw_image.specs.inner.Images.{IfDamaged};
ghost use Rattle.paw_base.specs.declared.limits.TheConstants.{IMAGE_LIMIT};

use crate::damage::damage;
use crate::parts::read_parts;
use crate::refusal::ImageRefusal;
use paw_base::limits::IMAGE_LIMIT;
use paw_game::game::Game;
use paw_read_error::read_error::ReadError;
use std::alloc::Global;

// The game whose image the bytes are; None where they aren't an image.
fn read_game(alloc: Global, bytes: &[u8]) -> Result<Option<Game>, ImageRefusal>
    requires short { length bytes.now ≤ IMAGE_LIMIT }
    ensures found { IfOk result (λ o. IfSome o (IsImage bytes.now)) }
    ensures none { IfOk result (λ o. o ≡ None → (g : GameLists) → ¬ IsImage bytes.now g) }
    ensures memory { IfErr result (λ e. e ≡ ImageRefusal.Memory) }
{
    match read_parts(alloc, bytes) {
        Ok(parts) => match Game::new(parts) {
            Ok(game) => Ok(Some(game)),
            Err(_) => Ok(None),
        },
        Err(ReadError::Fault(_)) => Ok(None),
        Err(ReadError::Memory) => Err(ImageRefusal::Memory),
    }
}

/// The game whose image the bytes are.
///
/// # Errors
/// Damaged exactly where the bytes aren't the image of a valid game, or more than 4,194,304; the offset is that of the
/// first field, in order, that breaks its rule or isn't all there, and 4 where no field does, but the version is 2 and
/// no condact is indirect. Memory only where there is none.
pub fn decode(alloc: Global, bytes: &[u8]) -> Result<Game, ImageRefusal>
    ensures found { IfOk result (IsImage bytes.now) }
    ensures only { (g : GameLists) → IsImage bytes.now g → IfOk result (λ game. game ≡ g) }
    ensures damaged { IfDamaged result (λ _. (g : GameLists) → ¬ IsImage bytes.now g) }
    ensures at { IfDamaged result (λ at. bad bytes.now ≡ Some at) }
{
    if bytes.len() > IMAGE_LIMIT {
        let at = IMAGE_LIMIT as u64;
        return Err(ImageRefusal::Damaged { at });
    }
    match read_game(alloc, bytes)? {
        Some(game) => Ok(game),
        None => Err(damage(alloc, bytes)),
    }
}
