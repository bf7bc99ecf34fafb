// From a game to the bytes of its image.

ghost use Rattle.std.specs.Prelude.{◌≡◌, ◌<◌, length, IfOk};
ghost use Rattle.paw_game.specs.Image.{image};
ghost use Rattle.paw_image.specs.Images.{IsImage};
ghost use Rattle.paw_image.specs.inner.Images.{IfDamaged};

use crate::parts::{length_of_parts, write_parts};
use crate::refusal::ImageRefusal;
use paw_base::limits::IMAGE_LIMIT;
use paw_game::game::Game;
use std::alloc::Global;

/// How many bytes the image of a game has. They are counted and not written, so this needs no memory.
pub fn image_length(game: &Game) -> u64
    ensures value { result ≡ length (image game.now) }
{
    length_of_parts(game.parts()) as u64
}

/// The image of a game.
///
/// # Errors
/// Damaged exactly where the image would be longer than 4,194,304 bytes; the offset is that limit. Memory only where
/// there is none.
pub fn encode(alloc: Global, game: &Game) -> Result<Vec<u8>, ImageRefusal>
    ensures found { IfOk result (λ v. IsImage v.items game.now) }
    ensures damaged { IfDamaged result (λ _. IMAGE_LIMIT < length (image game.now)) }
    ensures at { IfDamaged result (λ at. at ≡ IMAGE_LIMIT) }
{
    let length = image_length(game) as usize;
    if length > IMAGE_LIMIT {
        let at = IMAGE_LIMIT as u64;
        return Err(ImageRefusal::Damaged { at });
    }
    let mut out = Vec::with_capacity(alloc, length)?;
    write_parts(game.parts(), &mut out)?;
    Ok(out)
}
