// Why bytes aren't the image of a game, or a game has no image.

use std::alloc::AllocError;
use thiserror::Error;

/// Why bytes aren't the image of a game, or a game has no image.
#[derive(Clone, Copy, Drop, PartialEq, Eq, Debug, Error)]
pub enum ImageRefusal {
    /// The bytes aren't the image of a game, or the image would have too many.
    #[error("image damaged at {at}")]
    Damaged {
        /// The offset, counted in bytes from 0.
        at: u64,
    },
    /// There is no memory.
    #[error("no memory for an image")]
    Memory,
}

impl From<AllocError> for ImageRefusal {
    ghost use Rattle.std.specs.Prelude.{◌≡◌};
    ghost use Rattle.paw_image.specs.declared.refusal.ImageRefusal.TheVariants.{Memory};

    ghost from_gives = { λ _ refusal. refusal ≡ Memory };

    fn from(_: AllocError) -> ImageRefusal {
        ImageRefusal::Memory
    }
}
