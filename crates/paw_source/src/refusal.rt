// Why a source gives no game.

use paw_base::fault::{NoRoom, SourceFault};
use thiserror::Error;

/// Why a source gives no game.
#[derive(Clone, Copy, Drop, PartialEq, Eq, Debug, Error)]
pub enum SourceRefusal {
    /// The source has a fault; this is the first one.
    #[error("source fault in line {}", .0.line)]
    Fault(SourceFault),
    /// There is no memory.
    #[error("no memory for a source")]
    Memory,
}

impl From<NoRoom> for SourceRefusal {
    ghost use Rattle.std.specs.Prelude.{◌≡◌};
    ghost use Rattle.paw_source.specs.declared.refusal.SourceRefusal.TheVariants.{Memory};

    ghost from_gives = { λ _ refusal. refusal ≡ Memory };

    fn from(_: NoRoom) -> SourceRefusal {
        SourceRefusal::Memory
    }
}
