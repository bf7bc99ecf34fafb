// The first rule that a game's lists break.

ghost use Rattle.std.specs.Prelude.{◌≡◌};
ghost use Rattle.std.specs.Result.{result_err};
ghost use Rattle.paw_game.specs.inner.Fault.{fault_in, game_fault};

use crate::inspector::Inspector;
use crate::parts::{GameFault, GamePart, GameParts};
use crate::texts::texts_fault;
use crate::words::words_fault;
use paw_base::limits::{LOCATION_LEAST, LOCATION_LIMIT, MESSAGE_LIMIT, SYSTEM_LIMIT};

/// An error exactly where the lists break a rule: the first part that does, and its row.
#[tactic(auto, unfolding(crate::specs::inner::Fault::game_fault))]
pub(crate) fn check(parts: &GameParts) -> Result<(), GameFault>
    ensures value { result_err result ≡ game_fault parts.now }
{
    let inspector = Inspector::new(parts);
    let system = texts_fault(0, SYSTEM_LIMIT, parts.system.as_slice());
    let messages = texts_fault(0, MESSAGE_LIMIT, parts.messages.as_slice());
    let locations = texts_fault(LOCATION_LEAST, LOCATION_LIMIT, parts.locations.as_slice());
    within(GamePart::Words, words_fault(parts.words.as_slice()))?;
    within(GamePart::System, system)?;
    within(GamePart::Messages, messages)?;
    within(GamePart::Objects, inspector.objects_fault())?;
    within(GamePart::Locations, locations)?;
    within(GamePart::Exits, inspector.exits_fault())?;
    within(GamePart::Tables, inspector.tables_fault())
}

// No error where no row of the part is at fault.
fn within(part: GamePart, row: Option<u32>) -> Result<(), GameFault>
    ensures value { result_err result ≡ fault_in part row }
{
    match row {
        Some(row) => Err(GameFault { part, row }),
        None => Ok(()),
    }
}
