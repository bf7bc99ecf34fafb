// The verdict on a game.

ghost use Rattle.std.specs.Prelude.{◌≡◌, IfOk, string_bytes};
ghost use Rattle.paw_check.specs.Shown.{cause_name, verdict_text};

use paw_base::fault::NoRoom;
use std::alloc::Global;

/// Why a game has no bound: its calls go too deep, or in a circle; a table that is read after a description describes
/// again; a piece might read more condacts, or hold more text, than it may.
#[derive(Clone, Copy, Drop, PartialEq, Eq, Debug)]
pub enum Cause {
    Calls,
    Redescribe,
    Condacts,
    Text,
}

impl Cause {
    // The name of the cause.
    fn name(self) -> &'static str
        ensures value { result.now ≡ cause_name self }
    {
        match self {
            Cause::Calls => "Calls",
            Cause::Redescribe => "Redescribe",
            Cause::Condacts => "Condacts",
            Cause::Text => "Text",
        }
    }
}

/// What any play of a game takes at most: levels of calls, and condacts and bytes of each piece. Or the first cause why
/// that isn't known, with the table and the entry where it was found; 0 and 0 where it lies in no single one.
#[derive(Clone, Copy, Drop, PartialEq, Eq, Debug)]
pub enum Verdict {
    Bound {
        levels: u8,
        condacts: u32,
        text: u32,
    },
    Unknown {
        cause: Cause,
        table: u8,
        entry: u16,
    },
}

impl Verdict {
    /// The line that is shown for a verdict.
    ///
    /// # Errors
    /// NoRoom only for lack of memory.
    pub fn text(&self, alloc: Global) -> Result<String, NoRoom>
        ensures value { IfOk result (λ text. string_bytes text ≡ verdict_text self.now) }
    {
        match *self {
            Verdict::Bound {
                levels,
                condacts,
                text,
            } => Ok(format!(in alloc; "BOUND levels {levels} condacts {condacts} text {text}\n")?),
            Verdict::Unknown {
                cause,
                table,
                entry,
            } => {
                let name = cause.name();
                Ok(format!(in alloc; "UNKNOWN {name} at {table}.{entry}\n")?)
            }
        }
    }
}
