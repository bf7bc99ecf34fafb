// What ends play for good.

use paw_base::fault::SpentKind;

/// What ends play for good: the game is over; a piece would read or hold too much; or a table was called at the deepest
/// level.
#[derive(Clone, Copy, Drop, PartialEq, Eq, Debug)]
pub enum Halt {
    Over,
    Spent(SpentKind),
    TooDeep { table: u8 },
}
