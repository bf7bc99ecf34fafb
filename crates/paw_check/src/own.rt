// What each condact takes by itself: one condact that is read, or bytes that are printed.

ghost use Rattle.std.specs.Prelude.{◌≡◌};
ghost use Rattle.paw_check.specs.inner.Own.{own_in};

use crate::prints::Prints;
use paw_base::parts::Condact;

/// What is counted for a condact: that it is read, or the most bytes that it prints.
#[derive(Drop)]
pub(crate) enum Own {
    Condacts,
    Text(Prints),
}

impl Own {
    /// What a condact takes by itself.
    pub(crate) fn of(&self, condact: &Condact) -> u32
        ensures value { result ≡ own_in self.now condact.now }
    {
        match self {
            Own::Condacts => 1,
            Own::Text(prints) => prints.of(condact),
        }
    }
}
