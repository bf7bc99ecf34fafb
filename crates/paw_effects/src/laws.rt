// What holds of all condacts.

ghost use Rattle.paw_effects.specs.inner.Meant.{EachActsAsItsRowSays, EachCodeHasAMeaning};

/// The table of condacts says of a code that it acts exactly where it means an action.
pub fn each_acts_as_its_row_says()
    ensures law { EachActsAsItsRowSays }
{}

/// Each code has a meaning of its own, and each meaning has a code.
pub fn each_code_has_a_meaning()
    ensures law { EachCodeHasAMeaning }
{}
