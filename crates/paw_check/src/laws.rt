// The law of the check.

ghost use Rattle.paw_check.specs.Promise.{BoundsHold};

/// The bound that is found for a game holds for every play of it: with any routines, any seed and any lines.
pub fn bounds_hold()
    ensures hold { BoundsHold }
{}
