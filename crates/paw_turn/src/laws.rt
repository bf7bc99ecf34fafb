// The laws of a player's parts.

ghost use Rattle.paw_turn.specs.inner.Parts.{RestoredFits, SeatedAgain, GoesOnAlike};

/// A player may be seated with a world of the game, a machine that was restored for it, and what may be pending there.
pub fn restored_fits()
    ensures fits { RestoredFits }
{}

/// A player seated with what is kept of another is the same, except for the piece, its steps and the budget.
pub fn seated_again<F>()
    ensures same { SeatedAgain F }
{}

/// What follows from lines depends on neither the last piece, nor its steps, nor the budget that it left.
pub fn goes_on_alike<F>()
    ensures same { GoesOnAlike F }
{}
