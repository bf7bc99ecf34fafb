// What holds of the game of every trial.

ghost use Rattle.std.specs.Prelude.{◌≤◌, ℕ, length};
ghost use Rattle.paw_base.specs.declared.limits.TheConstants.{IMAGE_LIMIT};
ghost use Rattle.paw_game.specs.Image.{image};
ghost use Rattle.paw_game.specs.Valid.{Valid};
ghost use Rattle.paw_gen.specs.Trial.{trial_game};

/// The game of every trial is valid.
pub fn trial_games_are_valid()
    ensures valid { (n : ℕ) → Valid (trial_game n) }
{}

/// The image of the game of a trial is within the limit of images.
pub fn trial_images_are_short()
    ensures short { (n : ℕ) → length (image (trial_game n)) ≤ IMAGE_LIMIT }
{}
