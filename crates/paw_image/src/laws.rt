// Laws of images.

ghost use Rattle.std.specs.Prelude.{◌≡◌, None};
ghost use Rattle.paw_base.specs.Bytes.{Bytes};
ghost use Rattle.paw_game.specs.Game.{GameLists};
ghost use Rattle.paw_game.specs.Valid.{Valid};
ghost use Rattle.paw_game.specs.Image.{image};
ghost use Rattle.paw_image.specs.Damage.{bad};
ghost use Rattle.paw_image.specs.Images.{IsImage};
ghost use Rattle.paw_image.specs.inner.Images.{EachIsByte};

/// Two valid games with the same image are the same.
pub fn image_gives_the_game()
    ensures one { (g h : GameLists) → Valid g → Valid h → image g ≡ image h → g ≡ h }
{}

/// Bytes break no rule exactly where they are the image of a valid game, and no more than an image may have.
pub fn bad_decides_images()
    ensures whole { (bytes : Bytes) → EachIsByte bytes → bad bytes ≡ None → (g : GameLists) × IsImage bytes g }
    ensures image { (bytes : Bytes) (g : GameLists) → IsImage bytes g → bad bytes ≡ None }
{}
