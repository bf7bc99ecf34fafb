// Chance.

ghost use Rattle.std.specs.Prelude.{◌≡◌, ◌-◌, ◌<◌, ◌^◌};
ghost use Rattle.paw_world.specs.World.{drawn_on};
ghost use Rattle.paw_effects.specs.Chance.{percent_drawn};

use paw_world::world::World;

/// A number from 1 to 100, by the next random word.
pub(crate) fn roll(world: &mut World) -> u8
    requires room { world.old.draws < 2 ^ 64 - 1 }
    ensures value { result ≡ percent_drawn world.old }
    ensures change { world.new ≡ drawn_on world.old 1 }
{
    (1 + world.draw() % 100) as u8
}
