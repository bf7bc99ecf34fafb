// Where objects are, as seen from the current location.

ghost use Rattle.std.specs.Prelude.{◌≡◌, ◌<◌, length};
ghost use Rattle.paw_world.specs.World.{here, is_somewhere, is_here, is_present, is_lit};
ghost use Rattle.paw_effects.specs.Presence.{named_place, is_held};

use paw_base::flags::LOCATION_FLAG;
use paw_base::places::{CARRIED_PLACE, HERE_PLACE, NOT_CREATED_PLACE, WORN_PLACE};
use paw_world::world::World;

/// Whether the current location is one of the game's.
pub fn is_somewhere(world: &World) -> bool
    ensures value { result ≡ is_somewhere world.now }
{
    world.flag(LOCATION_FLAG) < world.locations()
}

/// The current location, or not created (252) where it isn't one of the game's.
pub fn here(world: &World) -> u8
    ensures value { result ≡ here world.now }
{
    if is_somewhere(world) {
        world.flag(LOCATION_FLAG)
    } else {
        NOT_CREATED_PLACE
    }
}

/// The place that a parameter names: 255 stands for the current location.
pub fn named_place(world: &World, p: u8) -> u8
    ensures value { result ≡ named_place world.now p }
{
    if p == HERE_PLACE { here(world) } else { p }
}

/// Whether an object is worn or carried.
pub(crate) fn is_held(world: &World, o: u8) -> bool
    requires object { o < length world.now.places }
    ensures value { result ≡ is_held world.now o }
{
    matches!(world.place(o), WORN_PLACE | CARRIED_PLACE)
}

/// Whether an object stands at the current location.
pub fn is_here(world: &World, o: u8) -> bool
    requires object { o < length world.now.places }
    ensures value { result ≡ is_here world.now o }
{
    is_somewhere(world) && world.place(o) == world.flag(LOCATION_FLAG)
}

/// Whether an object is worn, carried or here.
pub fn is_present(world: &World, o: u8) -> bool
    requires object { o < length world.now.places }
    ensures value { result ≡ is_present world.now o }
{
    let place = world.place(o);
    place == WORN_PLACE || (place == CARRIED_PLACE || is_here(world, o))
}

/// Whether the light source, object 0, is present.
pub fn is_lit(world: &World) -> bool
    ensures value { result ≡ is_lit world.now }
{
    0 < world.objects() && is_present(world, 0)
}
