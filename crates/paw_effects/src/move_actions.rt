// The actions that move objects.

ghost use Rattle.std.specs.Prelude.{◌≡◌, ◌<◌, length};
ghost use Rattle.paw_game.specs.Game.{GameLists};
ghost use Rattle.paw_effects.specs.Worlds.{IsOf};
ghost use Rattle.paw_effects.specs.MoveActions.{all_dropped, referred_moved, moved_if_place, names_place};
ghost use Rattle.paw_effects.specs.MoveActions.{reset, objects_swapped};

use crate::presence::{here, is_held, named_place};
use paw_base::flags::{LOCATION_FLAG, REFERRED_FLAG};
use paw_base::places::NOT_CREATED_PLACE;
use paw_world::world::World;

/// Moves all that is worn or carried to the current location.
pub(crate) fn drop_all(world: &mut World)
    ensures value { world.new ≡ all_dropped world.old }
{
    let to = here(world);
    for o in 0..world.objects() {
        if is_held(world, o) {
            world.move_to(o, to);
        }
    }
}

/// Moves each of two objects to where the other stands.
pub(crate) fn swap(world: &mut World, o: u8, k: u8)
    requires first { o < length world.old.places }
    requires second { k < length world.old.places }
    ensures value { world.new ≡ objects_swapped world.old o k }
{
    let first = world.place(o);
    let second = world.place(k);
    world.move_to(o, second);
    world.move_to(k, first);
}

/// Moves the object last referred to, where there is such an object.
pub(crate) fn move_referred(world: &mut World, p: u8)
    ensures value { world.new ≡ referred_moved world.old p }
{
    let o = world.flag(REFERRED_FLAG);
    if o < world.objects() {
        world.move_to(o, p);
    }
}

// Whether a number names a place.
fn names_place(world: &World, p: u8) -> bool
    ensures value { result ≡ names_place world.now p }
{
    p < world.locations() || p >= NOT_CREATED_PLACE
}

/// Moves an object to the place that a number names, where it names one.
pub(crate) fn move_if_place(world: &mut World, o: u8, p: u8)
    requires object { o < length world.old.places }
    ensures value { world.new ≡ moved_if_place world.old o p }
{
    if names_place(world, p) {
        world.move_to(o, named_place(world, p));
    }
}

/// Puts all objects back where they begin, sets flag 1 to the number of those that begin carried, and makes a location
/// the current one.
pub(crate) fn reset(world: &mut World, location: u8)
    ensures value { world.new ≡ reset world.old location }
    ensures game { (g : GameLists) → IsOf g world.old → IsOf g world.new }
    ensures draws { world.new.draws ≡ world.old.draws }
{
    world.return_objects();
    world.set_flag(LOCATION_FLAG, location);
}
