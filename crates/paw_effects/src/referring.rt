// Referring to an object.

ghost use Rattle.std.specs.Prelude.{◌≡◌, ◌<◌, length};
ghost use Rattle.paw_effects.specs.Worlds.{IsOf};
ghost use Rattle.paw_effects.specs.Referring.{flag_of_fact, object_referred, referred_to_none};

use paw_base::flags::{
    FACT_HOLDS, REFERRED_CONTAINER_FLAG, REFERRED_FLAG, REFERRED_PLACE_FLAG,
    REFERRED_WEARABLE_FLAG, REFERRED_WEIGHT_FLAG,
};
use paw_base::places::NOT_CREATED_PLACE;
use paw_base::words::NO_WORD;
use paw_game::tables::Tables;
use paw_world::world::World;

/// Refers to an object: flag 51 becomes its number, 54 its place, and 55 its weight; 56 becomes 128 where it is a
/// container, 57 where it may be worn, and otherwise 0.
pub fn refer<T: Tables>(tables: &T, world: &mut World, o: u8)
    requires game { IsOf (T.game tables.now) world.old }
    requires object { o < length (T.game tables.now).objects }
    ensures value { world.new ≡ object_referred world.old o }
    ensures game { IsOf (T.game tables.now) world.new }
    ensures draws { world.new.draws ≡ world.old.draws }
{
    // The tables are here only for the clauses, which name their game: the world has what the code asks for.
    let _ = tables;
    let place = world.place(o);
    world.set_flag(REFERRED_FLAG, o);
    world.set_flag(REFERRED_PLACE_FLAG, place);
    let facts = world.facts(o);
    let weight = world.weight(o);
    world.set_flag(REFERRED_WEIGHT_FLAG, weight);
    world.set_flag(REFERRED_CONTAINER_FLAG, class(facts.container));
    world.set_flag(REFERRED_WEARABLE_FLAG, class(facts.wearable));
}

// The flag for whether an object is of a class.
fn class(member: bool) -> u8
    ensures value { result ≡ flag_of_fact member }
{
    if member { FACT_HOLDS } else { 0 }
}

/// Refers to no object: flag 51 becomes none (255), flag 54 not created (252), and the flags 55 to 57 become 0.
pub(crate) fn refer_to_none(world: &mut World)
    ensures value { world.new ≡ referred_to_none world.old }
{
    world.set_flag(REFERRED_FLAG, NO_WORD);
    world.set_flag(REFERRED_PLACE_FLAG, NOT_CREATED_PLACE);
    world.set_flag(REFERRED_WEIGHT_FLAG, 0);
    world.set_flag(REFERRED_CONTAINER_FLAG, 0);
    world.set_flag(REFERRED_WEARABLE_FLAG, 0);
}
