// The objects that a loop takes.

ghost use Rattle.std.specs.Prelude.{◌≡◌, ◌<◌, ◌-◌, length, IfSome, Some, None};
ghost use Rattle.paw_effects.specs.Worlds.{IsOf};
ghost use Rattle.paw_game.specs.Tables.{facts_at};
ghost use Rattle.paw_reading.specs.Reading.{may_be_taken, is_excepted, object_named};
ghost use Rattle.paw_process.specs.inner.Objects.{least_taken, with_taken};
ghost use Rattle.paw_world.specs.inner.Places.{left_above};

use paw_base::flags::{
    ADJECTIVE_FLAG, LOOP_FLAG, NOUN_FLAG, SECOND_ADJECTIVE_FLAG, SECOND_NOUN_FLAG,
};
use paw_base::parts::ObjectFacts;
use paw_base::words::NO_WORD;
use paw_effects::condact::refer;
use paw_game::tables::Tables;
use paw_world::world::World;

// Whether the sentence excepts an object: by its second noun, and by its second adjective, if any.
fn is_excepted(world: &World, facts: ObjectFacts) -> bool
    ensures value { result ≡ is_excepted world.now facts }
{
    let noun = world.flag(SECOND_NOUN_FLAG);
    let adjective = world.flag(SECOND_ADJECTIVE_FLAG);
    noun != NO_WORD && facts.noun == noun && (adjective == NO_WORD || facts.adjective == adjective)
}

// Whether a loop may take an object: it has a noun and isn't excepted.
fn may_be_taken<T: Tables>(tables: &T, world: &World, o: u8) -> bool
    ensures value { result ≡ may_be_taken world.now (facts_at (T.game tables.now) o) }
{
    match tables.facts(o) {
        Some(facts) => facts.noun != NO_WORD && !is_excepted(world, facts),
        None => false,
    }
}

/// The next object that a loop over a place takes: of those that are there and may be taken, the one with the least
/// number, or with the least above this one.
pub fn next_taken<T: Tables>(tables: &T, world: &World, place: u8, above: Option<u8>) -> Option<u8>
    requires game { IsOf (T.game tables.now) world.now }
    ensures value { result ≡ least_taken (T.game tables.now) world.now place (left_above world.now.places above) }
    ensures bound { IfSome result (λ o. o < length (T.game tables.now).objects) }
{
    let mut last = above;
    while let Some(o) = world.first_at(place, last) {
        if may_be_taken(tables, world, o) {
            return Some(o);
        }
        last = Some(o);
    }
    None
}

// Puts an object's noun and adjective into the sentence.
fn name<T: Tables>(tables: &T, world: &mut World, o: u8)
    ensures value { world.new ≡ object_named world.old (facts_at (T.game tables.now) o) }
{
    match tables.facts(o) {
        Some(facts) => {
            world.set_flag(NOUN_FLAG, facts.noun);
            world.set_flag(ADJECTIVE_FLAG, facts.adjective);
        }
        None => {}
    }
}

/// Takes an object for a loop: puts it into the sentence and into flag 50, and refers to it.
pub fn take<T: Tables>(tables: &T, world: &mut World, o: u8)
    requires game { IsOf (T.game tables.now) world.old }
    requires object { o < length (T.game tables.now).objects }
    ensures value { world.new ≡ with_taken (T.game tables.now) world.old o }
    ensures game { IsOf (T.game tables.now) world.new }
    ensures draws { world.new.draws ≡ world.old.draws }
{
    name(tables, world, o);
    world.set_flag(LOOP_FLAG, o);
    refer(tables, world, o);
}
