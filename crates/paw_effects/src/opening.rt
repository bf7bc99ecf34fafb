// The start of a game.

ghost use Rattle.std.specs.Prelude.{◌≡◌, ◌≤◌, length, map};
ghost use Rattle.paw_base.specs.declared.limits.TheConstants.{OBJECT_LIMIT};
ghost use Rattle.paw_game.specs.Valid.{Valid};
ghost use Rattle.paw_effects.specs.inner.Opening.{opening_world};

use paw_base::limits::OBJECT_LIMIT;
use paw_base::parts::ObjectFacts;
use paw_game::tables::Tables;
use paw_world::world::{NO_OBJECT, World};

// Copies the facts of a game's objects.
fn take_facts<T: Tables>(tables: &T, facts: &mut [ObjectFacts])
    requires few { length facts.old ≤ OBJECT_LIMIT }
    requires all { length facts.old ≡ length (T.game tables.now).objects }
    ensures value { facts.new ≡ map (λ o. o.facts) (T.game tables.now).objects }
{
    for o in 0..facts.len() {
        match tables.facts(o as u8) {
            Some(found) => facts[o] = found,
            None => unreachable!(), // each of these numbers is an object's
        }
    }
}

/// The world at the start of a game, with the seed of its random draws.
pub fn opening_world<T: Tables>(tables: &T, seed: u64) -> World
    ensures valid { Valid (T.game tables.now) }
    ensures value { result ≡ opening_world (T.game tables.now) seed }
{
    let counts = tables.counts();
    let mut facts = [NO_OBJECT; OBJECT_LIMIT];
    let all = &mut facts[..counts.objects as usize];
    take_facts(tables, all);
    World::new(all, counts.locations as u8, seed)
}
