// SAVE and LOAD: positions that are kept, and taken back.

ghost use Rattle.std.specs.Prelude.{◌≡◌, ◌<◌};
ghost use Rattle.paw_base.specs.declared.limits.TheConstants.{POSITION_COUNT};
ghost use Rattle.paw_game.specs.Game.{GameLists};
ghost use Rattle.paw_effects.specs.Worlds.{IsOf};
ghost use Rattle.paw_effects.specs.inner.Done.{Does};
ghost use Rattle.paw_effects.specs.Positions.{position_loaded, position_number};
ghost use Rattle.paw_world.specs.World.{position_kept, kept_position};

use crate::act::{Act, Effect, after, plain_act};
use crate::text::{print_nothing, say};
use paw_base::flags::POSITION_FLAG;
use paw_base::limits::POSITION_COUNT;
use paw_base::messages::IMPOSSIBLE_MESSAGE;
use paw_base::piece::Piece;
use paw_game::tables::Tables;
use paw_world::world::World;

/// How many positions there are.
const POSITIONS: u8 = POSITION_COUNT as u8;

// The number of the position that is meant, of four.
fn position_number(world: &World) -> u8
    ensures value { result ≡ position_number world.now }
    ensures bound { result < POSITION_COUNT }
{
    world.flag(POSITION_FLAG) % POSITIONS
}

// Takes a position back, or prints that this can't be done where it wasn't kept.
fn load_position<T: Tables>(tables: &T, world: &mut World, piece: &mut Piece, n: u8) -> Act
    requires known { n < POSITION_COUNT }
    ensures does { Does (position_loaded (T.game tables.now) world.old (kept_position world.old n))
        piece.old piece.new world.new result }
    ensures game { (g : GameLists) → IsOf g world.old → IsOf g world.new }
    ensures draws { world.new.draws ≡ world.old.draws }
{
    print_nothing(piece);
    // Its clause says that the world is sound, which the proof needs. No call of it is left in the program.
    let _objects = world.objects();
    if world.recall(n) {
        plain_act(Effect::Redescribe)
    } else {
        after(
            say(tables, world, piece, IMPOSSIBLE_MESSAGE),
            Effect::Redescribe,
        )
    }
}

/// Keeps flags and places as the position that is meant.
pub(crate) fn save(world: &mut World)
    ensures value { world.new ≡ position_kept world.old (position_number world.old) }
    ensures game { (g : GameLists) → IsOf g world.old → IsOf g world.new }
    ensures draws { world.new.draws ≡ world.old.draws }
{
    let n = position_number(world);
    world.keep(n);
}

/// Takes back the position that is meant, or prints that this can't be done where it wasn't kept.
pub(crate) fn load<T: Tables>(tables: &T, world: &mut World, piece: &mut Piece) -> Act
    ensures does { Does (position_loaded (T.game tables.now) world.old
        (kept_position world.old (position_number world.old)))
        piece.old piece.new world.new result }
    ensures game { (g : GameLists) → IsOf g world.old → IsOf g world.new }
    ensures draws { world.new.draws ≡ world.old.draws }
{
    let n = position_number(world);
    load_position(tables, world, piece, n)
}
