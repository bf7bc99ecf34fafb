// The actions on an object.

ghost use Rattle.std.specs.Prelude.{◌≡◌, ◌<◌, length};
ghost use Rattle.paw_effects.specs.Worlds.{IsOf};
ghost use Rattle.paw_effects.specs.inner.Done.{Does};
ghost use Rattle.paw_effects.specs.ObjectActions.{destination, outcome, refuses, acted_on};

use crate::act::{Act, Effect, after, plain_act};
use crate::hindrances::hindrance;
use crate::object_words::{ObjectReply, speak};
use crate::presence::here;
use crate::referring::refer;
use paw_base::piece::Piece;
use paw_base::places::{CARRIED_PLACE, WORN_PLACE};
use paw_game::tables::Tables;
use paw_world::world::World;

/// An action on an object. Two of them have a container, by the number of its place.
#[derive(Clone, Copy, Drop, PartialEq, Eq, Debug)]
pub(crate) enum Action {
    Get,
    Drop,
    Wear,
    Remove,
    PutIn(u8),
    TakeOut(u8),
}

impl Action {
    // Where the object moves.
    fn destination(self, world: &World) -> u8
        ensures value { result ≡ destination world.now self }
    {
        match self {
            Action::Get | Action::Remove | Action::TakeOut(_) => CARRIED_PLACE,
            Action::Drop => here(world),
            Action::Wear => WORN_PLACE,
            Action::PutIn(place) => place,
        }
    }

    // The message once it is done.
    fn outcome(self) -> ObjectReply
        ensures value { result ≡ outcome self }
    {
        match self {
            Action::Get | Action::TakeOut(_) => ObjectReply::TAKEN,
            Action::Drop => ObjectReply::DROPPED,
            Action::Wear => ObjectReply::PUT_ON,
            Action::Remove => ObjectReply::TAKEN_OFF,
            Action::PutIn(place) => ObjectReply::now_in(place),
        }
    }
}

/// Refuses an action: prints why, drops the rest of the line, and leaves the table as one in which an action was
/// carried out.
pub(crate) fn refuse<T: Tables>(
    tables: &T,
    world: &World,
    piece: &mut Piece,
    words: ObjectReply,
) -> Act
    ensures does { Does (refuses (T.game tables.now) world.now words) piece.old piece.new world.now result }
{
    if !speak(tables, world, piece, words) {
        return plain_act(Effect::Spent);
    }
    Act {
        effect: Effect::Exit(true),
        drop_line: true,
        cancel_loop: words.ends_loop(),
    }
}

/// Does an action on an object, which is referred to first.
pub(crate) fn act_on<T: Tables>(
    tables: &T,
    world: &mut World,
    piece: &mut Piece,
    o: u8,
    action: Action,
) -> Act
    requires game { IsOf (T.game tables.now) world.old }
    requires object { o < length (T.game tables.now).objects }
    ensures does { Does (acted_on (T.game tables.now) world.old o action) piece.old piece.new world.new result }
    ensures game { IsOf (T.game tables.now) world.new }
    ensures draws { world.new.draws ≡ world.old.draws }
{
    refer(tables, world, o);
    if let Some(words) = hindrance(world, o, action) {
        return refuse(tables, world, piece, words);
    }
    let place = action.destination(world);
    world.move_to(o, place);
    after(speak(tables, world, piece, action.outcome()), Effect::Go)
}
