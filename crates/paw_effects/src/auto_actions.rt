// The actions that find their object by the sentence.

ghost use Rattle.std.specs.Prelude.{◌≡◌, ◌<◌, length, IfSome};
ghost use Rattle.paw_effects.specs.Worlds.{IsOf};
ghost use Rattle.paw_effects.specs.inner.Done.{Does};
ghost use Rattle.paw_effects.specs.declared.object_actions.Action.TheVariants as action;
ghost use Rattle.paw_effects.specs.ObjectSearch.{first_fitting};
ghost use Rattle.paw_effects.specs.AutoActions.{looks_at, missing_reply, acted_by_name, referred_by_name};

use crate::act::Act;
use crate::object_actions::{Action, act_on, refuse};
use crate::object_search::{Spot, first_fitting, some_fits};
use crate::object_words::ObjectReply;
use crate::referring::{refer, refer_to_none};
use paw_base::piece::Piece;
use paw_game::tables::Tables;
use paw_world::world::World;

// The object that an action looks for.
fn object_looked_for(world: &World, action: Action) -> Option<u8>
    ensures value { result ≡ first_fitting world.now (looks_at action) }
    ensures known { IfSome result (λ o. o < length world.now.places) }
{
    match action {
        Action::Get => first_fitting(world, &[Spot::Here, Spot::CARRIED, Spot::WORN]),
        Action::Drop | Action::Wear | Action::PutIn(_) => found_carried_first(world),
        Action::Remove => first_fitting(world, &[Spot::WORN, Spot::CARRIED, Spot::Here]),
        Action::TakeOut(place) => first_fitting(
            world,
            &[Spot::At(place), Spot::CARRIED, Spot::WORN, Spot::Here],
        ),
    }
}

// The object that fits among those carried, then those worn, then those here.
fn found_carried_first(world: &World) -> Option<u8>
    ensures value { result ≡ first_fitting world.now (looks_at action.Drop) }
    ensures known { IfSome result (λ o. o < length world.now.places) }
{
    first_fitting(world, &[Spot::CARRIED, Spot::WORN, Spot::Here])
}

// The message where the object of an action isn't found.
fn missing_reply(action: Action) -> ObjectReply
    ensures value { result ≡ missing_reply action }
{
    match action {
        Action::Get => ObjectReply::NOT_HERE,
        Action::Drop | Action::Wear | Action::PutIn(_) => ObjectReply::NOT_CARRIED,
        Action::Remove => ObjectReply::NOT_WORN,
        Action::TakeOut(place) => ObjectReply::not_in(place),
    }
}

/// Does an action on the object that the sentence means.
pub(crate) fn act_by_name<T: Tables>(
    tables: &T,
    world: &mut World,
    piece: &mut Piece,
    action: Action,
) -> Act
    requires game { IsOf (T.game tables.now) world.old }
    ensures does { Does (acted_by_name (T.game tables.now) world.old action) piece.old piece.new world.new result }
    ensures game { IsOf (T.game tables.now) world.new }
    ensures draws { world.new.draws ≡ world.old.draws }
{
    match object_looked_for(world, action) {
        Some(o) => act_on(tables, world, piece, o, action),
        None if some_fits(world) => refuse(tables, world, piece, missing_reply(action)),
        None => refuse(tables, world, piece, ObjectReply::NO_SUCH_OBJECT),
    }
}

/// Refers to the object that the sentence means.
pub(crate) fn refer_by_name<T: Tables>(tables: &T, world: &mut World)
    requires game { IsOf (T.game tables.now) world.old }
    ensures value { world.new ≡ referred_by_name world.old }
    ensures game { IsOf (T.game tables.now) world.new }
    ensures draws { world.new.draws ≡ world.old.draws }
{
    match found_carried_first(world) {
        Some(o) => refer(tables, world, o),
        None => refer_to_none(world),
    }
}
