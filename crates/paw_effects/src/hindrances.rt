// What hinders an action on an object.

ghost use Rattle.std.specs.Prelude.{◌≡◌, ◌<◌, length};
ghost use Rattle.paw_effects.specs.ObjectActions.{is_worn, is_carried, can_be_worn, is_too_heavy, is_laden};
ghost use Rattle.paw_effects.specs.ObjectActions.{holds_place, first_that_holds, hindrances};
ghost use Rattle.paw_effects.specs.declared.object_actions.Action.TheVariants as action;

use crate::object_actions::Action;
use crate::object_words::ObjectReply;
use crate::presence::{is_held, is_here};
use paw_base::flags::{CARRIED_FLAG, MOST_CARRIED_FLAG, MOST_WEIGHT_FLAG};
use paw_base::places::{CARRIED_PLACE, WORN_PLACE};
use paw_world::world::World;

fn is_worn(world: &World, o: u8) -> bool
    requires known { o < length world.now.places }
    ensures value { result ≡ is_worn world.now o }
{
    world.place(o) == WORN_PLACE
}

fn is_carried(world: &World, o: u8) -> bool
    requires known { o < length world.now.places }
    ensures value { result ≡ is_carried world.now o }
{
    world.place(o) == CARRIED_PLACE
}

fn can_be_worn(world: &World, o: u8) -> bool
    requires known { o < length world.now.places }
    ensures value { result ≡ can_be_worn world.now o }
{
    world.facts(o).wearable
}

// Whether more weight would be carried with this object than is allowed.
fn is_too_heavy(world: &World, o: u8) -> bool
    requires known { o < length world.now.places }
    ensures value { result ≡ is_too_heavy world.now o }
{
    let total = u16::from(world.carried_weight()) + u16::from(world.weight(o));
    total > u16::from(world.flag(MOST_WEIGHT_FLAG))
}

// Whether as many objects are carried as are allowed.
fn is_laden(world: &World) -> bool
    ensures value { result ≡ is_laden world.now }
{
    world.flag(CARRIED_FLAG) >= world.flag(MOST_CARRIED_FLAG)
}

// Whether the object whose number is that of a place is worn or carried.
fn holds_place(world: &World, place: u8) -> bool
    ensures value { result ≡ holds_place world.now place }
{
    place < world.objects() && is_held(world, place)
}

// What hinders that an object is taken.
fn hindrance_to_get(world: &World, o: u8) -> Option<ObjectReply>
    requires known { o < length world.now.places }
    ensures value { result ≡ first_that_holds (hindrances world.now o action.Get) }
{
    if is_held(world, o) {
        Some(ObjectReply::HELD)
    } else if !is_here(world, o) {
        Some(ObjectReply::NOT_HERE)
    } else if is_too_heavy(world, o) {
        Some(ObjectReply::TOO_HEAVY)
    } else if is_laden(world) {
        Some(ObjectReply::TOO_MANY)
    } else {
        None
    }
}

// What hinders that an object is dropped, or put into another one.
fn hindrance_to_drop(world: &World, o: u8) -> Option<ObjectReply>
    requires known { o < length world.now.places }
    ensures value { result ≡ first_that_holds (hindrances world.now o action.Drop) }
{
    if is_worn(world, o) {
        Some(ObjectReply::WORN)
    } else if is_here(world, o) {
        Some(ObjectReply::NOT_HELD)
    } else if !is_carried(world, o) {
        Some(ObjectReply::NOT_CARRIED)
    } else {
        None
    }
}

// What hinders that an object is put on.
fn hindrance_to_wear(world: &World, o: u8) -> Option<ObjectReply>
    requires known { o < length world.now.places }
    ensures value { result ≡ first_that_holds (hindrances world.now o action.Wear) }
{
    if is_here(world, o) {
        Some(ObjectReply::NOT_HELD)
    } else if is_worn(world, o) {
        Some(ObjectReply::WORN_ALREADY)
    } else if !is_carried(world, o) {
        Some(ObjectReply::NOT_CARRIED)
    } else if !can_be_worn(world, o) {
        Some(ObjectReply::NOT_WEARABLE)
    } else {
        None
    }
}

// What hinders that an object is taken off.
fn hindrance_to_remove(world: &World, o: u8) -> Option<ObjectReply>
    requires known { o < length world.now.places }
    ensures value { result ≡ first_that_holds (hindrances world.now o action.Remove) }
{
    if is_carried(world, o) || is_here(world, o) {
        Some(ObjectReply::NOT_PUT_ON)
    } else if !is_worn(world, o) {
        Some(ObjectReply::NOT_WORN)
    } else if !can_be_worn(world, o) {
        Some(ObjectReply::NOT_REMOVABLE)
    } else if is_laden(world) {
        Some(ObjectReply::HANDS_FULL)
    } else {
        None
    }
}

// What hinders that an object is taken out of the container whose number is that of this place.
fn hindrance_to_take_out(world: &World, o: u8, place: u8) -> Option<ObjectReply>
    requires known { o < length world.now.places }
    ensures value { result ≡ first_that_holds (hindrances world.now o (action.TakeOut place)) }
{
    if is_held(world, o) {
        Some(ObjectReply::HELD)
    } else if is_here(world, o) {
        Some(ObjectReply::outside(place))
    } else if world.place(o) != place {
        Some(ObjectReply::not_in(place))
    } else if !holds_place(world, place) && is_too_heavy(world, o) {
        Some(ObjectReply::TOO_HEAVY)
    } else if is_laden(world) {
        Some(ObjectReply::TOO_MANY)
    } else {
        None
    }
}

/// What hinders an action on an object that was referred to: the message of the first test that holds.
#[inline(always)] // so that its answer needn't go through memory
pub(crate) fn hindrance(world: &World, o: u8, action: Action) -> Option<ObjectReply>
    requires known { o < length world.now.places }
    ensures value { result ≡ first_that_holds (hindrances world.now o action) }
{
    match action {
        Action::Get => hindrance_to_get(world, o),
        Action::Drop | Action::PutIn(_) => hindrance_to_drop(world, o),
        Action::Wear => hindrance_to_wear(world, o),
        Action::Remove => hindrance_to_remove(world, o),
        Action::TakeOut(place) => hindrance_to_take_out(world, o, place),
    }
}
