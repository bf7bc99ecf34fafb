// The object that a sentence means.

ghost use Rattle.std.specs.Prelude.{◌≡◌, ◌<◌, length, IfSome};
ghost use Rattle.paw_effects.specs.ObjectSearch.{fits_sentence, some_fits, least_fitting, fitting_at, first_fitting};

use crate::presence::is_somewhere;
use paw_base::flags::{ADJECTIVE_FLAG, LOCATION_FLAG, NOUN_FLAG};
use paw_base::places::{CARRIED_PLACE, WORN_PLACE};
use paw_base::words::NO_WORD;
use paw_world::world::World;

/// A place to look at: the current location, where it is one of the game's, or a place by its number.
#[derive(Clone, Copy, Drop, PartialEq, Eq, Debug)]
pub(crate) enum Spot {
    Here,
    At(u8),
}

impl Spot {
    pub(crate) const WORN: Spot = Spot::At(WORN_PLACE);

    pub(crate) const CARRIED: Spot = Spot::At(CARRIED_PLACE);
}

// Whether an object fits the sentence: by its noun, and by its adjective where the sentence has one.
fn fits(world: &World, o: u8) -> bool
    requires known { o < length world.now.places }
    ensures value { result ≡ fits_sentence world.now o }
{
    let facts = world.facts(o);
    let noun = world.flag(NOUN_FLAG);
    let adjective = world.flag(ADJECTIVE_FLAG);
    noun != NO_WORD && facts.noun == noun && (adjective == NO_WORD || facts.adjective == adjective)
}

/// Whether some object of the game fits the sentence, wherever it is.
pub(crate) fn some_fits(world: &World) -> bool
    ensures value { result ≡ some_fits world.now }
{
    for o in 0..world.objects() {
        if fits(world, o) {
            return true;
        }
    }
    false
}

// The least object at a place that fits the sentence.
fn least_fitting(world: &World, place: u8) -> Option<u8>
    ensures value { result ≡ least_fitting world.now place }
    ensures known { IfSome result (λ o. o < length world.now.places) }
{
    let mut last = None;
    while let Some(o) = world.first_at(place, last) {
        if fits(world, o) {
            return Some(o);
        }
        last = Some(o);
    }
    None
}

// The least object that fits the sentence and stands there.
fn fitting_at(world: &World, spot: Spot) -> Option<u8>
    ensures value { result ≡ fitting_at world.now spot }
    ensures known { IfSome result (λ o. o < length world.now.places) }
{
    match spot {
        Spot::Here if is_somewhere(world) => least_fitting(world, world.flag(LOCATION_FLAG)),
        Spot::Here => None,
        Spot::At(place) => least_fitting(world, place),
    }
}

/// The least object that fits the sentence at the first of these places that has one.
pub(crate) fn first_fitting(world: &World, spots: &[Spot]) -> Option<u8>
    ensures value { result ≡ first_fitting world.now spots.now }
    ensures known { IfSome result (λ o. o < length world.now.places) }
{
    for &spot in spots {
        if let Some(o) = fitting_at(world, spot) {
            return Some(o);
        }
    }
    None
}
