// The world of a game.

ghost use Rattle.std.specs.Prelude.{◌≡◌, ◌+◌, ◌-◌, ◌^◌, ◌<◌, ◌≤◌, length, take, slice_get};
ghost use Rattle.std.specs.Prelude.{is_some, IsSome, IfSome, MatchOption};
ghost use Rattle.paw_base.specs.declared.limits.TheConstants.{OBJECT_LIMIT, POSITION_COUNT};
ghost use Rattle.paw_world.specs.Draws.{random_word};
ghost use Rattle.paw_world.specs.World.{starting_world, flag, with_flag, place, object_moved, position_saved};
ghost use Rattle.paw_world.specs.World.{saved_position_loaded};
ghost use Rattle.paw_world.specs.World.{kept_position, position_kept, world_restarted, with_objects_returned};
ghost use Rattle.paw_world.specs.World.{drawn_on, first_carried, IsWorld};
ghost use Rattle.paw_world.specs.inner.World.{opening_flags, first_at, saved_flag, saved_place, kept_position_loaded};
ghost use Rattle.paw_world.specs.inner.World.{with_kept};
ghost use Rattle.paw_world.specs.inner.World.{kept_flag, kept_place};
ghost use Rattle.paw_world.specs.Weight.{weight, weight_down, carried_weight};
ghost use Rattle.paw_world.specs.inner.Weight.{weight_with};

use crate::draws::Draws;
use crate::places::Places;
use crate::position::Position;
use paw_base::flags;
use paw_base::limits::{
    FLAG_COUNT, OBJECT_LIMIT, POSITION_COUNT, STARTING_CARRIED, STARTING_WEIGHT, WEIGHT_LEVELS,
};
use paw_base::parts::ObjectFacts;
use paw_base::places::{CARRIED_PLACE, NOT_CREATED_PLACE, WORN_PLACE};
use paw_base::words::NO_WORD;
use std::marker::Model;

// How many levels below an object its contents count.
const LEVELS: u8 = WEIGHT_LEVELS as u8;

/// The facts that are given where there is no object.
pub const NO_OBJECT: ObjectFacts = ObjectFacts {
    noun: NO_WORD,
    adjective: NO_WORD,
    start: NOT_CREATED_PLACE,
    weight: 0,
    container: false,
    wearable: false,
};

/// What a game changes while it is played, with the facts of its objects and the number of its locations: these are of
/// the game, and stand here so that what weighs and moves objects asks no game.
#[derive(Drop)]
pub struct World {
    facts: [ObjectFacts; OBJECT_LIMIT],
    locations: u8,
    flags: [u8; FLAG_COUNT],
    places: Places,
    saved: Option<Position>,
    kept: [Option<Position>; POSITION_COUNT],
    draws: Draws,
}

impl Model for World {
    ghost use Rattle.std.specs.Prelude.{length, take};
    ghost use Rattle.paw_world.specs.World.{World};
    ghost use Rattle.paw_world.specs.inner.World.{IsStored};

    ghost Value = { World };

    ghost view = { λ w. record {
      facts = take (length w.places) w.facts;
      locations = w.locations;
      flags = w.flags;
      places = w.places;
      saved = w.saved;
      kept = w.kept;
      seed = w.draws.seed;
      draws = w.draws.count;
    } };

    ghost invariant = { λ w. IsStored w.facts w.flags w.places w.saved w.kept };
}

impl World {
    // What a game that is running calls to keep or fill a whole position isn't inlined: places with their sets take
    // 8,448 bytes of the stack while they are made, and a position 512, which the loop that reads condacts would
    // reserve each time that it begins. `set_position` and `set_kept` are called only when a session is read.

    /// The world at the start of a game with these objects, this number of locations and this seed.
    pub fn new(facts: &[ObjectFacts], locations: u8, seed: u64) -> World
        requires few { length facts.now ≤ OBJECT_LIMIT }
        ensures value { result ≡ starting_world facts.now locations seed }
    {
        World {
            facts: facts_array(facts),
            locations,
            flags: opening_flags(facts),
            places: Places::opening(facts),
            saved: None,
            kept: [None, None, None, None],
            draws: Draws::new(seed),
        }
    }

    /// The value of a flag.
    pub fn flag(&self, f: u8) -> u8
        ensures value { result ≡ flag self.now f }
    {
        self.flags[f as usize]
    }

    /// The values of all flags.
    pub fn flags(&self) -> &[u8; FLAG_COUNT]
        ensures value { result.now ≡ self.now.flags }
    {
        &self.flags
    }

    /// Gives a flag a value.
    pub fn set_flag(&mut self, f: u8, x: u8)
        ensures change { self.new ≡ with_flag self.old f x }
    {
        self.flags[f as usize] = x;
    }

    /// How many objects there are: 0 to 255.
    pub fn objects(&self) -> u8
        ensures value { result ≡ length self.now.places }
        ensures sound { IsWorld self.now }
    {
        self.places.count()
    }

    /// How many locations there are.
    pub fn locations(&self) -> u8
        ensures value { result ≡ self.now.locations }
    {
        self.locations
    }

    /// The facts of an object.
    pub fn facts(&self, o: u8) -> ObjectFacts
        requires known { o < length self.now.places }
        ensures value { slice_get self.now.facts o ≡ Some result }
    {
        self.facts[o as usize]
    }

    /// The place of an object.
    pub fn place(&self, o: u8) -> u8
        requires known { o < length self.now.places }
        ensures value { result ≡ place self.now o }
    {
        self.places.place(o)
    }

    /// The places of all objects, in the order of their numbers.
    pub fn places(&self) -> &[u8]
        ensures value { result.now ≡ self.now.places }
    {
        self.places.all()
    }

    /// All flags and the places of all objects become these, as they were kept. No object moves, so no flag counts it.
    pub fn set_position(&mut self, flags: &[u8; FLAG_COUNT], places: &[u8])
        requires each { length places.now ≡ length self.old.places }
        ensures change { self.new ≡ record self.old { flags = flags.now; places = places.now } }
    {
        self.flags = *flags;
        self.places = Places::at(places);
    }

    /// Moves an object to a place. Where it stands there already nothing happens. Otherwise flag 1 falls by one, but
    /// not below 0, where the object was carried (254), and rises by one, but not above 255, where it is carried now.
    pub fn move_to(&mut self, o: u8, p: u8)
        requires known { o < length self.old.places }
        ensures change { self.new ≡ object_moved self.old o p }
    {
        let old = self.places.place(o);
        if old == p {
            return;
        }
        let carried = self.flag(flags::CARRIED_FLAG);
        if old == CARRIED_PLACE {
            self.set_flag(flags::CARRIED_FLAG, carried.saturating_sub(1));
        }
        if p == CARRIED_PLACE {
            self.set_flag(flags::CARRIED_FLAG, carried.saturating_add(1));
        }
        self.places.set_place(o, p);
    }

    /// The least object above `above` that stands at a place, or the least of all there without `above`. None exactly
    /// where there is no such object.
    pub fn first_at(&self, p: u8, above: Option<u8>) -> Option<u8>
        ensures value { result ≡ first_at self.now p above }
        ensures bound { IfSome result (λ o. o < length self.now.places) }
        ensures stands { IfSome result (λ o. place self.now o ≡ p) }
        ensures rises { IfSome result (λ o. IfSome above (λ a. a < o)) }
    {
        self.places.first_at(p, above)
    }

    /// Flags and places become the saved position.
    #[inline(never)]
    pub fn ramsave(&mut self)
        ensures change { self.new ≡ position_saved self.old }
    {
        // It is filled where it stands, so that no position is made beside it and then moved.
        let saved = self.saved.get_or_insert_with(Position::empty);
        saved.put(&self.flags, self.places.all());
    }

    /// Takes flags 0 to n and all places from the saved position. Where nothing is saved nothing changes.
    #[inline(never)]
    pub fn ramload(&mut self, n: u8)
        ensures change { self.new ≡ saved_position_loaded self.old n }
    {
        let Some(saved) = &self.saved else {
            return;
        };
        let end = n as usize + 1;
        let mut flags = self.flags;
        flags[..end].copy_from_slice(&saved.flags()[..end]);
        self.flags = flags;
        self.places = Places::at(saved.places());
    }

    /// Whether there is a saved position.
    pub fn saved(&self) -> bool
        ensures value { result ≡ is_some self.now.saved }
    {
        self.saved.is_some()
    }

    /// The value of a flag in the saved position.
    pub fn saved_flag(&self, f: u8) -> u8
        requires saved { IsSome self.now.saved }
        ensures value { result ≡ saved_flag self.now f }
    {
        match &self.saved {
            Some(saved) => saved.flags()[f as usize],
            None => unreachable!(), // a position is saved
        }
    }

    /// The place of an object in the saved position.
    pub fn saved_place(&self, o: u8) -> u8
        requires saved { IsSome self.now.saved }
        requires known { o < length self.now.places }
        ensures value { result ≡ saved_place self.now o }
    {
        match &self.saved {
            Some(saved) => saved.places()[o as usize],
            None => unreachable!(), // a position is saved
        }
    }

    /// The flags and the places of the saved position; None where nothing is saved.
    pub fn saved_position(&self) -> Option<(&[u8; FLAG_COUNT], &[u8])>
        ensures value { MatchOption result (self.now.saved ≡ None)
            (λ p. self.now.saved ≡ Some (record { flags = p.0.now; places = p.1.now })) }
    {
        match &self.saved {
            None => None,
            Some(saved) => Some((saved.flags(), saved.places())),
        }
    }

    /// Flags and places become the kept position of this number.
    #[inline(never)]
    pub fn keep(&mut self, n: u8)
        requires known { n < POSITION_COUNT }
        ensures change { self.new ≡ position_kept self.old n }
    {
        self.kept[n as usize] = Some(Position::of(&self.flags, self.places.all()));
    }

    /// Takes all flags and all places from the kept position of this number. No object moves, so no flag counts it.
    /// False exactly where none was kept, and then nothing changes.
    #[inline(never)]
    pub fn recall(&mut self, n: u8) -> bool
        requires known { n < POSITION_COUNT }
        ensures found { result ≡ is_some (kept_position self.old n) }
        ensures change { self.new ≡ kept_position_loaded self.old n }
    {
        let Some(kept) = &self.kept[n as usize] else {
            return false;
        };
        let flags = *kept.flags();
        let places = Places::at(kept.places());
        self.flags = flags;
        self.places = places;
        true
    }

    /// Whether the position of this number was kept.
    pub fn has_kept(&self, n: u8) -> bool
        requires known { n < POSITION_COUNT }
        ensures value { result ≡ is_some (kept_position self.now n) }
    {
        self.kept[n as usize].is_some()
    }

    /// The value of a flag in the kept position of this number.
    pub fn kept_flag(&self, n: u8, f: u8) -> u8
        requires known { n < POSITION_COUNT }
        requires kept { IsSome (kept_position self.now n) }
        ensures value { result ≡ kept_flag self.now n f }
    {
        match &self.kept[n as usize] {
            Some(kept) => kept.flags()[f as usize],
            None => unreachable!(), // the position was kept
        }
    }

    /// The place of an object in the kept position of this number.
    pub fn kept_place(&self, n: u8, o: u8) -> u8
        requires known { n < POSITION_COUNT }
        requires kept { IsSome (kept_position self.now n) }
        requires object { o < length self.now.places }
        ensures value { result ≡ kept_place self.now n o }
    {
        match &self.kept[n as usize] {
            Some(kept) => kept.places()[o as usize],
            None => unreachable!(), // the position was kept
        }
    }

    /// The flags and the places of the kept position of this number; None where none was kept.
    pub fn kept_position(&self, n: u8) -> Option<(&[u8; FLAG_COUNT], &[u8])>
        requires known { n < POSITION_COUNT }
        ensures value { MatchOption result (kept_position self.now n ≡ None)
            (λ p. kept_position self.now n ≡ Some (record { flags = p.0.now; places = p.1.now })) }
    {
        match &self.kept[n as usize] {
            None => None,
            Some(kept) => Some((kept.flags(), kept.places())),
        }
    }

    /// The kept position of this number has these flags and the places of all objects, as they were kept before.
    pub fn set_kept(&mut self, n: u8, flags: &[u8; FLAG_COUNT], places: &[u8])
        requires known { n < POSITION_COUNT }
        requires each { length places.now ≡ length self.old.places }
        ensures change { self.new ≡ with_kept self.old n (record { flags = flags.now; places = places.now }) }
    {
        let kept = &mut self.kept[n as usize];
        *kept = Some(Position::of(flags, places));
    }

    /// The next random word: 32 bits.
    pub fn draw(&mut self) -> u32
        requires room { self.old.draws < 2 ^ 64 - 1 }
        ensures value { result ≡ random_word self.old.seed self.old.draws }
        ensures change { self.new ≡ drawn_on self.old 1 }
    {
        self.draws.draw()
    }

    /// How many random words were taken.
    pub fn draws(&self) -> u64
        ensures value { result ≡ self.now.draws }
    {
        self.draws.count()
    }

    /// The seed of the random words.
    pub fn seed(&self) -> u64
        ensures value { result ≡ self.now.seed }
    {
        self.draws.seed()
    }

    /// Passes over n random words, in a time that grows only with the number of digits of n.
    pub fn skip(&mut self, n: u64)
        requires room { self.old.draws + n < 2 ^ 64 }
        ensures change { self.new ≡ drawn_on self.old n }
    {
        self.draws.skip(n)
    }

    /// Gives the flags and places of a game's start. Seed, draws, the saved position and the kept positions stay.
    #[inline(never)]
    pub fn restart(&mut self)
        ensures change { self.new ≡ world_restarted self.old }
    {
        let objects = self.places.count() as usize;
        let facts = &self.facts[..objects];
        self.flags = opening_flags(facts);
        self.places = Places::opening(facts);
    }

    /// Puts all objects back to where they begin. Flag 1 becomes the number of those that begin carried; the other
    /// flags stay.
    #[inline(never)]
    pub fn return_objects(&mut self)
        ensures change { self.new ≡ with_objects_returned self.old }
    {
        let objects = self.places.count() as usize;
        let facts = &self.facts[..objects];
        self.flags[flags::CARRIED_FLAG as usize] = first_carried(facts);
        self.places = Places::opening(facts);
    }

    /// The weight of an object, at most 255: its own weight, and for a container whose own weight isn't 0 that of what
    /// stands in it, down to ten levels.
    pub fn weight(&self, o: u8) -> u8
        requires known { o < length self.now.places }
        ensures value { result ≡ weight self.now o }
    {
        self.weight_down(o, LEVELS)
    }

    // The weight of an object where contents count down to this number of levels below it, at most 255.
    #[cycle(weigh)]
    fn weight_down(&self, o: u8, levels: u8) -> u8
        requires known { o < length self.now.places }
        ensures value { result ≡ weight_down self.now levels o }
    {
        let facts = self.facts(o);
        if levels == 0 || !facts.container || facts.weight == 0 {
            return facts.weight;
        }
        self.weight_with(facts.weight, o, levels - 1)
    }

    // A weight together with that of all objects at a place, at most 255.
    #[cycle(weigh)]
    #[inline(never)] // so that weighing an object with no contents takes no call; most have none
    fn weight_with(&self, own: u8, p: u8, levels: u8) -> u8
        ensures value { result ≡ weight_with self.now levels own p }
    {
        let mut total = own;
        let mut last = None;
        while let Some(o) = self.first_at(p, last) {
            total = total.saturating_add(self.weight_down(o, levels));
            last = Some(o);
        }
        total
    }

    /// The weight of all objects that are worn or carried, at most 255.
    pub fn carried_weight(&self) -> u8
        ensures value { result ≡ carried_weight self.now }
    {
        let worn = self.weight_with(0, WORN_PLACE, LEVELS);
        self.weight_with(worn, CARRIED_PLACE, LEVELS)
    }
}

// These facts, followed by others up to the greatest number of objects.
fn facts_array(facts: &[ObjectFacts]) -> [ObjectFacts; OBJECT_LIMIT]
    requires few { length facts.now ≤ OBJECT_LIMIT }
    ensures begins { take (length facts.now) result ≡ facts.now }
{
    let mut all = [NO_OBJECT; OBJECT_LIMIT];
    all[..facts.len()].copy_from_slice(facts);
    all
}

// How many objects begin carried.
fn first_carried(facts: &[ObjectFacts]) -> u8
    requires few { length facts.now ≤ OBJECT_LIMIT }
    ensures value { result ≡ first_carried facts.now }
{
    facts.iter().filter(|f| f.start == CARRIED_PLACE).count() as u8
}

// The flags at the start of a game.
fn opening_flags(facts: &[ObjectFacts]) -> [u8; FLAG_COUNT]
    requires few { length facts.now ≤ OBJECT_LIMIT }
    ensures value { result ≡ opening_flags facts.now }
{
    let mut all = [0; FLAG_COUNT];
    all[flags::CARRIED_FLAG as usize] = first_carried(facts);
    all[flags::VERB_FLAG as usize] = NO_WORD;
    all[flags::NOUN_FLAG as usize] = NO_WORD;
    all[flags::ADJECTIVE_FLAG as usize] = NO_WORD;
    all[flags::ADVERB_FLAG as usize] = NO_WORD;
    all[flags::PREPOSITION_FLAG as usize] = NO_WORD;
    all[flags::SECOND_NOUN_FLAG as usize] = NO_WORD;
    all[flags::SECOND_ADJECTIVE_FLAG as usize] = NO_WORD;
    all[flags::PRONOUN_NOUN_FLAG as usize] = NO_WORD;
    all[flags::PRONOUN_ADJECTIVE_FLAG as usize] = NO_WORD;
    all[flags::REFERRED_FLAG as usize] = NO_WORD;
    all[flags::MOST_CARRIED_FLAG as usize] = STARTING_CARRIED;
    all[flags::MOST_WEIGHT_FLAG as usize] = STARTING_WEIGHT;
    all
}
