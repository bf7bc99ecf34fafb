// Where the objects stand.

ghost use Rattle.std.specs.Prelude.{◌≡◌, ◌+◌, ◌<◌, ◌≤◌, [], ◌∷◌, ◌++◌, length, map, slice_index, slice_set};
ghost use Rattle.paw_base.specs.declared.limits.TheConstants.{OBJECT_LIMIT};
ghost use Rattle.paw_world.specs.inner.Places.{least_at, left_above};

use crate::set::ObjectSet;
use paw_base::limits::OBJECT_LIMIT;
use paw_base::parts::ObjectFacts;
use std::marker::Model;

/// The place of each object, and for each place the set of the objects that stand there, so that the first object at a
/// place is found without a look at every object.
#[derive(Drop)]
pub struct Places {
    places: [u8; OBJECT_LIMIT],
    sets: [ObjectSet; 256],
    count: u8,
}

impl Model for Places {
    ghost use Rattle.std.specs.Prelude.{take};
    ghost use Rattle.paw_base.specs.Bytes.{ObjectPlaces};
    ghost use Rattle.paw_world.specs.inner.PlaceSets.{AreSetsOf};

    ghost Value = { ObjectPlaces };

    ghost view = { λ p. take p.count p.places };

    ghost invariant = { λ p. AreSetsOf p.sets p.count p.places };
}

impl Places {
    /// Each object stands where it begins.
    pub fn opening(facts: &[ObjectFacts]) -> Places
        requires few { length facts.now ≤ OBJECT_LIMIT }
        ensures value { result ≡ map (λ f. f.start) facts.now }
    {
        let mut all = Places::empty();
        for f in facts {
            all.add(f.start);
        }
        all
    }

    /// Each object stands at its place in this list.
    pub fn at(places: &[u8]) -> Places
        requires few { length places.now ≤ OBJECT_LIMIT }
        ensures value { result ≡ places.now }
    {
        let mut all = Places::empty();
        for p in places {
            all.add(*p);
        }
        all
    }

    // The places of no objects.
    fn empty() -> Places
        ensures value { result ≡ [] }
    {
        Places {
            places: [0; OBJECT_LIMIT],
            sets: [ObjectSet::EMPTY; 256],
            count: 0,
        }
    }

    // One object more, at this place.
    fn add(&mut self, p: u8)
        requires room { length self.old < OBJECT_LIMIT }
        ensures adds { self.new ≡ self.old ++ p ∷ [] }
    {
        self.places[self.count as usize] = p;
        self.sets[p as usize].insert(self.count);
        self.count += 1;
    }

    /// The places of all objects, in the order of their numbers.
    pub fn all(&self) -> &[u8]
        ensures value { result.now ≡ self.now }
    {
        &self.places[..self.count as usize]
    }

    /// How many objects there are.
    pub fn count(&self) -> u8
        ensures value { result ≡ length self.now }
    {
        self.count
    }

    pub fn place(&self, o: u8) -> u8
        requires known { o < length self.now }
        ensures value { result ≡ slice_index self.now o }
    {
        self.places[o as usize]
    }

    pub fn set_place(&mut self, o: u8, p: u8)
        requires known { o < length self.old }
        ensures sets { self.new ≡ slice_set self.old o p }
    {
        let old = self.places[o as usize];
        self.sets[old as usize].remove(o);
        self.sets[p as usize].insert(o);
        self.places[o as usize] = p;
    }

    /// The least object above this one that stands at the place, or the least of all there.
    pub fn first_at(&self, p: u8, above: Option<u8>) -> Option<u8>
        ensures least { result ≡ least_at self.now p (left_above self.now above) }
    {
        let from = match above {
            None => 0,
            Some(o) => o as usize + 1,
        };
        // No object stands in a word past that of the last one, so those words needn't be looked at.
        let word_count = self.count as usize / 64 + 1;
        self.sets[p as usize].least_from(from, word_count)
    }
}
