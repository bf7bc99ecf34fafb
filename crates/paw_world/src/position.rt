// Flags and places that are put aside together.

ghost use Rattle.std.specs.Prelude.{◌≡◌, ◌≤◌, [], length};
ghost use Rattle.paw_base.specs.declared.limits.TheConstants.{OBJECT_LIMIT};

use paw_base::limits::{FLAG_COUNT, OBJECT_LIMIT};
use std::marker::Model;

/// The flags and the places of all objects, as they stood once.
#[derive(Drop)]
pub(crate) struct Position {
    flags: [u8; FLAG_COUNT],
    places: [u8; OBJECT_LIMIT],
    count: u8,
}

impl Model for Position {
    ghost use Rattle.std.specs.Prelude.{take};
    ghost use Rattle.paw_world.specs.World.{Position};

    ghost Value = { Position };

    ghost view = { λ p. record { flags = p.flags; places = take p.count p.places } };
}

impl Position {
    /// All flags 0, and no objects.
    pub(crate) fn empty() -> Position
        ensures places { result.places ≡ [] }
    {
        Position {
            flags: [0; FLAG_COUNT],
            places: [0; OBJECT_LIMIT],
            count: 0,
        }
    }

    /// These flags and places.
    pub(crate) fn of(flags: &[u8; FLAG_COUNT], places: &[u8]) -> Position
        requires few { length places.now ≤ OBJECT_LIMIT }
        ensures value { result ≡ record { flags = flags.now; places = places.now } }
    {
        let mut position = Position::empty();
        position.put(flags, places);
        position
    }

    /// These flags and places come in the place of those that were put aside.
    pub(crate) fn put(&mut self, flags: &[u8; FLAG_COUNT], places: &[u8])
        requires few { length places.now ≤ OBJECT_LIMIT }
        ensures value { self.new ≡ record { flags = flags.now; places = places.now } }
    {
        self.flags = *flags;
        self.places[..places.len()].copy_from_slice(places);
        self.count = places.len() as u8;
    }

    /// The values of all flags.
    pub(crate) fn flags(&self) -> &[u8; FLAG_COUNT]
        ensures value { result.now ≡ self.now.flags }
    {
        &self.flags
    }

    /// The places of all objects, in the order of their numbers.
    pub(crate) fn places(&self) -> &[u8]
        ensures value { result.now ≡ self.now.places }
    {
        &self.places[..self.count as usize]
    }
}
