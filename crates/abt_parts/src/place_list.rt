//! Places of items, in a list that can be given room before it grows.

ghost use Rattle.std.specs.Prelude.{◌≡◌, ◌<◌, ◌≤◌, [], ◌∷◌, ◌++◌, length, is_ok, if◌then◌else◌, vec_capacity};
ghost use Rattle.abt_parts.specs.Places.{without_last};

use dcsp_common::Memory;
use std::alloc::Global;
use std::marker::Model;

/// Places, each counted from 0.
#[derive(Debug, Drop)]
pub struct PlaceList {
    places: Vec<u64>,
}

impl Model for PlaceList {
    ghost use Rattle.std.specs.Prelude.{vec_capacity};
    ghost use Rattle.abt_parts.specs.Places.{Places};

    ghost Value = { Places };

    ghost view = { λ list. record { items = list.places.items; capacity = vec_capacity list.places } };
}

impl PlaceList {
    /// No place.
    pub fn new(alloc: Global) -> PlaceList
        ensures { result.items ≡ [] }
    {
        PlaceList {
            places: Vec::new(alloc),
        }
    }

    /// Adds a place at the end, for which there is room.
    pub fn push_reserved(&mut self, place: u64)
        requires { length self.old.items < self.old.capacity }
        ensures items { self.new.items ≡ self.old.items ++ place ∷ [] }
        ensures capacity { self.new.capacity ≡ self.old.capacity }
    {
        self.places.push_reserved(place);
    }

    /// Adds a place at the end. A refusal changes nothing.
    pub fn push(&mut self, place: u64) -> Result<(), Memory>
        ensures { self.new.items ≡ (if is_ok result then self.old.items ++ place ∷ [] else self.old.items) }
    {
        match self.places.push(place) {
            Ok(()) => Ok(()),
            Err(_) => Err(Memory),
        }
    }

    /// Takes out the last place, if there is one, and leaves the room that it had.
    pub fn drop_last(&mut self)
        ensures items { self.new.items ≡ without_last self.old.items }
        ensures capacity { self.new.capacity ≡ self.old.capacity }
        ensures had_room { length self.old.items ≤ self.old.capacity }
    {
        self.places.pop();
    }

    /// The places in order.
    pub fn places(&self) -> &[u64]
        ensures { result.now ≡ self.now.items }
    {
        &self.places
    }
}
