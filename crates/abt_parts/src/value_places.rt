//! Places of items, each by a value: entries in a list, whose values rise.

ghost use Rattle.std.specs.Prelude.{◌≡◌, ◌<◌, ◌&&◌, ℤ, length, IfErr, IfOk, IsTrue, None, OnErr, OnOk, Some, [], is_some, if◌then◌else◌};
ghost use Rattle.std.specs.Ordering.{int_eq};
ghost use Rattle.abt_parts.specs.Values.{place_for, value_at, AreRising, BelongsAt};

use dcsp_common::Memory;
use std::alloc::Global;
use std::marker::Model;

/// A value, and the place of the item that stands by it.
#[derive(Clone, Copy, Debug, PartialEq, Eq)]
pub(crate) struct ValuePlace {
    pub value: i64,
    pub place: usize,
}

/// The places of items, at most one by each value.
#[derive(Debug, Drop)]
pub(crate) struct ValuePlaces {
    /// The values that have a place, in rising order.
    entries: Vec<ValuePlace>,
}

impl Model for ValuePlaces {
    ghost use Rattle.std.specs.Prelude.{List};
    ghost use Rattle.abt_parts.specs.declared.value_places.ValuePlace.{ValuePlace};
    ghost use Rattle.abt_parts.specs.Values.{AreRising};

    ghost Value = { List ValuePlace };

    ghost view = { λ places. places.entries.items };

    ghost invariant = { λ places. AreRising places.entries.items };
}

impl ValuePlaces {
    /// No value has a place.
    pub fn new(alloc: Global) -> ValuePlaces
        ensures { result ≡ [] }
    {
        ValuePlaces {
            entries: Vec::new(alloc),
        }
    }

    /// The place of a value, if it has one.
    #[inline(always)]
    pub fn get(&self, value: i64) -> Option<usize>
        ensures { result ≡ place_for self.now value }
    {
        match entry_of(&self.entries, value) {
            Ok(at) => Some(self.entries[at].place),
            Err(_) => None,
        }
    }

    /// Gives a value this place, in place of the one that it has. A refusal changes nothing.
    pub fn insert(&mut self, value: i64, place: usize) -> Result<(), Memory>
        ensures ok { OnOk result ((other : ℤ) → place_for self.new other ≡ (if int_eq value other then Some place else place_for self.old other)) }
        ensures err { OnErr result (self.new ≡ self.old) }
    {
        match entry_of(&self.entries, value) {
            Ok(at) => {
                self.entries[at].place = place;
                Ok(())
            }
            Err(at) => {
                self.entries.insert(at, ValuePlace { value, place })?;
                Ok(())
            }
        }
    }

    /// Takes out the place of a value, if it has one.
    pub fn remove(&mut self, value: i64)
        ensures { (other : ℤ) → place_for self.new other ≡ (if int_eq value other then None else place_for self.old other) }
    {
        if let Ok(at) = entry_of(&self.entries, value) {
            self.entries.remove(at);
        }
    }

    /// Gives a value that has a place this one instead. It takes no memory.
    pub fn set(&mut self, value: i64, place: usize)
        ensures { (other : ℤ) → place_for self.new other ≡ (if int_eq value other && is_some (place_for self.old other) then Some place else place_for self.old other) }
    {
        if let Ok(at) = entry_of(&self.entries, value) {
            self.entries[at].place = place;
        }
    }
}

/// Where the entry of a value stands, or else where it belongs.
///
/// Where each value between the first one that has an entry and this one has one too, it stands at their distance, and
/// is found at once.
#[inline(always)]
fn entry_of(entries: &[ValuePlace], value: i64) -> Result<usize, usize>
    requires { AreRising entries.now }
    ensures found { IfOk result (λ at. (at < length entries.now) × (value_at entries.now at ≡ value)) }
    ensures absent { IfErr result (BelongsAt entries.now value) }
{
    let own = distance(entries, value);
    if stands_at(entries, own, value) {
        return Ok(own);
    }
    entries.binary_search_by_key(&value, |entry| entry.value)
}

/// How far a value is above that of the first entry. It wraps round where it is not above.
#[inline(always)]
fn distance(entries: &[ValuePlace], value: i64) -> usize {
    match entries.first() {
        Some(first) => value
            .cast_unsigned()
            .wrapping_sub(first.value.cast_unsigned()) as usize,
        None => 0,
    }
}

/// Whether the entry at this place is the value's.
#[inline(always)]
fn stands_at(entries: &[ValuePlace], at: usize, value: i64) -> bool
    ensures { IsTrue result → (at < length entries.now) × (value_at entries.now at ≡ value) }
{
    match entries.get(at) {
        Some(entry) => entry.value == value,
        None => false,
    }
}
