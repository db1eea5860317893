//! The nogoods that one agent keeps.

ghost use Rattle.std.specs.Prelude.{◌≡◌, ◌<◌, ◌≤◌, ◌-◌, [], ◌∷◌, ◌++◌, false, true, filter, length, take, slice_index_or, IfErr, IfSome, IsNone, IsTrue, OnErr, OnOk};
ghost use Rattle.std.specs.List.{list_all};
ghost use Rattle.std.specs.Option.{ForSome};
ghost use Rattle.abt_defs.specs.Steps.{forget};
ghost use Rattle.abt_parts.specs.Stores.{fits, is_ruled_out, lowest_value, place_against, places_naming, records_of, IsOncePerValue};

use crate::naming::{add_name, name_from, unname_from, unname_item};
use crate::place_list::PlaceList;
use crate::recorded::Recorded;
use crate::spare::let_go;
use crate::taken::{is_fitting, place_values, release_value, release_values, take_value};
use crate::value_places::ValuePlaces;
use dcsp_common::Memory;
use dcsp_defs::{Nogood, Pair};
use std::alloc::Global;
use std::marker::Model;

/// The nogoods that one agent keeps, in order of arrival, at most one for each value of a lowest pair.
#[derive(Debug, Drop)]
pub struct Store {
    alloc: Global,
    items: Vec<Recorded>,
    /// The places of the items, by the values of their lowest pairs.
    places: ValuePlaces,
    /// For each variable the places of the items that name it.
    lists: Vec<PlaceList>,
    /// The room of nogoods that were taken out.
    spare: Vec<Vec<Pair>>,
}

impl Model for Store {
    ghost use Rattle.std.specs.Prelude.{List};
    ghost use Rattle.abt_parts.specs.declared.recorded.Recorded.{Recorded};
    ghost use Rattle.abt_parts.specs.Index.{IsIndexed};
    ghost use Rattle.abt_parts.specs.Values.{place_for};

    ghost Value = { List Recorded };

    ghost view = { λ store. store.items.items };

    ghost invariant = { λ store. IsIndexed store.items.items (place_for store.places) store.lists.items };
}

impl Store {
    /// No nogood.
    pub fn new(alloc: Global) -> Store
        ensures { result ≡ [] }
    {
        Store {
            alloc,
            items: Vec::new(alloc),
            places: ValuePlaces::new(alloc),
            lists: Vec::new(alloc),
            spare: Vec::new(alloc),
        }
    }

    /// Adds a nogood, derived by the step with this number, at the end. No nogood that is kept may
    /// have its lowest pair's value. A refusal hands it back and changes nothing.
    pub fn keep(&mut self, nogood: Nogood, step: u64) -> Result<(), (Nogood, Memory)>
        requires { ForSome (lowest_value nogood) (λ value. is_ruled_out value self.old ≡ false) }
        ensures ok { OnOk result (self.new ≡ self.old ++ record { nogood = nogood; step = step } ∷ []) }
        ensures handed_back { IfErr result (λ refused. refused.0 ≡ nogood) }
        ensures err { OnErr result (self.new ≡ self.old) }
    {
        let place = self.items.len();
        if self.items.reserve(1).is_err() || take_value(&mut self.places, &nogood, place).is_err() {
            return Err((nogood, Memory));
        }
        if add_name(self.alloc, &mut self.lists, nogood.pairs(), place as u64).is_err() {
            release_value(&mut self.places, &nogood);
            return Err((nogood, Memory));
        }
        self.items.push_reserved(Recorded { nogood, step });
        Ok(())
    }

    /// Whether some item's lowest pair has this value.
    pub fn rules_out(&self, value: i64) -> bool
        ensures { result ≡ is_ruled_out value self.now }
    {
        self.against(value).is_some()
    }

    /// The place, counted from 0, of the item whose lowest pair has this value; `None` exactly if
    /// there is none.
    pub fn against(&self, value: i64) -> Option<usize>
        ensures { result ≡ place_against value self.now }
    {
        self.places.get(value)
    }

    /// Takes out exactly the items that have a pair of the variable with another value. The others
    /// stay in their order.
    pub fn forget(&mut self, var: u32, value: i64)
        ensures items { self.new ≡ filter (fits var value) self.old }
        ensures records { records_of self.new ≡ forget var value (records_of self.old) }
    {
        if self.naming(var).is_empty() {
            return;
        }
        self.forget_named(Pair { var, value });
    }

    /// The same for a variable that some item names. Mostly the items that go are the last ones: they are taken
    /// out one by one, and none of the others moves.
    fn forget_named(&mut self, known: Pair)
        ensures { self.new ≡ filter (fits known.var known.value) self.old }
    {
        while self.ends_unfit(known) {
            self.drop_last();
        }
        if let Some(first) = self.first_unfit(known) {
            self.forget_from(first, known);
        }
    }

    /// Takes out the items that give the pair's variable another value, none of which stands before the first.
    #[inline(never)]
    fn forget_from(&mut self, first: usize, known: Pair)
        requires within { first ≤ length self.old }
        requires before { list_all (fits known.var known.value) (take first self.old) ≡ true }
        ensures { self.new ≡ filter (fits known.var known.value) self.old }
    {
        unname_from(&mut self.lists, &self.items, first);
        release_values(&mut self.places, &self.items, first, known);
        self.items.retain(|item| is_fitting(&item.nogood, known));
        place_values(&mut self.places, &self.items, first);
        name_from(&mut self.lists, &self.items, first);
    }

    /// Whether the last item gives the pair's variable another value.
    fn ends_unfit(&self, known: Pair) -> bool
        ensures some { IsTrue result → 0 < length self.now }
        ensures unfit { IsTrue result → (item : Recorded) → fits known.var known.value (slice_index_or self.now (length self.now - 1) item) ≡ false }
    {
        match self.naming(known.var).last() {
            Some(place) => {
                *place as usize + 1 == self.items.len()
                    && !is_fitting(&self.items[*place as usize].nogood, known)
            }
            None => false,
        }
    }

    /// Takes out the last item, if there is one.
    fn drop_last(&mut self)
        ensures { self.new ≡ take (length self.old - 1) self.old }
    {
        if let Some(item) = self.items.pop() {
            unname_item(&mut self.lists, item.nogood.pairs());
            release_value(&mut self.places, &item.nogood);
            let_go(&mut self.spare, item.nogood.into_pairs());
        }
    }

    /// The room of a nogood that was taken out, if one is left.
    #[inline(always)]
    pub fn take_room(&mut self) -> Option<Vec<Pair>>
        ensures { self.new ≡ self.old }
    {
        self.spare.pop()
    }

    /// The place of the first item that gives the pair's variable another value.
    fn first_unfit(&self, known: Pair) -> Option<usize>
        ensures none { IsNone result → list_all (fits known.var known.value) self.now ≡ true }
        ensures within { IfSome result (λ first. first ≤ length self.now) }
        ensures before { IfSome result (λ first. list_all (fits known.var known.value) (take first self.now) ≡ true) }
    {
        for place in self.naming(known.var) {
            if !is_fitting(&self.items[*place as usize].nogood, known) {
                return Some(*place as usize);
            }
        }
        None
    }

    /// The items in order of arrival.
    pub fn items(&self) -> &[Recorded]
        ensures items { result.now ≡ self.now }
        ensures once { IsOncePerValue self.now }
    {
        &self.items
    }

    /// The number of items.
    pub fn len(&self) -> usize
        ensures { result ≡ length self.now }
    {
        self.items.len()
    }

    /// The places, counted from 0 and rising, of exactly the items whose nogood names the variable.
    pub fn naming(&self, var: u32) -> &[u64]
        ensures { result.now ≡ places_naming self.now var }
    {
        match self.lists.get(var as usize) {
            None => &[],
            Some(list) => list.places(),
        }
    }
}
