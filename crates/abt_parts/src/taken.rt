//! Against which value each item stands: the places of the items, by the values of their lowest pairs.

ghost use Rattle.std.specs.Prelude.{◌≡◌, ◌≤◌, ℤ, ◌&&◌, ◌||◌, ◌==◌, not, true, length, None, OnOk, OnErr, Some, filter, is_some, if◌then◌else◌, take};
ghost use Rattle.std.specs.List.{list_all};
ghost use Rattle.std.specs.Ordering.{int_eq};
ghost use Rattle.dcsp_defs.specs.declared.nogood.Pair.{Pair as ThePair};
ghost use Rattle.dcsp_defs.specs.Words.{is_value};
ghost use Rattle.abt_parts.specs.Stores.{fits, is_ruled_out, lowest_value, place_against, IsOncePerValue};
ghost use Rattle.abt_parts.specs.Index.{ArePlaced, AreTaken};
ghost use Rattle.abt_parts.specs.Values.{place_for};

use crate::recorded::Recorded;
use crate::value_places::ValuePlaces;
use dcsp_common::Memory;
use dcsp_defs::{Nogood, Pair};

/// Adds the place of an item, by the value of its nogood's lowest pair, if there is one.
pub fn take_value(places: &mut ValuePlaces, nogood: &Nogood, place: usize) -> Result<(), Memory>
    ensures ok { OnOk result ((value : ℤ) → place_for places.new value ≡ (if is_value (lowest_value nogood.now) value then Some place else place_for places.old value)) }
    ensures err { OnErr result (places.new ≡ places.old) }
{
    let Some(pair) = nogood.lowest() else {
        return Ok(());
    };
    places.insert(pair.value, place)
}

/// Takes out the values of the items that give the pair's variable another value, none of which stands
/// before the first. The places stay as they were.
pub fn release_values(places: &mut ValuePlaces, items: &[Recorded], first: usize, known: Pair)
    requires once { IsOncePerValue items.now }
    requires within { first ≤ length items.now }
    requires before { list_all (fits known.var known.value) (take first items.now) ≡ true }
    requires taken { AreTaken items.now (place_for places.old) }
    ensures taken { AreTaken (filter (fits known.var known.value) items.now) (place_for places.new) }
    ensures kept { (value : ℤ) → is_some (place_for places.new value) ≡ true → place_for places.new value ≡ place_for places.old value }
{
    for place in first..items.len() {
        let nogood = &items[place].nogood;
        if !is_fitting(nogood, known) {
            release_value(places, nogood);
        }
    }
}

/// Takes out the value of the nogood's lowest pair, if there is one.
#[inline(always)]
pub fn release_value(places: &mut ValuePlaces, nogood: &Nogood)
    ensures places { (value : ℤ) → place_for places.new value ≡ (if is_value (lowest_value nogood.now) value then None else place_for places.old value) }
    ensures kept { (value : ℤ) → is_some (place_for places.new value) ≡ true → place_for places.new value ≡ place_for places.old value }
    ensures taken { (value : ℤ) → is_some (place_for places.new value) ≡ (is_some (place_for places.old value) && not (is_value (lowest_value nogood.now) value)) }
{
    if let Some(pair) = nogood.lowest() {
        places.remove(pair.value);
    }
}

/// Puts in the places of the items, whose values are there: from the first one on, where those before are
/// in. It takes no memory.
pub fn place_values(places: &mut ValuePlaces, items: &[Recorded], first: usize)
    requires once { IsOncePerValue items.now }
    requires within { first ≤ length items.now }
    requires taken { AreTaken items.now (place_for places.old) }
    requires before { (value : ℤ) → is_ruled_out value (take first items.now) ≡ true → place_for places.old value ≡ place_against value (take first items.now) }
    ensures { ArePlaced items.now (place_for places.new) }
{
    for place in first..items.len() {
        place_value(places, &items[place].nogood, place);
    }
}

/// Puts in the place of an item, if the value of its nogood's lowest pair is there.
fn place_value(places: &mut ValuePlaces, nogood: &Nogood, place: usize)
    ensures { (value : ℤ) → place_for places.new value ≡ (if is_value (lowest_value nogood.now) value && is_some (place_for places.old value) then Some place else place_for places.old value) }
{
    if let Some(pair) = nogood.lowest() {
        places.set(pair.value, place);
    }
}

/// Whether the nogood gives the pair's variable no other value.
///
/// It looks from the last pair on, since mostly there are few, and an agent hears most from those just above it.
pub fn is_fitting(nogood: &Nogood, known: Pair) -> bool
    ensures { result ≡ list_all (λ (pair : ThePair). not (known.var == pair.var) || int_eq pair.value known.value) nogood.now }
{
    let pairs = nogood.pairs();
    let mut at = pairs.len();
    while at > 0 {
        at -= 1;
        if pairs[at].var <= known.var {
            return agrees(pairs[at], known);
        }
    }
    true
}

/// Whether a pair gives another one's variable no other value.
fn agrees(pair: Pair, known: Pair) -> bool
    ensures { result ≡ (not (known.var == pair.var) || int_eq pair.value known.value) }
{
    pair.var != known.var || pair.value == known.value
}
