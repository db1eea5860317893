//! For each variable the places of the items that name it.

ghost use Rattle.std.specs.Prelude.{◌≡◌, ℕ, ◌<◌, ◌≤◌, ◌++◌, [], ◌∷◌, length, true, OnErr, OnOk, if◌then◌else◌, take, vec_len};
ghost use Rattle.dcsp_defs.specs.Pairs.{var_at, IsRising};
ghost use Rattle.abt_defs.specs.Steps.{is_named};
ghost use Rattle.abt_parts.specs.Places.{without_last};
ghost use Rattle.abt_parts.specs.Index.{list_of, HaveRoom, HaveRoomFrom, AreNamed};

use crate::place_list::PlaceList;
use crate::recorded::Recorded;
use dcsp_common::Memory;
use dcsp_defs::Pair;
use std::alloc::Global;

/// Adds the place of an item to the list of each variable that its pairs name. A refusal changes no list.
pub fn add_name(
    alloc: Global,
    lists: &mut Vec<PlaceList>,
    pairs: &[Pair],
    place: u64,
) -> Result<(), Memory>
    requires { IsRising pairs.now }
    ensures ok { OnOk result ((var : ℕ) → (list_of lists.new.items var).items ≡ (if is_named var pairs.now then (list_of lists.old.items var).items ++ place ∷ [] else (list_of lists.old.items var).items)) }
    ensures err { OnErr result ((var : ℕ) → (list_of lists.new.items var).items ≡ (list_of lists.old.items var).items) }
{
    let Some(last) = pairs.last() else {
        return Ok(());
    };
    add_lists(alloc, lists, last.var as usize + 1)?;
    for at in 0..pairs.len() {
        if lists[pairs[at].var as usize].push(place).is_err() {
            unname_item(lists, &pairs[..at]);
            return Err(Memory);
        }
    }
    Ok(())
}

/// Adds empty lists until there are so many.
fn add_lists(alloc: Global, lists: &mut Vec<PlaceList>, count: usize) -> Result<(), Memory>
    ensures places { (v : ℕ) → (list_of lists.new.items v).items ≡ (list_of lists.old.items v).items }
    ensures count { OnOk result (count ≤ vec_len lists.new) }
{
    while lists.len() < count {
        let Ok(()) = lists.push(PlaceList::new(alloc)) else {
            return Err(Memory);
        };
    }
    Ok(())
}

/// Adds the place of an item to the list of each variable that its pairs name.
pub fn name_item(lists: &mut Vec<PlaceList>, pairs: &[Pair], place: u64)
    requires rising { IsRising pairs.now }
    requires room { HaveRoom lists.old.items pairs.now }
    ensures places { (var : ℕ) → (list_of lists.new.items var).items ≡ (if is_named var pairs.now then (list_of lists.old.items var).items ++ place ∷ [] else (list_of lists.old.items var).items) }
    ensures capacity { (var : ℕ) → (list_of lists.new.items var).capacity ≡ (list_of lists.old.items var).capacity }
{
    for pair in pairs {
        lists[pair.var as usize].push_reserved(place);
    }
}

/// Takes the places of the items from this one on out of the lists, and leaves the room that they had.
pub fn unname_from(lists: &mut Vec<PlaceList>, items: &[Recorded], first: usize)
    requires within { first ≤ length items.now }
    requires named { AreNamed items.now lists.old.items }
    ensures named { AreNamed (take first items.now) lists.new.items }
    ensures room { HaveRoomFrom first items.now lists.new.items }
{
    let mut place = items.len();
    while place > first {
        place -= 1;
        unname_item(lists, items[place].nogood.pairs());
    }
}

/// Takes the last place out of the list of each variable that the pairs name.
pub fn unname_item(lists: &mut Vec<PlaceList>, pairs: &[Pair])
    requires rising { IsRising pairs.now }
    requires there { (k : ℕ) → k < length pairs.now → var_at pairs.now k < length lists.old.items }
    ensures places { (var : ℕ) → (list_of lists.new.items var).items ≡ (if is_named var pairs.now then without_last (list_of lists.old.items var).items else (list_of lists.old.items var).items) }
    ensures capacity { (var : ℕ) → (list_of lists.new.items var).capacity ≡ (list_of lists.old.items var).capacity }
    ensures had_room { (var : ℕ) → is_named var pairs.now ≡ true → length (list_of lists.old.items var).items ≤ (list_of lists.old.items var).capacity }
{
    for pair in pairs {
        lists[pair.var as usize].drop_last();
    }
}

/// Adds the places of the items from this one on to the lists, where there is room for them. It takes
/// no memory.
pub fn name_from(lists: &mut Vec<PlaceList>, items: &[Recorded], first: usize)
    requires within { first ≤ length items.now }
    requires named { AreNamed (take first items.now) lists.old.items }
    requires room { HaveRoomFrom first items.now lists.old.items }
    ensures { AreNamed items.now lists.new.items }
{
    for place in first..items.len() {
        name_item(lists, items[place].nogood.pairs(), place as u64);
    }
}
