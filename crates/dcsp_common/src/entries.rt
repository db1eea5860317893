//! Items by number: entries in a list, whose numbers rise.

ghost use Rattle.std.specs.Prelude.{◌≡◌, ◌<◌, ◌≤◌, ◌+◌, ℕ, length, IfErr, IfOk, IsTrue, OnErr, OnOk, Some, insert, vec_capacity, if◌then◌else◌, ◌==◌};
ghost use Rattle.dcsp_common.specs.Entries.{item_for, number_at, AreBelow, AreRising, BelongsAt, HasRoomFor};

use crate::list::Memory;

/// A number and its item.
#[derive(Clone, Copy, Debug, PartialEq, Eq)]
pub struct Entry<T> {
    pub number: u32,
    pub item: T,
}

/// The place of a number's entry, or else where it belongs.
///
/// Where each lower number has an entry, or all but one have, the place is the number or the one before, and
/// is found at once.
pub fn place_of<T>(entries: &[Entry<T>], number: u32) -> Result<usize, usize>
    requires { AreRising entries.now }
    ensures found { IfOk result (λ place. (place < length entries.now) × (number_at entries.now place ≡ number)) }
    ensures absent { IfErr result (BelongsAt entries.now number) }
{
    let own = number as usize;
    if stands_at(entries, own, number) {
        return Ok(own);
    }
    if own > 0 && stands_at(entries, own - 1, number) {
        return Ok(own - 1);
    }
    entries.binary_search_by_key(&number, |entry| entry.number)
}

/// Whether the entry at a place is the number's.
fn stands_at<T>(entries: &[Entry<T>], place: usize, number: u32) -> bool
    ensures { IsTrue result → (place < length entries.now) × (number_at entries.now place ≡ number) }
{
    match entries.get(place) {
        Some(entry) => entry.number == number,
        None => false,
    }
}

/// The item of a number, if it has an entry.
pub fn item_of<T: Copy>(entries: &[Entry<T>], number: u32) -> Option<T>
    requires { AreRising entries.now }
    ensures { result ≡ item_for entries.now number }
{
    match place_of(entries, number) {
        Ok(place) => Some(entries[place].item),
        Err(_) => None,
    }
}

/// Gives a number this item, in a list that has room for an entry of each number below one that is greater.
pub fn put_reserved<T: Copy>(entries: &mut Vec<Entry<T>>, number: u32, item: T)
    requires rising { AreRising entries.old.items }
    requires room { HasRoomFor number (vec_capacity entries.old) entries.old.items }
    ensures item { (other : ℕ) → item_for entries.new.items other ≡ (if other == number then Some item else item_for entries.old.items other) }
    ensures rising { AreRising entries.new.items }
    ensures below { (bound : ℕ) → number < bound → AreBelow bound entries.old.items → AreBelow bound entries.new.items }
    ensures capacity { vec_capacity entries.new ≡ vec_capacity entries.old }
{
    match place_of(entries, number) {
        Ok(place) => entries[place].item = item,
        Err(place) => insert_reserved(entries, place, Entry { number, item }),
    }
}

/// Gives a number this item. A refusal changes nothing.
pub fn put<T: Copy>(entries: &mut Vec<Entry<T>>, number: u32, item: T) -> Result<(), Memory>
    requires { AreRising entries.old.items }
    ensures item { OnOk result ((other : ℕ) → item_for entries.new.items other ≡ (if other == number then Some item else item_for entries.old.items other)) }
    ensures rising { AreRising entries.new.items }
    ensures err { OnErr result (entries.new.items ≡ entries.old.items) }
{
    match place_of(entries, number) {
        Ok(place) => {
            entries[place].item = item;
            Ok(())
        }
        Err(place) => {
            entries.insert(place, Entry { number, item })?;
            Ok(())
        }
    }
}

/// Puts an entry at a place, before what stands from there on.
fn insert_reserved<T: Copy>(entries: &mut Vec<Entry<T>>, place: usize, entry: Entry<T>)
    requires place { place ≤ length entries.old.items }
    requires room { length entries.old.items < vec_capacity entries.old }
    ensures items { entries.new.items ≡ insert entries.old.items place entry }
    ensures capacity { vec_capacity entries.new ≡ vec_capacity entries.old }
{
    let last = entries.len();
    entries.push_reserved(entry);
    entries.copy_within(place..last, place + 1);
    entries[place] = entry;
}
