//! Lists of messages, first in and first out, that share one store.

ghost use Rattle.std.specs.Prelude.{◌≡◌, ◌≢◌, ◌<◌, [], ◌∷◌, ◌++◌, ◌-◌, length, take, IfErr, IfOk, OnErr, OnOk, sum_by, option_copied, slice_get, slice_index_or, slice_set, IsTrue, ◌↔◌, List};
ghost use Rattle.abt_parts.specs.declared.message.Message.{Message as TheMessage};
ghost use Rattle.slab.specs.Slab.{ContainsKey, HasRoomFor};
ghost use Rattle.abt_links.specs.Chains.{Follows, IsLinked, IsAdded, IsTaken};

use abt_parts::Message;
use dcsp_common::Memory;
use slab::Slab;
use std::alloc::Global;
use std::marker::Model;

/// A message, and the key of the one after it on its list. The last one's key names nothing.
#[derive(Drop)]
pub(crate) struct Cell {
    message: Message,
    next: u32,
}

/// The keys of the first and the last message of a list, and how many it has. An empty list's keys
/// name nothing.
#[derive(Clone, Copy, Drop)]
pub(crate) struct Ends {
    first: u32,
    last: u32,
    count: u32,
}

/// Lists of messages by number, counted from 0.
///
/// The messages of all lists stand in one slab, each with the key of the next on its list, so that a
/// list is a first key, a last key and a count. Keys and counts have 32 bits; a message that would
/// need more counts as want of memory.
#[derive(Drop)]
pub(crate) struct Queues {
    cells: Slab<Cell>,
    ends: Vec<Ends>,
}

impl Model for Queues {
    ghost use Rattle.std.specs.Prelude.{List, map};
    ghost use Rattle.abt_parts.specs.declared.message.Message.{Message};

    ghost Value = { List (List Message) };

    ghost use Rattle.abt_links.specs.Chains.{messages_of, IsSound};

    ghost view = { λ q. map (messages_of q.cells.slots) q.ends.items };

    ghost invariant = { λ q. IsSound q.cells.slots q.ends.items };
}

impl Queues {
    /// No lists. It takes no memory.
    pub(crate) fn new(alloc: Global) -> Queues
        ensures { result ≡ [] }
    {
        Queues {
            cells: Slab::new(alloc),
            ends: Vec::new(alloc),
        }
    }

    /// Adds an empty list behind the others. A refusal changes nothing.
    pub(crate) fn open(&mut self) -> Result<(), Memory>
        ensures ok { OnOk result (self.new ≡ self.old ++ [] ∷ []) }
        ensures err { OnErr result (self.new ≡ self.old) }
    {
        let none = Ends {
            first: 0,
            last: 0,
            count: 0,
        };
        self.ends.push(none)?;
        Ok(())
    }

    /// Takes out the last list, which is empty.
    pub(crate) fn close_last(&mut self)
        requires some { 0 < length self.old }
        requires empty { slice_index_or self.old (length self.old - 1) [] ≡ [] }
        ensures { self.new ≡ take (length self.old - 1) self.old }
    {
        self.ends.pop();
    }

    /// Puts a message last on a list. A refusal hands it back and changes nothing.
    #[inline(always)]
    pub(crate) fn push(&mut self, place: usize, message: Message) -> Result<(), (Message, Memory)>
        requires { place < length self.old }
        ensures ok { OnOk result (self.new ≡ slice_set self.old place (slice_index_or self.old place [] ++ message ∷ [])) }
        ensures handed_back { IfErr result (λ refused. refused.0 ≡ message) }
        ensures err { OnErr result (self.new ≡ self.old) }
    {
        let ends = self.ends[place];
        // Room is made first, so that the message goes straight into its cell.
        let Ok(more) = room_for(&mut self.cells, ends) else {
            return Err((message, Memory));
        };
        add(&mut self.cells, ends, more, message);
        self.ends[place] = more;
        Ok(())
    }

    /// Takes the first message of a list that has one. It takes no memory.
    #[inline(always)]
    pub(crate) fn pop(&mut self, place: usize) -> Message
        requires { slice_index_or self.old place [] ≢ [] }
        ensures first { slice_index_or self.old place [] ≡ result ∷ slice_index_or self.new place [] }
        ensures others { self.new ≡ slice_set self.old place (slice_index_or self.new place []) }
    {
        let ends = self.ends[place];
        let (message, rest) = take(&mut self.cells, ends);
        self.ends[place] = rest;
        message
    }

    /// The first message of a list, if it has one.
    pub(crate) fn first(&self, place: usize) -> Option<&Message>
        requires { place < length self.now }
        ensures { option_copied result ≡ slice_get (slice_index_or self.now place []) 0 }
    {
        let ends = self.ends[place];
        if ends.count == 0 {
            return None;
        }
        match self.cells.get(ends.first as usize) {
            Some(cell) => Some(&cell.message),
            None => None,
        }
    }

    /// How many messages a list has.
    pub(crate) fn count(&self, place: usize) -> u64
        requires { place < length self.now }
        ensures { result ≡ length (slice_index_or self.now place []) }
    {
        u64::from(self.ends[place].count)
    }

    /// Whether a list has no message.
    pub(crate) fn is_empty(&self, place: usize) -> bool
        requires { place < length self.now }
        ensures { IsTrue result ↔ (slice_index_or self.now place [] ≡ []) }
    {
        self.ends[place].count == 0
    }

    /// How many messages all lists have.
    pub(crate) fn total(&self) -> u64
        ensures { result ≡ sum_by (λ (messages : List TheMessage). length messages) self.now }
    {
        self.cells.len() as u64
    }
}

/// Makes room for one cell more.
fn make_room(cells: &mut Slab<Cell>) -> Result<(), Memory>
    ensures room { OnOk result (HasRoomFor cells.new 1) }
    ensures slots { cells.new.slots ≡ cells.old.slots }
    ensures vacant_key { cells.new.vacant_key ≡ cells.old.vacant_key }
{
    if cells.len() < cells.capacity() {
        return Ok(());
    }
    grow(cells)
}

/// Makes a full store larger by half, so that less stands idle than if it doubled. That is rare, so it
/// stands aside from where messages are stored.
#[inline(never)]
fn grow(cells: &mut Slab<Cell>) -> Result<(), Memory>
    ensures room { OnOk result (HasRoomFor cells.new 1) }
    ensures slots { cells.new.slots ≡ cells.old.slots }
    ensures vacant_key { cells.new.vacant_key ≡ cells.old.vacant_key }
{
    cells.reserve_exact(cells.len() / 2 + 1)?;
    Ok(())
}

/// Makes room for a message behind the last one of a list, and tells what the list is with it.
#[inline(always)]
fn room_for(cells: &mut Slab<Cell>, ends: Ends) -> Result<Ends, Memory>
    ensures ok { IfOk result (λ new. Follows ends new cells.old.vacant_key) }
    ensures room { OnOk result (HasRoomFor cells.new 1) }
    ensures slots { cells.new.slots ≡ cells.old.slots }
    ensures vacant_key { cells.new.vacant_key ≡ cells.old.vacant_key }
{
    let key = cells.vacant_key();
    if key > u32::MAX as usize || ends.count == u32::MAX {
        return Err(Memory);
    }
    let key = key as u32;
    make_room(cells)?;
    let first = if ends.count == 0 { key } else { ends.first };
    Ok(Ends {
        first,
        last: key,
        count: ends.count + 1,
    })
}

/// Stores a message behind the last one of a list, for which room was made.
#[inline(always)]
fn add(cells: &mut Slab<Cell>, ends: Ends, more: Ends, message: Message)
    requires live { 0 < ends.count → ContainsKey cells.old ends.last }
    requires room { HasRoomFor cells.old 1 }
    requires more { Follows ends more cells.old.vacant_key }
    ensures { IsAdded cells.old.slots cells.new.slots ends more message }
{
    cells.insert_reserved(Cell { message, next: 0 });
    if ends.count > 0 {
        link(cells, ends.last, more.last);
    }
}

/// Names the cell that comes after the one at a key.
fn link(cells: &mut Slab<Cell>, at: u32, next: u32)
    requires { ContainsKey cells.old at }
    ensures { IsLinked cells.old.slots cells.new.slots at next }
{
    if let Some(cell) = cells.get_mut(at as usize) {
        cell.next = next;
    }
}

/// Takes the first message of a list that has one, and tells what is left of the list.
#[inline(always)]
fn take(cells: &mut Slab<Cell>, ends: Ends) -> (Message, Ends)
    requires some { 0 < ends.count }
    requires live { ContainsKey cells.old ends.first }
    ensures { IsTaken cells.old.slots cells.new.slots ends result.1 result.0 }
{
    let Cell { message, next } = cells.remove(ends.first as usize);
    let rest = Ends {
        first: next,
        last: ends.last,
        count: ends.count - 1,
    };
    (message, rest)
}
