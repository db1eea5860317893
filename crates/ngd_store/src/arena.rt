//! Lists of pairs, each given as a variable and a place in its domain, in one list of cells.

ghost use Rattle.std.specs.Prelude.{◌≡◌, ◌++◌, ◌∷◌, [], ◌<◌, ◌≤◌, ◌+◌, ◌^◌, ◌==◌, ℕ, true, None, Some, All, OnOk, OnErr, is_some, IfSome, IfOk, IsNone, IsTrue, length, slice_index_or, if◌then◌else◌};
ghost use Rattle.ngd_store.specs.Rooms.{AreThere, AreGivenBack, HasGivenBack, HasWritten, IsPut};

use crate::freed::Freed;
use dcsp_common::Memory;
use std::alloc::Global;
use std::marker::Model;

/// A variable, counted from 0, and the place of a value in its domain.
#[derive(Clone, Copy)]
pub struct Placed {
    pub var: u16,
    pub place: u16,
}

/// What the first cell of a list that was given back has in place of a variable. Its place is the list's length.
pub const NO_VAR: u16 = u16::MAX;

/// Where a list of pairs lies among the cells, and whether it is kept.
#[derive(Clone, Copy)]
pub struct Room {
    start: u32,
    len: u16,
    kept: bool,
}

/// Lists of pairs by number, but for those that were given back.
///
/// A list costs 8 bytes beside the 4 of each of its pairs, and the cells of one that was given back are used
/// again for one of its length. There are at most 2^32 cells, and a list has less than 2^16 pairs.
#[derive(Drop)]
pub struct Arena {
    cells: Vec<Placed>,
    rooms: Vec<Room>,
    freed: Freed,
}

impl Model for Arena {
    ghost use Rattle.std.specs.Prelude.{List, Option, map};
    ghost use Rattle.ngd_store.specs.declared.arena.Placed.{Placed};
    ghost use Rattle.ngd_store.specs.Rooms.{content, IsTidy};

    ghost Value = { List (Option (List Placed)) };

    ghost view = { λ arena. map (content arena.cells.items) arena.rooms.items };

    ghost invariant = { λ arena. IsTidy arena.cells.items arena.rooms.items };
}

impl Arena {
    /// No list.
    pub fn new(alloc: Global) -> Arena
        ensures { result ≡ [] }
    {
        Arena {
            cells: Vec::new(alloc),
            rooms: Vec::new(alloc),
            freed: Freed::new(alloc),
        }
    }

    /// How many lists were added.
    pub fn len(&self) -> usize
        ensures len { result ≡ length self.now }
        ensures small { result < 2 ^ 63 }
    {
        self.rooms.len()
    }

    /// Adds a copy of this list. After a refusal nothing has changed.
    pub fn push(&mut self, pairs: &[Placed]) -> Result<(), Memory>
        requires { All (λ pair. pair.var < NO_VAR) pairs.now }
        ensures ok { OnOk result (self.new ≡ self.old ++ Some pairs.now ∷ []) }
        ensures err { OnErr result (self.new ≡ self.old) }
    {
        let room = put(&mut self.cells, &mut self.freed, pairs)?;
        add_room(&mut self.rooms, room)
    }

    /// The list with this number, counted from 0; `None` where there is none, or it was given back.
    pub fn get(&self, number: usize) -> Option<&[Placed]>
        ensures kept { IfSome result (λ pairs. slice_index_or self.now number None ≡ Some pairs.now) }
        ensures none { IsNone result → slice_index_or self.now number None ≡ None }
    {
        let room = *self.rooms.get(number)?;
        if !room.kept {
            return None;
        }
        let start = room.start as usize;
        Some(&self.cells[start..start + room.len as usize])
    }

    /// Gives back the list with this number.
    pub fn clear(&mut self, number: usize)
        requires { number < length self.old }
        ensures lists { length self.new ≡ length self.old }
        ensures cleared { (k : ℕ) → slice_index_or self.new k None ≡ (if k == number then None else slice_index_or self.old k None) }
    {
        let room = self.rooms[number];
        if !room.kept {
            return;
        }
        self.rooms[number].kept = false;
        give_back(&mut self.cells, room.start as usize, room.len);
        self.freed.give(room.start, room.len);
    }
}

/// The room of so many pairs from this cell on.
fn room_of(start: usize, len: usize) -> Result<Room, Memory>
    ensures { IfOk result (λ room. room ≡ record { start = start; len = len; kept = true }) }
{
    match (u32::try_from(start), u16::try_from(len)) {
        (Ok(start), Ok(len)) => Ok(Room {
            start,
            len,
            kept: true,
        }),
        _ => Err(Memory),
    }
}

/// Adds the room behind the others.
fn add_room(rooms: &mut Vec<Room>, room: Room) -> Result<(), Memory>
    ensures ok { OnOk result (rooms.new.items ≡ rooms.old.items ++ room ∷ []) }
    ensures err { OnErr result (rooms.new.items ≡ rooms.old.items) }
{
    rooms.push(room)?;
    Ok(())
}

/// Writes the pairs into cells that were given back, or behind all cells, and tells their room.
fn put(cells: &mut Vec<Placed>, freed: &mut Freed, pairs: &[Placed]) -> Result<Room, Memory>
    requires { AreThere cells.old.items }
    ensures put { IfOk result (λ room. IsPut cells.old.items cells.new.items pairs.now room) }
    ensures err { OnErr result (cells.new.items ≡ cells.old.items) }
{
    let again = freed.take(pairs.len()) as usize;
    if is_given_back(cells, again, pairs.len()) {
        let room = room_of(again, pairs.len())?;
        write_at(cells, again, pairs);
        return Ok(room);
    }
    let room = room_of(cells.len(), pairs.len())?;
    cells.extend_from_slice(pairs)?;
    Ok(room)
}

/// Writes the pairs over the cells from this one on.
fn write_at(cells: &mut Vec<Placed>, start: usize, pairs: &[Placed])
    requires { start + length pairs.now ≤ length cells.old.items }
    ensures { HasWritten cells.old.items cells.new.items start pairs.now }
{
    cells[start..start + pairs.len()].copy_from_slice(pairs);
}

/// Whether a list of so many pairs that was given back begins at this cell.
fn is_given_back(cells: &[Placed], start: usize, count: usize) -> bool
    requires { AreThere cells.now }
    ensures { IsTrue result → AreGivenBack cells.now start count }
{
    let Some(cell) = cells.get(start) else {
        return false;
    };
    if cell.var != NO_VAR {
        return false;
    }
    cell.place as usize == count
}

/// Marks the cells of a list of this length as given back.
fn give_back(cells: &mut Vec<Placed>, start: usize, len: u16)
    requires { start + len ≤ length cells.old.items }
    ensures { HasGivenBack cells.old.items cells.new.items start len }
{
    if len > 0 {
        cells[start] = Placed {
            var: NO_VAR,
            place: len,
        };
    }
}
