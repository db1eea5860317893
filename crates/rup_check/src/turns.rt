//! The clauses that watch a literal, once it is false.
ghost use Rattle.rup_check.specs.Kept.{clauses_of, AreWatched, LooksAt, Visits};
ghost use Rattle.std.specs.Prelude.{◌≡◌, ◌≢◌, ◌<◌, ◌≤◌, ◌+◌, ◌-◌, [], ◌++◌, length, true, false, not, OnOk, IfOk, MatchOption, slice_set, slice_index_or};
ghost use Rattle.std.specs.List.{All};
ghost use Rattle.rup_check.specs.Assignments.{flipped, Has, IsAssignment};
ghost use Rattle.rup_check.specs.Sets.{KeepsSound, Grows};
ghost use Rattle.rup_check.specs.Watches.{IsTurn, IsOther, IsPairOf, IsEntry, IsClean, Extends};
ghost use Rattle.rup_check.specs.Stored.{IsPlace, places};

use crate::assignment::{Assignment, open_before};
use crate::places::{Known, flipped};
use crate::watches::{WatchedPair, Watches, hint_of, push_to};
use dcsp_common::{ItemList, Memory};
use std::alloc::Global;
use std::mem;

/// What is to be done with a clause of the list of a literal that became false.
#[derive(Clone, Copy, Debug)]
pub enum Turn {
    /// It does not watch the literal.
    Drop,
    /// The other watched literal is true.
    Stay,
    /// It watches the other and the literal at this place from now on.
    Move { other: u16, to: u16, at: u16 },
    /// The other is forced.
    Force { other: u16 },
    /// Each literal is false.
    Conflict,
}

/// What becomes of a clause of the list of a literal that became false.
#[derive(Clone, Copy, Debug)]
pub enum Look {
    /// It stays in the list.
    Stays,
    /// It leaves the list.
    Leaves,
    /// Each of its literals is false.
    IsFalse,
}

/// The other literal of a pair that watches this one. Which of the two it is, no jump tells: none could be foretold.
#[inline(always)]
fn other_of(pair: WatchedPair, literal: u16) -> Option<u16>
    requires first { IsPlace pair.first }
    requires second { IsPlace pair.second }
    ensures { MatchOption result ((pair.first ≢ literal) × (pair.second ≢ literal)) (IsOther pair literal) }
{
    let other = if pair.first == literal {
        pair.second
    } else {
        pair.first
    };
    let this = pair.first + pair.second - other;
    if this != literal {
        return None;
    }
    Some(other)
}

/// What is to be done with a clause of the list of `literal`, which is false.
fn turn_of(
    known: &Known,
    number: usize,
    pair: WatchedPair,
    literal: u16,
    assignment: &Assignment,
) -> Turn
    requires in_range { number < length (clauses_of known.now) }
    requires size { length assignment.now.marks.items ≡ places }
    requires pair { IsPairOf (slice_index_or (clauses_of known.now) number []) pair }
    ensures { IsTurn assignment.now.marks.items (slice_index_or (clauses_of known.now) number []) pair literal result }
{
    let Some(other) = other_of(pair, literal) else {
        return Turn::Drop;
    };
    if assignment.has(other) {
        return Turn::Stay;
    }
    let clause = known.clause(number);
    match open_before(&assignment.marks, clause, other, pair.at as usize) {
        Some(place) => Turn::Move {
            other,
            to: clause[place],
            at: hint_of(place),
        },
        None => {
            if assignment.has(flipped(other)) {
                Turn::Conflict
            } else {
                Turn::Force { other }
            }
        }
    }
}

/// Takes the list of a literal.
fn take_list(alloc: Global, lists: &mut Vec<ItemList<u32>>, literal: u16) -> Vec<u32>
    requires in_range { literal < length lists.old.items }
    ensures taken { result.items ≡ slice_index_or lists.old.items literal [] }
    ensures left { lists.new.items ≡ slice_set lists.old.items literal [] }
{
    mem::replace(&mut lists[literal as usize], ItemList::new(alloc)).into_vec()
}

/// Puts the list of a literal back.
fn put_list(lists: &mut Vec<ItemList<u32>>, literal: u16, list: Vec<u32>)
    requires in_range { literal < length lists.old.items }
    ensures { lists.new.items ≡ slice_set lists.old.items literal list.items }
{
    lists[literal as usize] = ItemList::from_vec(list);
}

/// Looks at a clause of the list of `literal`, which is false and whose list was taken out.
fn take_turn(
    known: &Known,
    watches: &mut Watches,
    number: u32,
    literal: u16,
    assignment: &mut Assignment,
) -> Result<Look, Memory>
    requires entry { IsEntry (clauses_of known.now) watches.old.pairs.items number }
    requires counted { length watches.old.pairs.items ≡ length (clauses_of known.now) }
    requires sized { length watches.old.lists.items ≡ places }
    requires small { IsPlace literal }
    requires assigned { IsAssignment assignment.old.marks.items assignment.old.trail.items }
    requires clean { IsClean assignment.old.marks.items }
    requires false_ { Has assignment.old.marks.items (flipped literal) }
    ensures assigned { OnOk result (IsAssignment assignment.new.marks.items assignment.new.trail.items) }
    ensures clean { OnOk result (IsClean assignment.new.marks.items) }
    ensures grows { OnOk result (Grows assignment.old.marks.items assignment.new.marks.items) }
    ensures sound { OnOk result (KeepsSound (clauses_of known.now) assignment.old.marks.items assignment.new.marks.items) }
    ensures taken { IfOk result (LooksAt (clauses_of known.now) number literal watches.old assignment.old.marks.items watches.new assignment.new.marks.items) }
    ensures out { OnOk result (slice_index_or watches.new.lists.items literal [] ≡ slice_index_or watches.old.lists.items literal []) }
    ensures trail { OnOk result (Extends assignment.old.trail.items assignment.new.trail.items) }
    ensures refuted { watches.new.refuted ≡ watches.old.refuted }
{
    let clause = number as usize;
    match turn_of(known, clause, watches.pair(clause), literal, assignment) {
        Turn::Drop => Ok(Look::Leaves),
        Turn::Stay => Ok(Look::Stays),
        Turn::Move { other, to, at } => {
            watches.pairs[clause] = WatchedPair {
                first: other,
                second: to,
                at,
            };
            push_to(&mut watches.lists, to, number)?;
            Ok(Look::Leaves)
        }
        Turn::Force { other } => {
            assignment.add(other)?;
            Ok(Look::Stays)
        }
        Turn::Conflict => {
            watches.last = clause;
            Ok(Look::IsFalse)
        }
    }
}

/// Looks at the list of `literal`, which became false: whether a clause is false.
pub(crate) fn visit(
    alloc: Global,
    known: &Known,
    watches: &mut Watches,
    literal: u16,
    assignment: &mut Assignment,
) -> Result<bool, Memory>
    requires state { AreWatched (clauses_of known.now) watches.old assignment.old.marks.items [] }
    requires small { IsPlace literal }
    requires assigned { IsAssignment assignment.old.marks.items assignment.old.trail.items }
    requires clean { IsClean assignment.old.marks.items }
    requires false_ { Has assignment.old.marks.items (flipped literal) }
    ensures assigned { OnOk result (IsAssignment assignment.new.marks.items assignment.new.trail.items) }
    ensures clean { OnOk result (IsClean assignment.new.marks.items) }
    ensures grows { OnOk result (Grows assignment.old.marks.items assignment.new.marks.items) }
    ensures sound { OnOk result (KeepsSound (clauses_of known.now) assignment.old.marks.items assignment.new.marks.items) }
    ensures visited { IfOk result (Visits (clauses_of known.now) literal watches.old assignment.old.marks.items watches.new assignment.new.marks.items) }
    ensures trail { OnOk result (Extends assignment.old.trail.items assignment.new.trail.items) }
    ensures refuted { watches.new.refuted ≡ watches.old.refuted }
{
    let mut list = take_list(alloc, &mut watches.lists, literal);
    let mut left = list.len();
    while left > 0 {
        left -= 1;
        let number = list[left];
        match take_turn(known, watches, number, literal, assignment)? {
            Look::Stays => {}
            Look::Leaves => {
                list.swap_remove(left);
            }
            Look::IsFalse => {
                put_list(&mut watches.lists, literal, list);
                return Ok(true);
            }
        }
    }
    put_list(&mut watches.lists, literal, list);
    Ok(false)
}
