//! Unit propagation by watched literals.
ghost use Rattle.rup_check.specs.Kept.{all_of, clauses_of, more_of, AreWatched, Rests, IsReady, Runs};
ghost use Rattle.std.specs.Prelude.{◌≡◌, ◌<◌, ◌≤◌, ◌+◌, ◌-◌, ◌^◌, [], ◌++◌, length, take, true, false, OnOk, IfOk, slice_index_or};
ghost use Rattle.std.specs.List.{All};
ghost use Rattle.rup_check.specs.Assignments.{flipped, IsAssignment};
ghost use Rattle.rup_check.specs.Looks.{IsUnit};
ghost use Rattle.rup_check.specs.Found.{is_good, HasFalseAt, IsFoundAt, IsFound};
ghost use Rattle.rup_check.specs.Sets.{KeepsSound, Grows};
ghost use Rattle.rup_check.specs.Watches.{IsClean, Extends};
ghost use Rattle.rup_check.specs.Stored.{IsPlace, places};

use crate::assignment::{Assignment, begin, first_open, undo};
use crate::places::{Known, flipped};
use crate::turns::visit;
use crate::watches::{ClauseState, Watches, kind_of};
use dcsp_common::Memory;
use std::alloc::Global;

/// Looks at the lists of the negations of what stands on the trail from this place on: whether a clause is false.
fn run(
    alloc: Global,
    known: &Known,
    watches: &mut Watches,
    from: usize,
    assignment: &mut Assignment,
) -> Result<bool, Memory>
    requires from { from ≤ length assignment.old.trail.items }
    requires state { AreWatched (clauses_of known.now) watches.old assignment.old.marks.items (take from assignment.old.trail.items) }
    requires assigned { IsAssignment assignment.old.marks.items assignment.old.trail.items }
    requires clean { IsClean assignment.old.marks.items }
    ensures assigned { OnOk result (IsAssignment assignment.new.marks.items assignment.new.trail.items) }
    ensures grows { OnOk result (Grows assignment.old.marks.items assignment.new.marks.items) }
    ensures sound { OnOk result (KeepsSound (clauses_of known.now) assignment.old.marks.items assignment.new.marks.items) }
    ensures ran { IfOk result (Runs (clauses_of known.now) from watches.old assignment.old watches.new assignment.new) }
    ensures trail { OnOk result (Extends assignment.old.trail.items assignment.new.trail.items) }
    ensures refuted { watches.new.refuted ≡ watches.old.refuted }
{
    let mut head = from;
    while head < assignment.trail.len() {
        let literal = assignment.literal(head);
        let negation = flipped(literal);
        if visit(alloc, known, watches, negation, assignment)? {
            return Ok(true);
        }
        head += 1;
    }
    Ok(false)
}

/// What is found of a clause.
#[derive(Clone, Copy, Debug)]
pub enum Found {
    /// It lacks the property.
    Lacks,
    /// It has the property.
    Has,
    /// It has the property, and a known clause has no literals but its own and those that the known clauses make
    /// false by themselves. So it is never needed.
    Covered,
}

impl Found {
    /// Whether the clause has the property.
    pub(crate) fn is_good(self) -> bool
        ensures { result ≡ is_good self }
    {
        match self {
            Found::Lacks => false,
            Found::Has | Found::Covered => true,
        }
    }
}

/// Whether the clause that was found false last is false by what is in the set.
fn is_still_false(known: &Known, watches: &Watches, assignment: &Assignment) -> bool
    requires counted { length watches.now.pairs.items ≡ length (clauses_of known.now) }
    requires size { length assignment.now.marks.items ≡ places }
    ensures { result ≡ true → HasFalseAt (clauses_of known.now) assignment.now.marks.items }
{
    let last = watches.last;
    if last >= watches.pairs.len() {
        return false;
    }
    match first_open(&assignment.marks, known.clause(last)) {
        Some(_) => false,
        None => true,
    }
}

/// What is found of a clause where propagation came to a conflict or not. What came after the first `begun` literals
/// is taken out of the set.
fn found_of(
    known: &Known,
    watches: &Watches,
    conflict: bool,
    begun: usize,
    assignment: &mut Assignment,
) -> Found
    requires counted { length watches.now.pairs.items ≡ length (clauses_of known.now) }
    requires assigned { IsAssignment assignment.old.marks.items assignment.old.trail.items }
    requires within { begun ≤ length assignment.old.trail.items }
    ensures found { IsFoundAt (clauses_of known.now) assignment.new.marks.items conflict result }
    ensures assigned { IsAssignment assignment.new.marks.items assignment.new.trail.items }
    ensures trail { assignment.new.trail.items ≡ take begun assignment.old.trail.items }
{
    undo(assignment, begun);
    if !conflict {
        return Found::Lacks;
    }
    if is_still_false(known, watches, assignment) {
        return Found::Covered;
    }
    Found::Has
}

/// What is found of the clause, where the known clauses have no conflict by themselves.
fn has_conflict(
    alloc: Global,
    known: &Known,
    clause: &[u16],
    watches: &mut Watches,
    assignment: &mut Assignment,
) -> Result<Found, Memory>
    requires small { All IsPlace clause.now }
    requires rests { Rests (clauses_of known.now) watches.old assignment.old }
    ensures found { IfOk result (IsFound (clauses_of known.now) assignment.new.trail.items clause.now) }
    ensures rests { OnOk result (Rests (clauses_of known.now) watches.new assignment.new) }
    ensures refuted { watches.new.refuted ≡ watches.old.refuted }
{
    let from = assignment.trail.len();
    if begin(clause, assignment)? {
        undo(assignment, from);
        return Ok(Found::Has);
    }
    let begun = assignment.trail.len();
    let conflict = run(alloc, known, watches, from, assignment)?;
    let found = found_of(known, watches, conflict, begun, assignment);
    undo(assignment, from);
    Ok(found)
}

/// What is found of the clause.
#[tactic(auto, using(crate::proofs::EndLaws::answer_refuted))]
pub(crate) fn has_property(
    alloc: Global,
    known: &Known,
    clause: &[u16],
    watches: &mut Watches,
    assignment: &mut Assignment,
) -> Result<Found, Memory>
    requires small { All IsPlace clause.now }
    requires ready { IsReady (clauses_of known.now) watches.old assignment.old }
    ensures found { IfOk result (IsFound (clauses_of known.now) assignment.new.trail.items clause.now) }
    ensures ready { OnOk result (IsReady (clauses_of known.now) watches.new assignment.new) }
{
    if watches.refuted {
        return Ok(Found::Has);
    }
    let found = has_conflict(alloc, known, clause, watches, assignment)?;
    Ok(found)
}

/// Forces the one literal of the next clause that is not false.
fn add_unit(
    alloc: Global,
    known: &Known,
    watches: &mut Watches,
    literal: u16,
    assignment: &mut Assignment,
) -> Result<(), Memory>
    requires next { known.now.count < length (all_of known.now) }
    requires fits { length (all_of known.now) < 2 ^ 64 }
    requires unit { IsUnit assignment.old.marks.items (slice_index_or (all_of known.now) known.now.count []) literal }
    requires rests { Rests (clauses_of known.now) watches.old assignment.old }
    ensures { OnOk result (IsReady (more_of known.now) watches.new assignment.new) }
{
    let from = assignment.trail.len();
    watches.add_none()?;
    assignment.add(literal)?;
    let more = Known {
        formula: known.formula,
        proof: known.proof,
        count: known.count + 1,
    };
    let refuted = run(alloc, &more, watches, from, assignment)?;
    watches.refuted = refuted;
    Ok(())
}

/// Watches the next clause.
pub(crate) fn add_clause(
    alloc: Global,
    known: &Known,
    watches: &mut Watches,
    assignment: &mut Assignment,
) -> Result<(), Memory>
    requires next { known.now.count < length (all_of known.now) }
    requires fits { length (all_of known.now) < 2 ^ 64 }
    requires ready { IsReady (clauses_of known.now) watches.old assignment.old }
    ensures { OnOk result (IsReady (more_of known.now) watches.new assignment.new) }
{
    if watches.refuted {
        return Ok(());
    }
    match kind_of(assignment, known.any(known.count)) {
        ClauseState::IsTrue => {
            watches.add_none()?;
            Ok(())
        }
        ClauseState::IsFalse => {
            watches.refuted = true;
            Ok(())
        }
        ClauseState::Unit(literal) => {
            add_unit(alloc, known, watches, literal, assignment)?;
            Ok(())
        }
        ClauseState::Long(pair) => {
            watches.add_pair(pair)?;
            Ok(())
        }
    }
}

/// The next clause is known from now on, of which this was found. One that is covered is not watched.
pub(crate) fn add_found(
    alloc: Global,
    known: &Known,
    found: Found,
    watches: &mut Watches,
    assignment: &mut Assignment,
) -> Result<(), Memory>
    requires next { known.now.count < length (all_of known.now) }
    requires fits { length (all_of known.now) < 2 ^ 64 }
    requires ready { IsReady (clauses_of known.now) watches.old assignment.old }
    requires found { IsFound (clauses_of known.now) assignment.old.trail.items (slice_index_or (all_of known.now) known.now.count []) found }
    ensures { OnOk result (IsReady (more_of known.now) watches.new assignment.new) }
{
    match found {
        Found::Covered => {
            watches.add_none()?;
            Ok(())
        }
        Found::Lacks | Found::Has => {
            add_clause(alloc, known, watches, assignment)?;
            Ok(())
        }
    }
}
