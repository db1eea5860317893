//! The literals that are true so far, with the trail of those that were made true.
ghost use Rattle.std.specs.Prelude.{◌≡◌, ◌≢◌, ◌<◌, ◌≤◌, ◌-◌, [], ◌∷◌, ◌++◌, length, map, take, true, false, not, OnOk, IfOk, IfSome, MatchOption, slice_set, slice_index_or};
ghost use Rattle.std.specs.List.{All};
ghost use Rattle.rup_check.specs.Propagation.{IsFalsified};
ghost use Rattle.rup_check.specs.Assignments.{flipped, Has, IsAssignment};
ghost use Rattle.rup_check.specs.Sets.{IsBeginning, IsPut};
ghost use Rattle.rup_check.specs.Looks.{IsOpen, IsOtherOpen, IsClosedBetween, OthersFalse, SaysTrue};
ghost use Rattle.rup_check.specs.Watches.{IsClean, Extends};
ghost use Rattle.rup_check.specs.Stored.{IsPlace, places};

use crate::places::{LAST_PLACE, flipped};
use dcsp_common::Memory;
use std::alloc::Global;

/// A set of literals.
#[derive(Drop)]
pub struct Assignment {
    /// For each literal whether it is in the set.
    pub marks: Vec<bool>,
    /// The literals in the order in which they came.
    pub trail: Vec<u16>,
}

impl Assignment {
    /// The empty set.
    #[tactic(auto, using(crate::proofs::EndLaws::fresh))]
    pub(crate) fn new(alloc: Global) -> Result<Assignment, Memory>
        ensures assigned { IfOk result (λ a. IsAssignment a.marks.items a.trail.items) }
        ensures empty { IfOk result (λ a. a.trail.items ≡ []) }
    {
        let marks = vec![in alloc; false; LAST_PLACE as usize + 1]?;
        Ok(Assignment {
            marks,
            trail: Vec::new(alloc),
        })
    }

    /// Whether the literal is in the set.
    pub(crate) fn has(&self, literal: u16) -> bool
        requires { literal < length self.now.marks.items }
        ensures { result ≡ slice_index_or self.now.marks.items literal false }
    {
        self.marks[literal as usize]
    }

    /// The literal that came at this place.
    pub(crate) fn literal(&self, place: usize) -> u16
        requires { place < length self.now.trail.items }
        ensures { result ≡ slice_index_or self.now.trail.items place 0 }
    {
        self.trail[place]
    }

    /// Adds a literal that is not in the set.
    pub(crate) fn add(&mut self, literal: u16) -> Result<(), Memory>
        requires small { IsPlace literal }
        requires assigned { IsAssignment self.old.marks.items self.old.trail.items }
        requires absent { Has self.old.marks.items literal → ⊥ }
        ensures marks { OnOk result (self.new.marks.items ≡ slice_set self.old.marks.items literal true) }
        ensures trail { OnOk result (self.new.trail.items ≡ self.old.trail.items ++ literal ∷ []) }
        ensures assigned { OnOk result (IsAssignment self.new.marks.items self.new.trail.items) }
    {
        self.trail.push(literal)?;
        self.marks[literal as usize] = true;
        Ok(())
    }

    /// Adds a literal if it is not in the set.
    pub(crate) fn put(&mut self, literal: u16) -> Result<(), Memory>
        requires small { IsPlace literal }
        requires assigned { IsAssignment self.old.marks.items self.old.trail.items }
        ensures put { OnOk result (IsPut self.old.marks.items self.new.marks.items literal) }
        ensures trail { OnOk result (Extends self.old.trail.items self.new.trail.items) }
        ensures assigned { OnOk result (IsAssignment self.new.marks.items self.new.trail.items) }
    {
        if self.marks[literal as usize] {
            return Ok(());
        }
        self.add(literal)
    }
}

/// Whether a literal of the clause is true.
#[tactic(auto, using(crate::proofs::MarkLaws::none_from_index))]
pub(crate) fn has_true(marks: &[bool], clause: &[u16]) -> bool
    requires size { length marks.now ≡ places }
    requires small { All IsPlace clause.now }
    ensures { SaysTrue marks.now clause.now result }
{
    for literal in clause {
        if marks[*literal as usize] {
            return true;
        }
    }
    false
}

/// The first literal of the clause that is not false.
#[tactic(auto, using(crate::proofs::MarkLaws::falsified_from_index))]
pub(crate) fn first_open(marks: &[bool], clause: &[u16]) -> Option<u16>
    requires size { length marks.now ≡ places }
    requires small { All IsPlace clause.now }
    ensures { MatchOption result (IsFalsified flipped (Has marks.now) clause.now) (IsOpen marks.now clause.now) }
{
    for literal in clause {
        if !marks[flipped(*literal) as usize] {
            return Some(*literal);
        }
    }
    None
}

/// The first literal of the clause that is not false, and is not this one.
#[tactic(auto, using(crate::proofs::MarkLaws::others_from_index))]
pub(crate) fn other_open(marks: &[bool], clause: &[u16], but: u16) -> Option<u16>
    requires size { length marks.now ≡ places }
    requires small { All IsPlace clause.now }
    ensures cases { MatchOption result (OthersFalse marks.now clause.now but) (IsOpen marks.now clause.now) }
    ensures other { IfSome result (λ x. x ≢ but) }
{
    for literal in clause {
        if *literal != but && !marks[flipped(*literal) as usize] {
            return Some(*literal);
        }
    }
    None
}

/// The last place from `low` on and below `high` whose literal is not false, and is not this one.
fn last_open(marks: &[bool], clause: &[u16], but: u16, low: usize, high: usize) -> Option<usize>
    requires size { length marks.now ≡ places }
    requires small { All IsPlace clause.now }
    requires order { low ≤ high }
    requires within { high ≤ length clause.now }
    ensures { MatchOption result (IsClosedBetween marks.now clause.now but low high) (IsOtherOpen marks.now clause.now but) }
{
    let mut left = high;
    while left > low {
        left -= 1;
        let literal = clause[left];
        if literal != but && !marks[flipped(literal) as usize] {
            return Some(left);
        }
    }
    None
}

/// A place whose literal is not false, and is not this one. Places before `from` are looked at first, backwards, and
/// then those at the end: where the search for a clause begins at the place that was found for it last, what was found
/// false since then is not looked at again.
#[tactic(auto, using(crate::proofs::MarkLaws::others_from_parts))]
pub(crate) fn open_before(marks: &[bool], clause: &[u16], but: u16, from: usize) -> Option<usize>
    requires size { length marks.now ≡ places }
    requires small { All IsPlace clause.now }
    ensures { MatchOption result (OthersFalse marks.now clause.now but) (IsOtherOpen marks.now clause.now but) }
{
    let middle = from.min(clause.len());
    if let Some(place) = last_open(marks, clause, but, 0, middle) {
        return Some(place);
    }
    last_open(marks, clause, but, middle, clause.len())
}

/// Puts the negations of the clause's literals into the set: whether it stopped at a literal that is in the set.
pub(crate) fn begin(clause: &[u16], assignment: &mut Assignment) -> Result<bool, Memory>
    requires assigned { IsAssignment assignment.old.marks.items assignment.old.trail.items }
    requires clean { IsClean assignment.old.marks.items }
    requires small { All IsPlace clause.now }
    ensures assigned { OnOk result (IsAssignment assignment.new.marks.items assignment.new.trail.items) }
    ensures trail { OnOk result (Extends assignment.old.trail.items assignment.new.trail.items) }
    ensures begun { IfOk result (IsBeginning assignment.old.marks.items clause.now assignment.new.marks.items) }
{
    for literal in clause {
        if assignment.has(*literal) {
            return Ok(true);
        }
        let negation = flipped(*literal);
        assignment.put(negation)?;
    }
    Ok(false)
}

/// Takes the last literal out of the set.
fn take_last(assignment: &mut Assignment)
    requires assigned { IsAssignment assignment.old.marks.items assignment.old.trail.items }
    requires some { 0 < length assignment.old.trail.items }
    ensures assigned { IsAssignment assignment.new.marks.items assignment.new.trail.items }
    ensures trail { assignment.new.trail.items ≡ take (length assignment.old.trail.items - 1) assignment.old.trail.items }
{
    if let Some(literal) = assignment.trail.pop() {
        assignment.marks[literal as usize] = false;
    }
}

/// Takes out of the set what came after the first `count` literals.
pub(crate) fn undo(assignment: &mut Assignment, count: usize)
    requires assigned { IsAssignment assignment.old.marks.items assignment.old.trail.items }
    requires within { count ≤ length assignment.old.trail.items }
    ensures assigned { IsAssignment assignment.new.marks.items assignment.new.trail.items }
    ensures trail { assignment.new.trail.items ≡ take count assignment.old.trail.items }
{
    while assignment.trail.len() > count {
        take_last(assignment);
    }
}
