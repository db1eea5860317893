//! The nogoods that a checker keeps.

ghost use Rattle.std.specs.Prelude.{◌≡◌, ◌↔◌, ◌++◌, ◌∷◌, [], ◌<◌, ◌≤◌, ◌^◌, ◌+◌, ◌||◌, ℕ, None, Some, Option, List, IsTrue, IfSome, IsNone, OnOk, OnErr, length, is_some, All, true, false, if◌then◌else◌, ◌==◌, slice_index_or};
ghost use Rattle.std.specs.List.{list_any};
ghost use Rattle.dcsp_defs.specs.Csp.{with_value};
ghost use Rattle.dcsp_rule.specs.Problems.{csp_of};
ghost use Rattle.ngd_check.specs.Citing.{AgreesWith};
ghost use Rattle.ngd_check.specs.Places.{ArePlaced, IsListOf, IsNumber, list_at};
ghost use Rattle.ngd_store.specs.declared.arena.TheConstants.{NO_VAR};
ghost use Rattle.ngd_check.specs.Progress.{kept_at, AreDropped};

use crate::cites::Cites;
use crate::given::Given;
use crate::kept_steps::KeptSteps;
use dcsp_common::Memory;
use dcsp_problem::{Lookup, Problem};
use ngd_log::LentStep;
use ngd_store::{Arena, Placed, Rests};
use std::alloc::Global;
use std::marker::Model;

/// The nogoods of steps, numbered from 1, but for those that were dropped; and the steps, where they are kept.
///
/// Where steps are kept nothing is given back: a nogood that is dropped is marked, at a byte for each step once
/// there is a mark.
#[derive(Drop)]
pub struct Kept<'p> {
    pub problem: &'p Problem,
    keeps: bool,
    lists: Arena,
    dropped: Vec<bool>,
    rests: Rests,
}

impl<'p> Model for Kept<'p> {
    ghost use Rattle.dcsp_rule.specs.Problems.{csp_of};
    ghost use Rattle.ngd_check.specs.Places.{KeptFor, kept_for, AreStored};

    ghost Value = { KeptFor };

    ghost view = { λ kept. kept_for kept.problem.now kept.lists kept.dropped.items kept.rests kept.keeps };

    ghost invariant = { λ kept. AreStored (csp_of kept.problem.now) kept.lists kept.dropped.items kept.rests kept.keeps };
}

impl<'p> Kept<'p> {
    /// No nogood. It takes no memory. Where `keeps` is set, steps are kept.
    pub fn new(alloc: Global, problem: &'p Problem, keeps: bool) -> Kept<'p>
        ensures problem { result.problem ≡ problem.now }
        ensures nogoods { result.nogoods ≡ [] }
        ensures keeps { result.keeps ≡ keeps }
        ensures steps { result.steps ≡ [] }
    {
        Kept {
            problem,
            keeps,
            lists: Arena::new(alloc),
            dropped: Vec::new(alloc),
            rests: Rests::new(alloc),
        }
    }

    /// The problem whose nogoods they are.
    pub fn problem(&self) -> &'p Problem
        ensures { result.now ≡ self.now.problem }
    {
        self.problem
    }

    /// Of how many steps a nogood was kept.
    pub fn len(&self) -> u64
        ensures len { result ≡ length self.now.nogoods }
        ensures small { result < 2 ^ 63 }
    {
        self.lists.len() as u64
    }

    /// Keeps a copy of the nogood of the next step, which has these places; and of the step, where steps are kept.
    /// After a refusal nothing has changed.
    pub fn push(&mut self, placed: &[Placed], step: &LentStep<'_>) -> Result<(), Memory>
        requires { ArePlaced (csp_of self.old.problem) step.now.nogood placed.now }
        ensures problem { self.new.problem ≡ self.old.problem }
        ensures keeps { self.new.keeps ≡ self.old.keeps }
        ensures ok { OnOk result (self.new.nogoods ≡ self.old.nogoods ++ Some step.now.nogood ∷ []) }
        ensures all { self.old.keeps ≡ true → OnOk result (self.new.steps ≡ self.old.steps ++ step.now ∷ []) }
        ensures none { self.old.keeps ≡ false → self.new.steps ≡ self.old.steps }
        ensures err { OnErr result (self.new ≡ self.old) }
    {
        if self.keeps {
            push_both(&mut self.lists, &mut self.rests, placed, step)
        } else {
            self.lists.push(placed)
        }
    }

    /// Whether the nogood of the step with this number is kept.
    pub fn has(&self, number: u64) -> bool
        ensures { result ≡ is_some (kept_at self.now.nogoods number) }
    {
        self.list(number).is_some()
    }

    /// The pairs of the nogood of the step with this number, if it is kept.
    fn list(&self, number: u64) -> Option<&[Placed]>
        ensures some { IfSome result (λ placed. IsListOf self.now (kept_at self.now.nogoods number) placed.now) }
        ensures none { IsNone result → kept_at self.now.nogoods number ≡ None }
    {
        if number == 0 {
            return None;
        }
        let place = number as usize - 1;
        if is_marked(&self.dropped, place) {
            return None;
        }
        self.lists.get(place)
    }

    /// Whether the nogood of the step with each of these numbers is kept.
    pub fn has_each(&self, numbers: &[u64]) -> bool
        ensures { IsTrue result ↔ All (λ number. is_some (kept_at self.now.nogoods number) ≡ true) numbers.now }
    {
        for number in numbers {
            if !self.has(*number) {
                return false;
            }
        }
        true
    }

    /// Drops the nogoods of the steps with these numbers. After a refusal nothing has changed.
    pub fn drop_each(&mut self, numbers: &[u64]) -> Result<(), Memory>
        requires { All (λ number. is_some (kept_at self.old.nogoods number) ≡ true) numbers.now }
        ensures problem { self.new.problem ≡ self.old.problem }
        ensures keeps { self.new.keeps ≡ self.old.keeps }
        ensures count { length self.new.nogoods ≡ length self.old.nogoods }
        ensures steps { self.new.steps ≡ self.old.steps }
        ensures dropped { OnOk result (AreDropped numbers.now self.old.nogoods self.new.nogoods) }
        ensures err { OnErr result (self.new ≡ self.old) }
    {
        if self.keeps {
            mark_each(&mut self.dropped, self.lists.len(), numbers)
        } else {
            clear_each(&mut self.lists, numbers);
            Ok(())
        }
    }

    /// The steps that are kept.
    pub fn into_steps(self) -> KeptSteps<'p>
        ensures { result ≡ self.entry.steps }
    {
        KeptSteps::of(self.problem, self.lists, self.rests)
    }
}

/// Adds the list of the next step, and what else the step has. After a refusal nothing has changed.
fn push_both(
    lists: &mut Arena,
    rests: &mut Rests,
    placed: &[Placed],
    step: &LentStep<'_>,
) -> Result<(), Memory>
    requires { All (λ pair. pair.var < NO_VAR) placed.now }
    ensures lists { OnOk result (lists.new ≡ lists.old ++ Some placed.now ∷ []) }
    ensures rests { OnOk result (rests.new ≡ rests.old ++ record { variable = step.now.variable; reasons = step.now.reasons } ∷ []) }
    ensures same_lists { OnErr result (lists.new ≡ lists.old) }
    ensures same_rests { OnErr result (rests.new ≡ rests.old) }
{
    rests.push(step.variable(), step.reasons())?;
    match lists.push(placed) {
        Ok(()) => Ok(()),
        Err(memory) => {
            rests.pop();
            Err(memory)
        }
    }
}

/// Whether the place is marked.
fn is_marked(marks: &[bool], place: usize) -> bool
    ensures { result ≡ slice_index_or marks.now place false }
{
    match marks.get(place) {
        Some(mark) => *mark,
        None => false,
    }
}

/// Marks the places of these numbers, which count from 1, among so many. After a refusal nothing has changed.
fn mark_each(marks: &mut Vec<bool>, count: usize, numbers: &[u64]) -> Result<(), Memory>
    requires few { length marks.old.items ≤ count }
    requires numbers { All (λ number. IsNumber count number) numbers.now }
    ensures count { OnOk result (length marks.new.items ≡ count) }
    ensures marked { OnOk result ((k : ℕ) → slice_index_or marks.new.items k false ≡ (list_any (λ number. k + 1 == number) numbers.now || slice_index_or marks.old.items k false)) }
    ensures err { OnErr result (marks.new.items ≡ marks.old.items) }
{
    marks.resize(count, false)?;
    mark_all(marks, numbers);
    Ok(())
}

fn mark_all(marks: &mut [bool], numbers: &[u64])
    requires { All (λ number. IsNumber (length marks.old) number) numbers.now }
    ensures count { length marks.new ≡ length marks.old }
    ensures marked { (k : ℕ) → slice_index_or marks.new k false ≡ (list_any (λ number. k + 1 == number) numbers.now || slice_index_or marks.old k false) }
{
    for number in numbers {
        marks[*number as usize - 1] = true;
    }
}

/// Gives back the lists with these numbers, which count from 1.
fn clear_each(lists: &mut Arena, numbers: &[u64])
    requires { All (λ number. IsNumber (length lists.old) number) numbers.now }
    ensures lists { length lists.new ≡ length lists.old }
    ensures cleared { (number : ℕ) → list_at lists.new number ≡ (if list_any (λ cleared. number == cleared) numbers.now then None else list_at lists.old number) }
{
    for number in numbers {
        lists.clear(*number as usize - 1);
    }
}

impl Cites for Kept<'_> {
    ghost cited = { λ kept. kept_at kept.nogoods };

    fn agrees<L: Lookup>(&self, number: u64, given: &Given<L>) -> bool {
        match self.list(number) {
            Some(placed) => given.agrees_at(self.problem, placed),
            None => false,
        }
    }
}
