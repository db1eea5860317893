//! The steps of a log, kept by a checker.

ghost use Rattle.std.specs.Prelude.{◌≡◌, ◌++◌, ◌∷◌, ◌<◌, ◌^◌, [], None, All, IfOk, OnOk, length, map, slice_index_or};
ghost use Rattle.dcsp_rule.specs.Problems.{csp_of};
ghost use Rattle.ngd_check.specs.Places.{IsPlaced, AreLists, pairs_of, placed_in, steps_in, no_step};

use crate::places::pair_at;
use dcsp_common::Memory;
use dcsp_defs::{Derivation, Nogood, Pair, ReasonList, Step};
use dcsp_problem::Problem;
use ngd_store::{Arena, Placed, Reasons, Rests};
use std::alloc::Global;
use std::marker::Model;

/// The steps of a log, as a checker keeps them: 4 bytes a pair and 14 bytes a step, and for a reason 2, or 6 where it
/// is a step or its rule's number is great. A place counts from 0.
#[derive(Drop)]
pub struct KeptSteps<'p> {
    problem: &'p Problem,
    lists: Arena,
    rests: Rests,
}

impl<'p> Model for KeptSteps<'p> {
    ghost use Rattle.std.specs.Prelude.{List};
    ghost use Rattle.dcsp_defs.specs.declared.Step.{Step};
    ghost use Rattle.dcsp_rule.specs.Problems.{csp_of};
    ghost use Rattle.ngd_check.specs.Places.{steps_in, AreLists};

    ghost Value = { List Step };

    ghost view = { λ kept. steps_in (csp_of kept.problem.now) kept.lists kept.rests };

    ghost invariant = { λ kept. AreLists (csp_of kept.problem.now) kept.lists };
}

impl<'p> KeptSteps<'p> {
    /// The steps whose nogoods are these lists, with their rests.
    pub(crate) fn of(problem: &'p Problem, lists: Arena, rests: Rests) -> KeptSteps<'p>
        requires { AreLists (csp_of problem.now) lists }
        ensures { result ≡ steps_in (csp_of problem.now) lists rests }
    {
        KeptSteps {
            problem,
            lists,
            rests,
        }
    }

    /// No step. It takes no memory.
    pub fn none(alloc: Global, problem: &'p Problem) -> KeptSteps<'p>
        ensures { result ≡ [] }
    {
        KeptSteps::of(problem, Arena::new(alloc), Rests::new(alloc))
    }

    /// The number of steps.
    pub fn len(&self) -> usize
        ensures len { result ≡ length self.now }
        ensures small { result < 2 ^ 63 }
    {
        self.rests.len()
    }

    /// The variable of the step at a place.
    pub fn variable(&self, place: usize) -> Option<u32>
        requires { place < length self.now }
        ensures { result ≡ (slice_index_or self.now place no_step).variable }
    {
        self.rests.variable(place)
    }

    /// The reasons of the step at a place, in order.
    pub fn reasons(&self, place: usize) -> Reasons<'_>
        requires { place < length self.now }
        ensures { result ≡ (slice_index_or self.now place no_step).reasons }
    {
        self.rests.reasons(place)
    }

    /// The nogood of the step at a place.
    pub fn nogood(&self, alloc: Global, place: usize) -> Result<Nogood, Memory>
        requires { place < length self.now }
        ensures { IfOk result (λ nogood. nogood ≡ (slice_index_or self.now place no_step).nogood) }
    {
        let pairs = pairs_at(alloc, self.problem, list_in(&self.lists, place))?;
        // Pairs that were lent rise, so that they make a nogood.
        match Nogood::from_vec(pairs) {
            Ok(nogood) => Ok(nogood),
            Err(_) => Err(Memory),
        }
    }

    /// The step at a place, in lists of its own.
    pub fn step(&self, alloc: Global, place: usize) -> Result<Step, Memory>
        requires { place < length self.now }
        ensures { IfOk result (λ step. step ≡ slice_index_or self.now place no_step) }
    {
        let nogood = self.nogood(alloc, place)?;
        let listed = self.reasons(place).list(alloc)?;
        // That list has room for more reasons than there are.
        let reasons = Vec::from_slice(alloc, &listed)?;
        Ok(Step {
            variable: self.variable(place),
            nogood,
            reasons: ReasonList::from_vec(reasons),
        })
    }

    /// The same steps, each in lists of its own.
    pub fn derivation(&self, alloc: Global) -> Result<Derivation, Memory>
        ensures { IfOk result (λ steps. steps ≡ self.now) }
    {
        let mut steps = Derivation::new(alloc);
        for place in 0..self.len() {
            push_step(&mut steps, self.step(alloc, place)?)?;
        }
        Ok(steps)
    }
}

fn push_step(steps: &mut Derivation, step: Step) -> Result<(), Memory>
    ensures { OnOk result (steps.new ≡ steps.old ++ step ∷ []) }
{
    let Ok(()) = steps.push(step) else {
        return Err(Memory);
    };
    Ok(())
}

/// The list at a place, without pairs where it was given back.
fn list_in(lists: &Arena, place: usize) -> &[Placed]
    ensures { result.now ≡ placed_in (slice_index_or lists.now place None) }
{
    match lists.get(place) {
        Some(placed) => placed,
        None => &[],
    }
}

/// The pairs that these are with the places of their values.
fn pairs_at(alloc: Global, problem: &Problem, placed: &[Placed]) -> Result<Vec<Pair>, Memory>
    requires { All (IsPlaced (csp_of problem.now)) placed.now }
    ensures { IfOk result (λ pairs. pairs.items ≡ pairs_of (csp_of problem.now) placed.now) }
{
    let mut pairs = Vec::with_capacity(alloc, placed.len())?;
    for one in placed {
        // There is room for as many as there are.
        pairs.push_reserved(pair_at(problem, *one));
    }
    Ok(pairs)
}
