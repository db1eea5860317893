//! The steps that a refutation needs, renumbered.

ghost use Rattle.std.specs.Prelude.{◌≡◌, ◌++◌, ◌∷◌, [], ◌+◌, ◌<◌, ◌≤◌, ℕ, if◌then◌else◌, map, length, slice_index_or, IfOk, OnOk};
ghost use Rattle.ngd_check.specs.Places.{no_step};
ghost use Rattle.ngd_rewrite.specs.Needed.{chosen, count_to, renumbered, renumbered_reason, cites_rule};
ghost use Rattle.ngd_rewrite.specs.Marks.{is_marked, number_in, CiteBack};

use crate::rules::marked_places;
use dcsp_common::{ItemList, Memory};
use ngd_check::KeptSteps;
use ngd_log::{Reason, ReasonList, Step};
use ngd_store::Reasons;
use std::alloc::Global;
use std::marker::Model;

/// Steps that a check kept, but for those that are not needed, renumbered from 1. A place counts from 0.
///
/// It has 4 bytes for each step that was kept, and 4 for each that is needed; the steps are lent. It keeps the allocator
/// that it was made with.
#[derive(Drop)]
pub struct Trimmed<'s, 'p> {
    alloc: Global,
    steps: &'s KeptSteps<'p>,
    /// Where the needed steps stand among all.
    places: ItemList<u32>,
    /// For each step its new number, or where it is not needed that of the one before it that is.
    numbers: Vec<u32>,
}

impl<'s, 'p> Model for Trimmed<'s, 'p> {
    ghost use Rattle.std.specs.Prelude.{List, All, length, ◌<◌};
    ghost use Rattle.dcsp_defs.specs.declared.Step.{Step};
    ghost use Rattle.ngd_rewrite.specs.Marks.{steps_at};

    ghost Value = { List Step };

    ghost view = { λ trimmed. steps_at trimmed.steps.now trimmed.places trimmed.numbers.items };

    ghost invariant = { λ trimmed. All (λ place. place < length trimmed.steps.now) trimmed.places };
}

impl<'s, 'p> Trimmed<'s, 'p> {
    /// Those of the steps that are marked.
    pub(crate) fn of(
        alloc: Global,
        steps: &'s KeptSteps<'p>,
        needed: &[bool],
    ) -> Result<Trimmed<'s, 'p>, Memory>
        requires as_many { length needed.now ≡ length steps.now }
        requires back { CiteBack steps.now }
        ensures { IfOk result (λ trimmed. trimmed ≡ map (renumbered (count_to (is_marked needed.now))) (chosen (is_marked needed.now) 1 steps.now)) }
    {
        if needed.len() > u32::MAX as usize {
            return Err(Memory);
        }
        let places = marked_places(alloc, needed)?;
        let numbers = numbers_of(alloc, needed)?;
        Ok(Trimmed {
            alloc,
            steps,
            places,
            numbers,
        })
    }

    /// The number of steps.
    pub fn len(&self) -> usize
        ensures { result ≡ length self.now }
    {
        self.places.len()
    }

    /// The step at a place, in lists of its own.
    pub fn step(&self, place: usize) -> Result<Step, Memory>
        requires { place < length self.now }
        ensures { IfOk result (λ step. step ≡ slice_index_or self.now place no_step) }
    {
        let place = self.places.items()[place] as usize;
        renumbered_step(self.alloc, self.steps, place, &self.numbers)
    }

    /// The reasons of the step at a place, in order, where the steps among them have their old numbers.
    pub(crate) fn old_reasons(&self, place: usize) -> Reasons<'s>
        requires { place < length self.now }
        ensures { (rule : ℕ) → cites_rule result rule ≡ cites_rule (slice_index_or self.now place no_step).reasons rule }
    {
        self.steps.reasons(self.places.items()[place] as usize)
    }
}

/// For each step how many are marked up to it.
fn numbers_of(alloc: Global, marks: &[bool]) -> Result<Vec<u32>, Memory>
    ensures { IfOk result (λ numbers. (number : ℕ) → number ≤ length marks.now → number_in numbers.items number ≡ count_to (is_marked marks.now) number) }
{
    let Ok(mut numbers) = Vec::with_capacity(alloc, marks.len()) else {
        return Err(Memory);
    };
    let mut count = 0;
    for mark in marks {
        count = count_with(count, *mark)?;
        push_number(&mut numbers, count)?;
    }
    Ok(numbers)
}

/// The count, with one more where there is a mark.
fn count_with(count: u32, mark: bool) -> Result<u32, Memory>
    ensures { IfOk result (λ new. new ≡ count + (if mark then 1 else 0)) }
{
    if !mark {
        return Ok(count);
    }
    match count.checked_add(1) {
        Some(count) => Ok(count),
        None => Err(Memory),
    }
}

fn push_number(numbers: &mut Vec<u32>, number: u32) -> Result<(), Memory>
    ensures { OnOk result (numbers.new.items ≡ numbers.old.items ++ number ∷ []) }
{
    let Ok(()) = numbers.push(number) else {
        return Err(Memory);
    };
    Ok(())
}

/// The step at a place with the new numbers of the steps before it.
fn renumbered_step(
    alloc: Global,
    steps: &KeptSteps<'_>,
    place: usize,
    numbers: &[u32],
) -> Result<Step, Memory>
    requires { place < length steps.now }
    ensures { IfOk result (λ step. step ≡ renumbered (number_in numbers.now) (slice_index_or steps.now place no_step)) }
{
    let variable = steps.variable(place);
    let nogood = steps.nogood(alloc, place)?;
    let mut reasons = steps.reasons(place).list(alloc)?;
    renumber(&mut reasons, numbers);
    Ok(Step {
        variable,
        nogood,
        reasons: ReasonList::from_vec(reasons),
    })
}

/// Gives the steps among the reasons their new numbers.
fn renumber(reasons: &mut [Reason], numbers: &[u32])
    ensures { reasons.new ≡ map (renumbered_reason (number_in numbers.now)) reasons.old }
{
    for place in 0..reasons.len() {
        reasons[place] = renumbered(reasons[place], numbers);
    }
}

/// The reason, with its new number where it is a step.
fn renumbered(reason: Reason, numbers: &[u32]) -> Reason
    ensures { result ≡ renumbered_reason (number_in numbers.now) reason }
{
    match reason {
        Reason::Rule(rule) => Reason::Rule(rule),
        Reason::Earlier(number) => Reason::Earlier(number_in(numbers, number)),
    }
}

/// The new number of the step with this number, 0 where it has none.
fn number_in(numbers: &[u32], number: u64) -> u64
    ensures { result ≡ number_in numbers.now number }
{
    if number == 0 || number > numbers.len() as u64 {
        return 0;
    }
    u64::from(numbers[number as usize - 1])
}
