//! How a run ended, as text.

ghost use Rattle.std.specs.Prelude.{◌≡◌, ℕ, ◌++◌, ◌∷◌, [], length, codes, decimal, OnOk};
ghost use Rattle.dcsp_outside.specs.Outside.{Place, Stream};
ghost use Rattle.dcsp_script.specs.Scripts.{Put, outside};
ghost use Rattle.dcsp_script.specs.Ways.{Wrote};
ghost use Rattle.line_replay.specs.Endings.{counts_text, unused_text};
ghost use Rattle.line_replay.specs.Outcomes.{end_text, outcome_text, outcome_status, HasAllValues};

use crate::solution::push_solution;
use abt_session::{End, IntList, Outcome};
use dcsp_common::push_number;
use dcsp_outside::Sink;
use dcsp_problem::Problem;
use dcsp_script::{Status, Stop, put};
use std::alloc::{AllocError, Global};

/// The status of an end.
pub fn end_status(end: &End<IntList>) -> Status
    ensures { result ≡ outcome_status end.now }
{
    match end {
        End::Solved(_) => Status::Good,
        End::Refuted => Status::No,
        End::Spent | End::Capped => Status::Unfinished,
    }
}

/// Puts how the run ended, in one piece: its solution or what stands in its place, how many deliveries and
/// steps were made, and how many choices are left, where that is told.
pub fn tell<S: Sink>(
    alloc: Global,
    problem: &Problem,
    outcome: &Outcome,
    unused: Option<u64>,
    out: &mut S,
) -> Result<(), Stop>
    requires { HasAllValues problem.now outcome.now.end }
    ensures { (folder : Place) → Wrote (Put (outcome_text problem.now outcome.now ++ unused_text unused) ∷ [])
        (outside folder (S.stream out.old)) (outside folder (S.stream out.new)) result }
{
    let mut text = Vec::new(alloc);
    push_outcome(problem, outcome, unused, &mut text)?;
    put(out, &text)
}

/// Pushes how the run ended: its solution or what stands in its place, how many deliveries and steps were made,
/// and how many choices are left, where that is told.
pub fn push_outcome(
    problem: &Problem,
    outcome: &Outcome,
    unused: Option<u64>,
    into: &mut Vec<u8>,
) -> Result<(), AllocError>
    requires { HasAllValues problem.now outcome.now.end }
    ensures { OnOk result (into.new.items ≡ into.old.items ++ (outcome_text problem.now outcome.now ++ unused_text unused)) }
{
    push_end(problem, &outcome.end, into)?;
    push_counts(outcome.deliveries, outcome.steps, into)?;
    push_unused(unused, into)
}

/// The solution, or the line that stands in its place.
fn push_end(problem: &Problem, end: &End<IntList>, into: &mut Vec<u8>) -> Result<(), AllocError>
    requires { HasAllValues problem.now end.now }
    ensures { OnOk result (into.new.items ≡ into.old.items ++ end_text problem.now end.now) }
{
    match end {
        End::Solved(values) => match push_solution(problem, values.items(), into) {
            Ok(()) => Ok(()),
            Err(_) => Err(AllocError),
        },
        End::Refuted => into.extend_from_slice(b"=====UNSATISFIABLE=====\n"),
        End::Spent | End::Capped => into.extend_from_slice(b"=====UNKNOWN=====\n"),
    }
}

/// Pushes how many deliveries and steps were made.
pub fn push_counts(deliveries: u64, steps: u64, into: &mut Vec<u8>) -> Result<(), AllocError>
    ensures { OnOk result (into.new.items ≡ into.old.items ++ counts_text deliveries steps) }
{
    into.extend_from_slice(b"% deliveries ")?;
    push_number(into, deliveries)?;
    into.extend_from_slice(b"\n% steps ")?;
    push_number(into, steps)?;
    into.extend_from_slice(b"\n")
}

/// How many choices are left, where that is told.
fn push_unused(unused: Option<u64>, into: &mut Vec<u8>) -> Result<(), AllocError>
    ensures { OnOk result (into.new.items ≡ into.old.items ++ unused_text unused) }
{
    let Some(choices) = unused else {
        return Ok(());
    };
    into.extend_from_slice(b"% unused ")?;
    push_number(into, choices)?;
    into.extend_from_slice(b"\n")
}
