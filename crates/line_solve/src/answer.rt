//! What a search found, as text.

ghost use Rattle.std.specs.Prelude.{◌≡◌, ◌++◌, [], ◌∷◌, length, codes, decimal, OnOk};
ghost use Rattle.dcsp_outside.specs.Outside.{Place, Stream};
ghost use Rattle.dcsp_script.specs.Scripts.{Put, outside};
ghost use Rattle.dcsp_script.specs.Ways.{Wrote};
ghost use Rattle.line_replay.specs.Solutions.{solution_text};
ghost use Rattle.abt_optimum.specs.Best.{assigned};
ghost use Rattle.line_solve.specs.BestAnswers as answers;
ghost use Rattle.line_solve.specs.BestAnswers.{best_text, last_text, rounds_text};
ghost use Rattle.line_solve.specs.SearchScripts.{line_script, found_script, round_line};
ghost use Rattle.line_replay.specs.Outcomes.{HasAllValues};
ghost use Rattle.line_solve.specs.Runners.{searched_text, HasBestValues};

use abt_optimum::{Best, BestEnd};
use abt_session::{End, IntList};
use dcsp_common::push_number;
use dcsp_outside::Sink;
use dcsp_problem::Problem;
use dcsp_script::{Status, Stop, put};
use line_replay::{push_counts, push_solution};
use std::alloc::{AllocError, Global};

/// What a search found, and how much work it was.
#[derive(Debug, Drop)]
pub struct Searched {
    pub best: Best,
    /// How many deliveries all rounds made.
    pub deliveries: u64,
    /// How many steps the last round made.
    pub steps: u64,
}

/// The status of what was found.
pub fn best_status(end: &BestEnd) -> Status
    ensures { result ≡ answers.best_status end.now }
{
    match end {
        BestEnd::Optimal(_) => Status::Good,
        BestEnd::NoSolution => Status::No,
        BestEnd::Open(_) => Status::Unfinished,
    }
}

/// Puts the line of the round with this number, where traces are asked for.
pub fn put_round<S: Sink>(alloc: Global, trace: bool, number: u64, out: &mut S) -> Result<(), Stop>
    ensures { (folder : Place) → Wrote (line_script trace number)
        (outside folder (S.stream out.old)) (outside folder (S.stream out.new)) result }
{
    if !trace {
        return Ok(());
    }
    let mut text = Vec::new(alloc);
    push_round(number, &mut text)?;
    put(out, &text)
}

fn push_round(number: u64, into: &mut Vec<u8>) -> Result<(), AllocError>
    ensures { OnOk result (into.new.items ≡ into.old.items ++ round_line number) }
{
    into.extend_from_slice(b"% round ")?;
    push_number(into, number)?;
    into.extend_from_slice(b"\n")
}

/// Puts the solution of a round that ended so, where each one is asked for.
pub fn put_found<S: Sink>(
    alloc: Global,
    each: bool,
    problem: &Problem,
    end: &End<IntList>,
    out: &mut S,
) -> Result<(), Stop>
    requires { HasAllValues problem.now end.now }
    ensures { (folder : Place) → Wrote (found_script each problem.now end.now)
        (outside folder (S.stream out.old)) (outside folder (S.stream out.new)) result }
{
    if !each {
        return Ok(());
    }
    match end {
        End::Solved(values) => put_solution(alloc, problem, values.items(), out),
        End::Refuted | End::Spent | End::Capped => Ok(()),
    }
}

/// Puts the text of a solution.
fn put_solution<S: Sink>(
    alloc: Global,
    problem: &Problem,
    values: &[i64],
    out: &mut S,
) -> Result<(), Stop>
    requires { length values.now ≡ length problem.now.domains }
    ensures { (folder : Place) → Wrote (Put (solution_text problem.now (assigned values.now)) ∷ [])
        (outside folder (S.stream out.old)) (outside folder (S.stream out.new)) result }
{
    let mut text = Vec::new(alloc);
    push_values(problem, values, &mut text)?;
    put(out, &text)
}

/// Puts what was found, in one piece: a solution and whether it is best, or what stands in its place, and how many
/// rounds, deliveries and steps were made.
pub fn tell<S: Sink>(
    alloc: Global,
    problem: &Problem,
    searched: &Searched,
    each: bool,
    out: &mut S,
) -> Result<(), Stop>
    requires { HasBestValues problem.now searched.now.best.end }
    ensures { (folder : Place) → Wrote (Put (searched_text each problem.now searched.now) ∷ [])
        (outside folder (S.stream out.old)) (outside folder (S.stream out.new)) result }
{
    let mut text = Vec::new(alloc);
    push_searched(problem, searched, each, &mut text)?;
    put(out, &text)
}

fn push_searched(
    problem: &Problem,
    searched: &Searched,
    each: bool,
    into: &mut Vec<u8>,
) -> Result<(), AllocError>
    requires { HasBestValues problem.now searched.now.best.end }
    ensures { OnOk result (into.new.items ≡ into.old.items ++ searched_text each problem.now searched.now) }
{
    push_best(problem, &searched.best.end, each, into)?;
    push_rounds(searched.best.rounds, into)?;
    push_counts(searched.deliveries, searched.steps, into)
}

/// A solution, and a line that says whether it is best; or the line that stands in its place.
fn push_best(
    problem: &Problem,
    end: &BestEnd,
    each: bool,
    into: &mut Vec<u8>,
) -> Result<(), AllocError>
    requires { HasBestValues problem.now end.now }
    ensures { OnOk result (into.new.items ≡ into.old.items ++ best_text each problem.now end.now) }
{
    match end {
        BestEnd::Optimal(values) => {
            push_last(problem, values.items(), each, into)?;
            into.extend_from_slice(b"==========\n")
        }
        BestEnd::NoSolution => into.extend_from_slice(b"=====UNSATISFIABLE=====\n"),
        BestEnd::Open(None) => into.extend_from_slice(b"=====UNKNOWN=====\n"),
        BestEnd::Open(Some(values)) => push_last(problem, values.items(), each, into),
    }
}

/// The text of the last solution, unless each one was put when it was found.
fn push_last(
    problem: &Problem,
    values: &[i64],
    each: bool,
    into: &mut Vec<u8>,
) -> Result<(), AllocError>
    requires { length values.now ≡ length problem.now.domains }
    ensures { OnOk result (into.new.items ≡ into.old.items ++ last_text each problem.now values.now) }
{
    if each {
        return Ok(());
    }
    push_values(problem, values, into)
}

/// The text of a solution.
fn push_values(problem: &Problem, values: &[i64], into: &mut Vec<u8>) -> Result<(), AllocError>
    requires { length values.now ≡ length problem.now.domains }
    ensures { OnOk result (into.new.items ≡ into.old.items ++ solution_text problem.now (assigned values.now)) }
{
    match push_solution(problem, values, into) {
        Ok(()) => Ok(()),
        Err(_) => Err(AllocError),
    }
}

/// How many rounds were made.
fn push_rounds(rounds: u64, into: &mut Vec<u8>) -> Result<(), AllocError>
    ensures { OnOk result (into.new.items ≡ into.old.items ++ rounds_text rounds) }
{
    into.extend_from_slice(b"% rounds ")?;
    push_number(into, rounds)?;
    into.extend_from_slice(b"\n")
}
