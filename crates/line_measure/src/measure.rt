//! The line `measure MODEL SCHEDULE [--order FILE]`.

ghost use Rattle.std.specs.Prelude.{◌≡◌, ◌++◌, List, IfOk, OnOk, length, option_copied};
ghost use Rattle.dcsp_outside.specs.Outside.{Place, Stream};
ghost use Rattle.dcsp_script.specs.Outsides.{world};
ghost use Rattle.dcsp_script.specs.Scripts.{outside};
ghost use Rattle.dcsp_script.specs.Ways.{Wrote};
ghost use Rattle.dcsp_rule.specs.Problems.{csp_of};
ghost use Rattle.dcsp_order.specs.Told.{IsOrderFor};
ghost use Rattle.abt_defs.specs.Network.{Network as TheNetwork};
ghost use Rattle.abt_defs.specs.Events.{Act};
ghost use Rattle.abt_network.specs.Standing.{StandsAt};
ghost use Rattle.abt_measure.specs.Counting.{AreRows};
ghost use Rattle.abt_measure.specs.Learning.{AreLearned};
ghost use Rattle.dcsp_script.specs.Runs.{CameIn};
ghost use Rattle.abt_input.specs.Errors.{way_of};
ghost use Rattle.line_measure.specs.Numbers.{listed, numbers_of};
ghost use Rattle.line_measure.specs.Texts.{each_text, measures_text};
ghost use Rattle.line_measure.specs.MeasurePromise.{measure_promise, measure_script, status_at};

use crate::agents::{push_agents, push_learned};
use crate::numbers::numbers_of;
use crate::texts::push_head;
use abt_input::{CommandError, read_choices, read_model, read_order_of};
use abt_measure::{MeasuredRun, measure_run};
use abt_network::Standing;
use abt_schedule::Listed;
use abt_session::MOST_DELIVERIES;
use dcsp_common::Memory;
use dcsp_order::{Order, moved};
use dcsp_outside::{Folder, Sink};
use dcsp_problem::Problem;
use dcsp_script::{Outside, Status, Stop, put};
use std::alloc::Global;

/// The words of `measure`.
#[derive(Clone, Copy)]
pub struct Measure<'w> {
    /// The name of the model.
    pub model: &'w str,
    /// The name of the schedule whose choices the run takes.
    pub schedule: &'w str,
    /// The name of the order, where one is given.
    pub order_file: Option<&'w str>,
}

/// Runs the model, under the order where one is named, by the choices of the schedule, which is read last, and tells the run's
/// measures.
pub fn run_measure<F: Folder, S: Sink>(
    alloc: Global,
    outside: &mut Outside<F, S>,
    line: Measure<'_>,
) -> Result<Status, CommandError>
    ensures { CameIn (measure_promise line.entry.model.now line.entry.schedule.now (option_copied line.entry.order_file))
        (world F.place S.stream outside.old) (world F.place S.stream outside.new) (way_of result) }
{
    let problem = read_model(alloc, &mut outside.folder, line.model)?;
    let read = read_order_of(alloc, &mut outside.folder, line.order_file, &problem)?;
    let order = read.as_ref();
    let choices = read_choices(alloc, &mut outside.folder, line.schedule)?;
    let Ok(moved) = moved(alloc, order, &problem) else {
        return Err(CommandError::Memory);
    };
    let run = moved.as_ref().unwrap_or(&problem);
    let status = tell_measures(alloc, order, run, choices, &mut outside.out)?;
    Ok(status)
}

/// Makes the run of the problem, which is one under the order, and puts its measures in one piece.
fn tell_measures<S: Sink>(
    alloc: Global,
    order: Option<&Order>,
    problem: &Problem,
    choices: Listed,
    out: &mut S,
) -> Result<Status, Stop>
    requires { IsOrderFor (option_copied order) problem.now }
    ensures wrote { (folder : Place) → Wrote (measure_script (option_copied order.entry) problem.now choices) (outside folder (S.stream out.old)) (outside folder (S.stream out.new)) result }
    ensures status { IfOk result (λ status. status ≡ status_at (numbers_of (csp_of problem.now) (listed choices)).end) }
{
    let mut choices = choices;
    let mut text = Vec::new(alloc);
    let Ok(end) = push_run(alloc, order, problem, &mut choices, &mut text) else {
        return Err(Stop::Memory);
    };
    put(out, &text)?;
    Ok(status_of(end))
}

/// Makes the run, and pushes its measures.
fn push_run(
    alloc: Global,
    order: Option<&Order>,
    problem: &Problem,
    choices: &mut Listed,
    into: &mut Vec<u8>,
) -> Result<Standing, Memory>
    requires { IsOrderFor (option_copied order) problem.now }
    ensures text { IfOk result (λ end. into.new.items ≡ into.old.items ++ measures_text (option_copied order.entry) (csp_of problem.now) (listed choices.old)) }
    ensures end { IfOk result (λ end. end ≡ (numbers_of (csp_of problem.now) (listed choices.old)).end) }
{
    let run = measure_run(alloc, problem, choices, MOST_DELIVERIES, true)?;
    let numbers = numbers_of(&run)?;
    push_head(&numbers, into)?;
    push_each(order, problem, &run, into)?;
    Ok(numbers.end)
}

/// Pushes what is told of each agent, and the last line.
fn push_each(
    order: Option<&Order>,
    problem: &Problem,
    run: &MeasuredRun,
    into: &mut Vec<u8>,
) -> Result<(), Memory>
    requires order { IsOrderFor (option_copied order) problem.now }
    requires problem { run.now.network.problem ≡ problem.now }
    requires rows { length run.now.measures.rows ≡ length problem.now.domains }
    requires lists { length run.now.learned ≡ length problem.now.domains }
    ensures { (done : List Act) (net : TheNetwork) → AreRows (csp_of problem.now) done run.now.measures.rows → AreLearned done run.now.learned → StandsAt run.now.network net
        → OnOk result (into.new.items ≡ into.old.items ++ each_text (option_copied order.entry) (csp_of problem.now) done net) }
{
    push_agents(order, problem, run, into)?;
    push_learned(order, problem, &run.learned, into)?;
    into.extend_from_slice(b"end\n")
}

/// The status of a run that ended so: unfinished where a message is in transit.
pub fn status_of(end: Standing) -> Status
    ensures { result ≡ status_at end }
{
    match end {
        Standing::Quiet | Standing::Refuted => Status::Good,
        Standing::Open => Status::Unfinished,
    }
}
