//! The line `replay MODEL SCHEDULE LOG [--trace] [--order FILE]`.

ghost use Rattle.std.specs.Prelude.{◌≡◌, IfOk, option_copied};
ghost use Rattle.dcsp_outside.specs.Outside.{Place, Stream};
ghost use Rattle.dcsp_script.specs.Outsides.{world};
ghost use Rattle.dcsp_script.specs.Ways.{Wrote};
ghost use Rattle.dcsp_script.specs.Runs.{CameIn};
ghost use Rattle.abt_input.specs.Errors.{way_of};
ghost use Rattle.line_replay.specs.Endings as endings;
ghost use Rattle.line_replay.specs.Headline.{HoldsProblem};
ghost use Rattle.line_replay.specs.Asked.{asked_run, asked_script};
ghost use Rattle.line_replay.specs.Tasks.{replay_of};
ghost use Rattle.line_replay.specs.ReplayPromise.{replay_promise};
ghost use Rattle.abt_session.specs.Ordering.{IsOrderedRightly};

use crate::ending::{end_status, tell};
use crate::record::{Task, run_recorded};
use abt_input::{CommandError, read_choices, read_model, read_order_of};
use abt_schedule::Listed;
use abt_session::{MOST_DELIVERIES, Ordered, Telling};
use dcsp_outside::{Folder, Sink};
use dcsp_script::{Outside, Status, Stop};
use ngd_check::problems_are_small;
use std::alloc::Global;

/// The words of `replay`.
#[derive(Clone, Copy)]
pub struct Replay<'w> {
    /// The name of the model.
    pub model: &'w str,
    /// The name of the schedule whose choices the run takes.
    pub schedule: &'w str,
    /// The name of the run's log.
    pub log: &'w str,
    /// Whether the trace is put.
    pub trace: bool,
    /// The name of the order, where one is given.
    pub order_file: Option<&'w str>,
}

/// Runs the model under the choices of the schedule, which is read after it and after the order.
pub fn run_replay<F: Folder, S: Sink>(
    alloc: Global,
    outside: &mut Outside<F, S>,
    line: Replay<'_>,
) -> Result<Status, CommandError>
    ensures came { CameIn (replay_promise line.entry.model.now line.entry.schedule.now line.entry.log.now line.entry.trace (option_copied line.entry.order_file))
        (world F.place S.stream outside.old) (world F.place S.stream outside.new) (way_of result) }
    ensures sound { IfOk result (λ status. HoldsProblem (F.place outside.old.folder).held line.entry.model.now) }
{
    let problem = read_model(alloc, &mut outside.folder, line.model)?;
    problem.denotes_csp();
    problems_are_small(&problem);
    let order = read_order_of(alloc, &mut outside.folder, line.order_file, &problem)?;
    let choices = read_choices(alloc, &mut outside.folder, line.schedule)?;
    let model = Ordered {
        problem: &problem,
        order: order.as_ref(),
    };
    let status = run_choices(alloc, Chosen { model, choices }, line, outside)?;
    Ok(status)
}

/// What was read for a replay: the problem with its order, and the choices of the schedule.
#[derive(Drop)]
struct Chosen<'p> {
    model: Ordered<'p>,
    choices: Listed,
}

/// Runs the problem under the choices, and tells how the run ended.
fn run_choices<'w, F: Folder, S: Sink>(
    alloc: Global,
    read: Chosen<'w>,
    line: Replay<'w>,
    outside: &mut Outside<F, S>,
) -> Result<Status, Stop>
    requires { IsOrderedRightly read.model }
    ensures wrote { Wrote (asked_script (replay_of read.entry line.entry))
        (world F.place S.stream outside.old) (world F.place S.stream outside.new) result }
    ensures status { IfOk result (λ status. status ≡ endings.end_status (asked_run (replay_of read.entry line.entry)).end) }
{
    let Chosen { model, choices } = read;
    let task = Task {
        model,
        log: line.log,
        record_file: None,
        most: MOST_DELIVERIES,
        telling: Telling::traced(line.trace),
    };
    let mut choices = choices;
    let outcome = run_recorded(alloc, task, &mut choices, outside)?;
    tell(
        alloc,
        model.problem,
        &outcome,
        Some(choices.left()),
        &mut outside.out,
    )?;
    Ok(end_status(&outcome.end))
}
