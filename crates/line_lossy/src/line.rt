//! The line `lossy MODEL LOG EVENTS SEED [--record FILE] [--order FILE]`.

ghost use Rattle.std.specs.Prelude.{◌≡◌, ◌++◌, IfOk, is_some};
ghost use Rattle.dcsp_outside.specs.Outside.{Place, Stream};
ghost use Rattle.dcsp_order.specs.Told.{ordered};
ghost use Rattle.dcsp_script.specs.Outsides.{world};
ghost use Rattle.dcsp_script.specs.Scripts.{outside};
ghost use Rattle.dcsp_script.specs.Ways.{Wrote};
ghost use Rattle.dcsp_script.specs.Runs.{CameIn};
ghost use Rattle.abt_input.specs.Errors.{way_of};
ghost use Rattle.line_replay.specs.Endings as endings;
ghost use Rattle.line_replay.specs.Asked.{record_script};
ghost use Rattle.line_replay.specs.Headline.{HoldsProblem};
ghost use Rattle.abt_session.specs.Ordering.{order_in, IsOrderedRightly};
ghost use Rattle.line_lossy.specs.Asked.{asked_script, end_of, log_script, run_numbers, run_problem, run_steps, run_world};
ghost use Rattle.line_lossy.specs.Asking.{promise_of, HoldsItsRun};
ghost use Rattle.line_lossy.specs.Runners.{asked_by, IsEnded, IsFresh};

use crate::ending::{LossyOutcome, outcome_of, tell};
use crate::laws::lossy_runs_are_right;
use crate::runner::LossyRunner;
use abt_input::{CommandError, read_model, read_order_of};
use abt_lossy::Lossy;
use abt_schedule::ChoiceList;
use abt_session::Ordered;
use dcsp_order::moved;
use dcsp_outside::{Folder, Sink};
use dcsp_script::{Outside, Status, Stop};
use line_replay::{end_status, write_record};
use ngd_check::problems_are_small;
use std::alloc::Global;

/// The most calm events of a run.
const MOST_CALM: u64 = 1 << 40;

/// The words of `lossy`.
#[derive(Clone, Copy)]
pub struct Losses<'w> {
    /// The name of the model.
    pub model: &'w str,
    /// The name of the run's log.
    pub log: &'w str,
    /// How many events come from the seed, before calm ones.
    pub events: u32,
    /// The seed of their words.
    pub seed: u64,
    /// The name of the record, where one is asked for.
    pub record_file: Option<&'w str>,
    /// The name of the order, where one is given.
    pub order_file: Option<&'w str>,
}

/// Runs the agents of the model, under the order where one is named, over a medium that loses, repeats and reorders
/// packets, under the events of the seed and then calm ones, until a verdict stands.
pub fn run_lossy<F: Folder, S: Sink>(
    alloc: Global,
    outside: &mut Outside<F, S>,
    line: Losses<'_>,
) -> Result<Status, CommandError>
    ensures came { CameIn (promise_of line.entry)
        (world F.place S.stream outside.old) (world F.place S.stream outside.new) (way_of result) }
    ensures sound { IfOk result (λ status. HoldsProblem (F.place outside.old.folder).held line.entry.model.now) }
    ensures run { IfOk result (HoldsItsRun (F.place outside.old.folder).held line.entry) }
{
    let problem = read_model(alloc, &mut outside.folder, line.model)?;
    problem.denotes_csp();
    problems_are_small(&problem);
    lossy_runs_are_right();
    let order = read_order_of(alloc, &mut outside.folder, line.order_file, &problem)?;
    let model = Ordered {
        problem: &problem,
        order: order.as_ref(),
    };
    let status = run_problem(alloc, model, line, outside)?;
    Ok(status)
}

/// Runs the problem over the medium, and tells how the run ended.
fn run_problem<F: Folder, S: Sink>(
    alloc: Global,
    model: Ordered<'_>,
    line: Losses<'_>,
    outside: &mut Outside<F, S>,
) -> Result<Status, Stop>
    requires { IsOrderedRightly model }
    ensures wrote { Wrote (asked_script (asked_by model.entry line.entry))
        (world F.place S.stream outside.old) (world F.place S.stream outside.new) result }
    ensures status { let asked = asked_by model.entry line.entry in IfOk result (λ status. status ≡ endings.end_status (end_of (run_problem asked) (run_world asked))) }
{
    let ended = run_recorded(alloc, model, line, &mut outside.folder)?;
    tell(alloc, model.problem, &ended, &mut outside.out)?;
    Ok(end_status(&ended.outcome.end))
}

/// Makes the run, and then its record, where one is asked for.
fn run_recorded<F: Folder>(
    alloc: Global,
    model: Ordered<'_>,
    line: Losses<'_>,
    folder: &mut F,
) -> Result<LossyOutcome, Stop>
    requires { IsOrderedRightly model }
    ensures wrote { let asked = asked_by model.entry line.entry in (out : Stream) →
        Wrote (log_script asked.log (run_steps asked) ++ record_script asked.record_file (run_numbers asked))
        (outside (F.place folder.old) out) (outside (F.place folder.new) out) result }
    ensures gives { IfOk result (IsEnded (asked_by model.entry line.entry)) }
{
    let Ok(moved) = moved(alloc, model.order, model.problem) else {
        return Err(Stop::Memory);
    };
    let run = moved.as_ref().unwrap_or(model.problem);
    let Ok(medium) = Lossy::new(alloc, run) else {
        return Err(Stop::Memory);
    };
    let mut runner = LossyRunner {
        alloc,
        order: model.order,
        medium,
        log: line.log,
        keep: line.record_file.is_some(),
        taken: ChoiceList::new(alloc),
        deliveries: 0,
        steps: 0,
        line: Vec::new(alloc),
    };
    run_fresh(alloc, model, line, &mut runner, folder)
}

/// Makes the run that was not begun yet, and then its record, where one is asked for.
fn run_fresh<F: Folder>(
    alloc: Global,
    model: Ordered<'_>,
    line: Losses<'_>,
    runner: &mut LossyRunner<'_, '_>,
    folder: &mut F,
) -> Result<LossyOutcome, Stop>
    requires model { IsOrderedRightly model }
    requires fresh { IsFresh (order_in model) (ordered (order_in model) model.problem.now) line.log.now (is_some line.record_file) runner.old }
    ensures wrote { let asked = asked_by model.entry line.entry in (out : Stream) →
        Wrote (log_script asked.log (run_steps asked) ++ record_script asked.record_file (run_numbers asked))
        (outside (F.place folder.old) out) (outside (F.place folder.new) out) result }
    ensures gives { IfOk result (IsEnded (asked_by model.entry line.entry)) }
{
    runner.run(line.seed, line.events, MOST_CALM, folder)?;
    let outcome = outcome_of(alloc, model.problem, runner)?;
    write_record(alloc, folder, line.record_file, runner.taken.choices())?;
    Ok(LossyOutcome {
        outcome,
        events: runner.medium.events(),
    })
}
