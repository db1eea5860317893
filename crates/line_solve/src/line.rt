//! The line `solve MODEL LOG [--seed N] [--choices N] [--record FILE] [--order FILE] [--trace] [--progress] [--each]
//! [--halves]`.

ghost use Rattle.std.specs.Prelude.{◌≡◌, ◌≢◌, ◌≤◌, ◌^◌, IfOk, OnOk};
ghost use Rattle.dcsp_outside.specs.Outside.{Place, Stream};
ghost use Rattle.dcsp_script.specs.Outsides.{world};
ghost use Rattle.dcsp_script.specs.Ways.{Wrote};
ghost use Rattle.dcsp_script.specs.Runs.{CameIn};
ghost use Rattle.abt_input.specs.Errors.{way_of};
ghost use Rattle.line_replay.specs.Headline.{HoldsProblem};
ghost use Rattle.abt_session.specs.Ordering.{IsOrderedRightly};
ghost use Rattle.line_replay.specs.Recorded.{HoldsRecord};
ghost use Rattle.line_replay.specs.Settings.{settings_of};
ghost use Rattle.line_solve.specs.Asking.{search_of};
ghost use Rattle.line_solve.specs.BestAnswers.{search_status};
ghost use Rattle.line_solve.specs.SearchScripts.{search_script};
ghost use Rattle.line_solve.specs.SolvePromise.{solve_promise, HoldsWholeProblem};

use crate::answer::{best_status, tell};
use crate::runner::SearchRunner;
use abt_input::{CommandError, read_model, read_order_of};
use abt_session::Ordered;
use dcsp_outside::{Folder, Sink};
use dcsp_problem::Aim;
use dcsp_script::{Outside, Status, Stop};
use line_replay::{Solve, run_seed, write_record};
use ngd_check::problems_are_small;
use std::alloc::Global;

/// Runs the model under the choices of the seed, or where it asks for the best value of a term, searches for that in
/// rounds, each of which is a run under these choices. Where a record is asked for, its file then holds that of the run,
/// or of the first round: a schedule of which `replay` makes that run again.
pub fn run_solve<F: Folder, S: Sink>(
    alloc: Global,
    outside: &mut Outside<F, S>,
    line: Solve<'_>,
) -> Result<Status, CommandError>
    requires { line.options.choices ≤ 2 ^ 40 }
    ensures came { CameIn (solve_promise line.entry.model.now line.entry.log.now (settings_of line.entry.options))
        (world F.place S.stream outside.old) (world F.place S.stream outside.new) (way_of result) }
    ensures sound { IfOk result (λ status. HoldsProblem (F.place outside.old.folder).held line.entry.model.now) }
    ensures whole { IfOk result (λ status. HoldsWholeProblem (F.place outside.old.folder).held line.entry.model.now) }
    ensures records { OnOk result (HoldsRecord line.entry.model.now line.entry.log.now (settings_of line.entry.options)
        (F.place outside.old.folder).held (F.place outside.new.folder).held) }
{
    let problem = read_model(alloc, &mut outside.folder, line.model)?;
    problem.denotes_csp();
    problems_are_small(&problem);
    let order = read_order_of(
        alloc,
        &mut outside.folder,
        line.options.order_file,
        &problem,
    )?;
    let model = Ordered {
        problem: &problem,
        order: order.as_ref(),
    };
    let Aim::Satisfy = problem.aim() else {
        let status = run_search(alloc, model, line, outside)?;
        return Ok(status);
    };
    let status = run_seed(alloc, model, line, outside)?;
    Ok(status)
}

/// Searches for the best value of what the problem aims at, and tells what was found.
fn run_search<'w, F: Folder, S: Sink>(
    alloc: Global,
    model: Ordered<'w>,
    line: Solve<'w>,
    outside: &mut Outside<F, S>,
) -> Result<Status, Stop>
    requires aimed { model.problem.now.aim ≢ Aim.Satisfy }
    requires few { line.options.choices ≤ 2 ^ 40 }
    requires model { IsOrderedRightly model }
    ensures wrote { Wrote (search_script (search_of model.entry line.entry))
        (world F.place S.stream outside.old) (world F.place S.stream outside.new) result }
    ensures status { IfOk result (λ status. status ≡ search_status (search_of model.entry line.entry)) }
{
    let mut runner = SearchRunner::new(alloc, model.problem, line.options.halves)?;
    runner.run(model, line, outside)?;
    write_record(
        alloc,
        &mut outside.folder,
        line.options.record_file,
        runner.taken.choices(),
    )?;
    let searched = runner.finish();
    tell(
        alloc,
        model.problem,
        &searched,
        line.options.each,
        &mut outside.out,
    )?;
    Ok(best_status(&searched.best.end))
}
