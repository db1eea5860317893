//! The line `survey MODEL COUNT [--from SEED] [--order FILE]`.

ghost use Rattle.std.specs.Prelude.{◌≡◌, ◌+◌, ◌≤◌, ◌^◌, ◌∷◌, [], IfOk, option_copied};
ghost use Rattle.dcsp_outside.specs.Outside.{Place};
ghost use Rattle.dcsp_script.specs.Outsides.{world};
ghost use Rattle.dcsp_script.specs.Scripts.{outside};
ghost use Rattle.dcsp_script.specs.Ways.{Wrote};
ghost use Rattle.dcsp_rule.specs.Problems.{csp_of};
ghost use Rattle.dcsp_script.specs.Runs.{CameIn};
ghost use Rattle.abt_input.specs.Errors.{way_of};
ghost use Rattle.line_measure.specs.Numbers.{numbers_of, seeded};
ghost use Rattle.line_measure.specs.Texts.{survey_head};
ghost use Rattle.line_measure.specs.MeasurePromise.{end_of_seed, seed_write, seeds, survey_promise, survey_script, worse, worst};

use crate::measure::status_of;
use crate::numbers::{Numbers, numbers_of};
use crate::texts::push_line;
use abt_input::{CommandError, read_model, read_order_of};
use abt_measure::measure_run;
use abt_network::Standing;
use abt_schedule::Seeded;
use abt_session::MOST_DELIVERIES;
use dcsp_common::Memory;
use dcsp_order::moved;
use dcsp_outside::{Folder, Sink};
use dcsp_problem::Problem;
use dcsp_script::{Outside, Status, Stop, put};
use std::alloc::Global;

/// The words of `survey`.
#[derive(Clone, Copy)]
pub struct Survey<'w> {
    /// The name of the model.
    pub model: &'w str,
    /// How many seeds there are, from 1 to 1,000,000.
    pub count: u64,
    /// The first of them.
    pub from: u64,
    /// The name of the order, where one is given.
    pub order_file: Option<&'w str>,
}

/// The names of the columns.
const HEAD: &[u8] =
    b"seed,end,deliveries,ok,nogood,link,steps,longest_chain,constraint_checks,nogood_checks,concurrent_checks,recorded,transit,links_added\n";

/// Runs the model, under the order where one is named, by the choices of each seed, one after the other, and tells the measures of each run by a put of
/// its own, behind the names of the columns.
pub fn run_survey<F: Folder, S: Sink>(
    alloc: Global,
    outside: &mut Outside<F, S>,
    line: Survey<'_>,
) -> Result<Status, CommandError>
    requires { line.from + line.count ≤ 2 ^ 64 }
    ensures { CameIn (survey_promise line.entry.model.now line.entry.from line.entry.count (option_copied line.entry.order_file))
        (world F.place S.stream outside.old) (world F.place S.stream outside.new) (way_of result) }
{
    let problem = read_model(alloc, &mut outside.folder, line.model)?;
    let read = read_order_of(alloc, &mut outside.folder, line.order_file, &problem)?;
    let Ok(moved) = moved(alloc, read.as_ref(), &problem) else {
        return Err(CommandError::Memory);
    };
    let run = moved.as_ref().unwrap_or(&problem);
    let end = tell_survey(alloc, run, line, &mut outside.out)?;
    Ok(status_of(end))
}

/// Puts the head, and a line for each seed; tells whether some run was left open.
fn tell_survey<S: Sink>(
    alloc: Global,
    problem: &Problem,
    line: Survey<'_>,
    out: &mut S,
) -> Result<Standing, Stop>
    requires { line.from + line.count ≤ 2 ^ 64 }
    ensures wrote { (folder : Place) → Wrote (survey_script problem.now line.entry.from line.entry.count) (outside folder (S.stream out.old)) (outside folder (S.stream out.new)) result }
    ensures end { IfOk result (λ end. end ≡ worst problem.now Standing.Quiet (seeds line.entry.from line.entry.count)) }
{
    put(out, HEAD)?;
    let mut worst = Standing::Quiet;
    for number in 0..line.count {
        let end = tell_seed(alloc, problem, line.from + number, out)?;
        worst = worse(worst, end);
    }
    Ok(worst)
}

/// Open where one of both is, else quiet.
fn worse(first: Standing, second: Standing) -> Standing
    ensures { result ≡ worse first second }
{
    match first {
        Standing::Open => Standing::Open,
        Standing::Quiet | Standing::Refuted => match second {
            Standing::Open => Standing::Open,
            Standing::Quiet | Standing::Refuted => Standing::Quiet,
        },
    }
}

/// Makes the run of a seed, and puts its line.
fn tell_seed<S: Sink>(
    alloc: Global,
    problem: &Problem,
    seed: u64,
    out: &mut S,
) -> Result<Standing, Stop>
    ensures wrote { (folder : Place) → Wrote (seed_write problem.now seed ∷ []) (outside folder (S.stream out.old)) (outside folder (S.stream out.new)) result }
    ensures end { IfOk result (λ end. end ≡ end_of_seed problem.now seed) }
{
    let Ok(numbers) = measure_seed(alloc, problem, seed) else {
        return Err(Stop::Memory);
    };
    let mut text = Vec::new(alloc);
    let Ok(()) = push_line(seed, &numbers, &mut text) else {
        return Err(Stop::Memory);
    };
    put(out, &text)?;
    Ok(numbers.end)
}

/// The numbers of the run under the choices of a seed.
fn measure_seed(alloc: Global, problem: &Problem, seed: u64) -> Result<Numbers, Memory>
    ensures { IfOk result (λ numbers. numbers ≡ numbers_of (csp_of problem.now) (seeded seed)) }
{
    let mut choices = Seeded::new(seed);
    let run = measure_run(alloc, problem, &mut choices, MOST_DELIVERIES, false)?;
    numbers_of(&run)
}
