//! The line `story MODEL SCHEDULE FILE [--order FILE]`.

ghost use Rattle.std.specs.Prelude.{◌≡◌, IfOk, OnOk, option_copied};
ghost use Rattle.dcsp_outside.specs.Outside.{Place, Stream};
ghost use Rattle.dcsp_script.specs.Outsides.{world};
ghost use Rattle.dcsp_script.specs.Ways.{Wrote};
ghost use Rattle.dcsp_defs.specs.Csp.{IsCsp};
ghost use Rattle.dcsp_rule.specs.Problems.{csp_of};
ghost use Rattle.ngd_check.specs.Logged.{IsSmall};
ghost use Rattle.dcsp_script.specs.Runs.{CameIn};
ghost use Rattle.dcsp_order.specs.Told.{ordered, Fits};
ghost use Rattle.abt_input.specs.Errors.{way_of};
ghost use Rattle.line_story.specs.Stories.{HoldsStory};
ghost use Rattle.line_story.specs.StoryPromise.{status_at, story_promise, story_script, told_end};

use crate::teller::Teller;
use abt_input::{CommandError, read_choices, read_model, read_order_of};
use abt_network::Network;
use abt_schedule::Listed;
use abt_session::{MOST_DELIVERIES, Ordered};
use dcsp_order::{Order, moved};
use dcsp_outside::{Folder, Sink};
use dcsp_problem::Problem;
use dcsp_script::{Outside, Status, Stop};
use ngd_check::problems_are_small;
use std::alloc::Global;

/// The words of `story`.
#[derive(Clone, Copy)]
pub struct Story<'w> {
    /// The name of the model.
    pub model: &'w str,
    /// The name of the schedule whose choices the run takes.
    pub schedule: &'w str,
    /// The name of the file that takes the story.
    pub file: &'w str,
    /// The name of the order, where one is given.
    pub order_file: Option<&'w str>,
}

/// Runs the model, under the order where one is named, by the choices of the schedule, which is read last, writes what
/// happens in each event as the event is made, and tells how the run ended and how many deliveries it made.
pub fn run_story<F: Folder, S: Sink>(
    alloc: Global,
    outside: &mut Outside<F, S>,
    line: Story<'_>,
) -> Result<Status, CommandError>
    ensures came { CameIn (story_promise line.entry.model.now (option_copied line.entry.order_file) line.entry.schedule.now line.entry.file.now)
        (world F.place S.stream outside.old) (world F.place S.stream outside.new) (way_of result) }
    ensures writes { OnOk result (HoldsStory line.entry.model.now (option_copied line.entry.order_file) line.entry.schedule.now line.entry.file.now
        (F.place outside.old.folder).held (F.place outside.new.folder).held) }
{
    let problem = read_model(alloc, &mut outside.folder, line.model)?;
    let order = read_order_of(alloc, &mut outside.folder, line.order_file, &problem)?;
    let choices = read_choices(alloc, &mut outside.folder, line.schedule)?;
    let order = order.as_ref();
    let task = Task {
        problem: &problem,
        order,
        file: line.file,
    };
    let status = write_story(alloc, task, choices, outside)?;
    Ok(status)
}

/// What is told, and where.
#[derive(Clone, Copy)]
struct Task<'p, 'o, 'w> {
    /// The model's problem.
    problem: &'p Problem,
    /// The order under which it is run, where one is given.
    order: Option<&'o Order>,
    /// The name of the file that takes the story.
    file: &'w str,
}

/// Makes the run, writes its story, and tells how it ended.
fn write_story<F: Folder, S: Sink>(
    alloc: Global,
    task: Task<'_, '_, '_>,
    choices: Listed,
    outside: &mut Outside<F, S>,
) -> Result<Status, Stop>
    requires { Fits (option_copied task.order) task.problem.now }
    ensures wrote { let order = option_copied task.entry.order in Wrote (story_script order (ordered order task.entry.problem.now) choices task.entry.file.now)
        (world F.place S.stream outside.old) (world F.place S.stream outside.new) result }
    ensures status { IfOk result (λ status. status ≡ status_at (told_end (csp_of (ordered (option_copied task.entry.order) task.entry.problem.now)) choices)) }
    ensures csp { IfOk result (λ status. IsCsp (csp_of (ordered (option_copied task.entry.order) task.entry.problem.now))) }
    ensures small { IfOk result (λ status. IsSmall (csp_of (ordered (option_copied task.entry.order) task.entry.problem.now))) }
{
    let Ok(moved) = moved(alloc, task.order, task.problem) else {
        return Err(Stop::Memory);
    };
    let run = moved.as_ref().unwrap_or(task.problem);
    run.denotes_csp();
    problems_are_small(run);
    let Ok(network) = Network::new(alloc, run) else {
        return Err(Stop::Memory);
    };
    let mut choices = choices;
    let model = Ordered {
        problem: run,
        order: task.order,
    };
    let mut teller = Teller {
        alloc,
        model,
        network,
        file: task.file,
        text: Vec::new(alloc),
    };
    teller.begin(&mut outside.folder)?;
    teller.deliver_all(&mut choices, MOST_DELIVERIES, &mut outside.folder)?;
    teller.end(&mut outside.folder)?;
    teller.answer(&mut outside.out)?;
    Ok(teller.status())
}
