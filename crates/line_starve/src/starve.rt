//! The line `starve MODEL FROM TO FILE [--order FILE]`.

ghost use Rattle.std.specs.Prelude.{◌≡◌, ◌≤◌, ◌∷◌, [], length, IfOk, OnOk, None, option_copied};
ghost use Rattle.dcsp_outside.specs.Outside.{Place, Stream};
ghost use Rattle.dcsp_script.specs.Outsides.{world};
ghost use Rattle.dcsp_script.specs.Scripts.{Create, Append, Put, outside};
ghost use Rattle.dcsp_script.specs.Ways.{Wrote};
ghost use Rattle.abt_schedule.specs.Schedules.{schedule_text};
ghost use Rattle.dcsp_rule.specs.Problems.{csp_of};
ghost use Rattle.dcsp_order.specs.Orders.{place_of};
ghost use Rattle.dcsp_order.specs.Told.{place_told};
ghost use Rattle.abt_defs.specs.Bound.{message_bound};
ghost use Rattle.abt_session.specs.Ends.{end_of};
ghost use Rattle.dcsp_script.specs.Runs.{CameIn};
ghost use Rattle.abt_input.specs.Inputs.{HasChoices};
ghost use Rattle.abt_input.specs.Errors.{way_of};
ghost use Rattle.line_starve.specs.StarvePromise.{end_word, most_starved, starve_promise, starve_script, starved_line};
ghost use Rattle.line_starve.specs.Runs.{its_choices, run_of};
ghost use Rattle.line_starve.specs.Starving.{HoldsStarved, IsReplayed, TellsStarved};

use abt_input::{AnswerLine, CommandError, read_model, read_order_of};
use abt_schedule::{ChoiceList, write_schedule};
use abt_session::{End, Starved, StarvingRun, starve};
use dcsp_order::{Order, moved};
use dcsp_outside::{Folder, Sink};
use dcsp_script::{Outside, Status, Stop, append, create, put};
use std::alloc::Global;

/// The most deliveries of a run that starves a link.
const MOST_STARVED: u64 = 7_000_000;

/// The words of `starve`.
#[derive(Clone, Copy)]
pub struct Starve<'w> {
    /// The name of the model.
    pub model: &'w str,
    /// The variable whose agent sends over the link, counted from 1.
    pub from: u32,
    /// The variable whose agent the link leads to, counted from 1.
    pub to: u32,
    /// The name of the file that takes the run's choices.
    pub file: &'w str,
    /// The name of the order, where one is given.
    pub order_file: Option<&'w str>,
}

/// Runs the model, under the order where one is named, so that the link from one variable's agent to another's is
/// starved, writes the choices of the run as a schedule, and tells how the run ended and how many deliveries it made.
pub fn run_starve<F: Folder, S: Sink>(
    alloc: Global,
    outside: &mut Outside<F, S>,
    line: Starve<'_>,
) -> Result<Status, CommandError>
    requires from { 1 ≤ line.from }
    requires to { 1 ≤ line.to }
    ensures came { CameIn (starve_promise line.entry.model.now line.entry.from line.entry.to line.entry.file.now (option_copied line.entry.order_file))
        (world F.place S.stream outside.old) (world F.place S.stream outside.new) (way_of result) }
    ensures writes { OnOk result (HoldsStarved line.entry.model.now line.entry.from line.entry.to line.entry.file.now (option_copied line.entry.order_file)
        (F.place outside.old.folder).held (F.place outside.new.folder).held) }
    ensures tells { OnOk result (TellsStarved line.entry.model.now line.entry.from line.entry.to (option_copied line.entry.order_file)
        (F.place outside.old.folder).held (S.stream outside.old.out).written (S.stream outside.new.out).written) }
{
    let problem = read_model(alloc, &mut outside.folder, line.model)?;
    let read = read_order_of(alloc, &mut outside.folder, line.order_file, &problem)?;
    let order = read.as_ref();
    let Ok(moved) = moved(alloc, order, &problem) else {
        return Err(CommandError::Memory);
    };
    let run = StarvingRun {
        problem: moved.as_ref().unwrap_or(&problem),
        from: place_of(order, line.from - 1),
        to: place_of(order, line.to - 1),
        most: MOST_STARVED,
    };
    run_starved(alloc, run, outside, line.file)?;
    Ok(Status::Good)
}

/// The place of the agent of the variable with this number, which counts from 0. Under an order a number that no variable
/// has gets the place behind the last, where no agent is.
fn place_of(order: Option<&Order>, number: u32) -> u32
    ensures { result ≡ place_told (option_copied order.entry) number }
{
    match order {
        Some(order) => place_under(order, number),
        None => number,
    }
}

/// The place under this order.
fn place_under(order: &Order, number: u32) -> u32
    ensures { result ≡ place_of order.now number }
{
    let variables = order.numbers().len() as u32;
    if number < variables {
        order.place(number)
    } else {
        variables
    }
}

/// Makes the run, writes its choices and tells how it ended.
fn run_starved<F: Folder, S: Sink>(
    alloc: Global,
    run: StarvingRun<'_>,
    outside: &mut Outside<F, S>,
    file: &str,
) -> Result<(), Stop>
    requires most { run.most ≤ most_starved }
    ensures wrote { Wrote (starve_script file.now (its_choices run.entry) (run_of run.entry))
        (world F.place S.stream outside.old) (world F.place S.stream outside.new) result }
    ensures schedule { OnOk result (HasChoices (schedule_text (its_choices run.entry)) (its_choices run.entry)) }
    ensures replayed { OnOk result (IsReplayed None run.entry.problem.now run.entry.from run.entry.to run.entry.most) }
    ensures bound { OnOk result ((run_of run.entry).net.deliveries ≤ message_bound (csp_of run.entry.problem.now)) }
{
    let mut taken = ChoiceList::new(alloc);
    let Ok(told) = starve(alloc, run, &mut taken) else {
        return Err(Stop::Memory);
    };
    write_choices(alloc, &mut outside.folder, file, taken.choices())?;
    tell(told, &mut outside.out)
}

/// Writes the schedule of the choices under the name.
fn write_choices<F: Folder>(
    alloc: Global,
    folder: &mut F,
    file: &str,
    choices: &[u32],
) -> Result<(), Stop>
    ensures { (out : Stream) → Wrote (Create file.now ∷ Append file.now (schedule_text choices.now) ∷ [])
        (outside (F.place folder.old) out) (outside (F.place folder.new) out) result }
{
    let mut text = Vec::new(alloc);
    let Ok(()) = write_schedule(choices, &mut text) else {
        return Err(Stop::Memory);
    };
    create(folder, file)?;
    append(folder, file, &text)
}

/// Puts the line that tells how the run ended on `out`, in one piece.
fn tell<S: Sink>(told: Starved, out: &mut S) -> Result<(), Stop>
    ensures { (folder : Place) → Wrote (Put (starved_line (end_of told.end) told.deliveries) ∷ [])
        (outside folder (S.stream out.old)) (outside folder (S.stream out.new)) result }
{
    let line = line_of(told);
    put(out, line.bytes())
}

/// The line that tells how the run ended, and how many deliveries it made.
fn line_of(told: Starved) -> AnswerLine
    ensures { result ≡ starved_line (end_of told.end) told.deliveries }
{
    let before = AnswerLine::of(b"starved ")
        .with(word_of(told.end))
        .with(b" deliveries ");
    AnswerLine::numbered(before.bytes(), told.deliveries)
}

/// How a run ended, in a word.
fn word_of(end: End<()>) -> &'static [u8]
    ensures word { result.now ≡ end_word (end_of end) }
    ensures short { length result.now ≤ 16 }
{
    match end {
        End::Solved(()) => b"solved",
        End::Refuted => b"refuted",
        End::Spent | End::Capped => b"open",
    }
}
