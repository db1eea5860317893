//! A whole run, with its log and what tells of its deliveries.

ghost use Rattle.std.specs.Prelude.{◌≡◌, ◌≤◌, ◌^◌, ◌+◌, ℕ, IfOk, OnOk};
ghost use Rattle.law_runs.specs.Replay.{Verdicts};
ghost use Rattle.law_runs.specs.Stops.{Stops};
ghost use Rattle.dcsp_outside.specs.Outside.{Place, Stream};
ghost use Rattle.dcsp_order.specs.Told.{Fits};
ghost use Rattle.dcsp_script.specs.Outsides.{world};
ghost use Rattle.dcsp_script.specs.Ways.{Wrote};
ghost use Rattle.abt_session.specs.Order.{WritesInOrder};
ghost use Rattle.abt_session.specs.Sessions.{run_of, run_script};
ghost use Rattle.abt_session.specs.Running.{kept, order_of, session_by, session_for, Gives};

use crate::ordered::Ordered;
use crate::outcome::{Outcome, outcome_of};
use crate::runner::Runner;
use crate::telling::Telling;
use abt_network::{DeliveryRoom, Network};
use abt_schedule::{ChoiceList, Choices};
use dcsp_order::moved;
use dcsp_outside::{Folder, Sink};
use dcsp_script::{Outside, Stop, append};
use ngd_log::TAIL;
use std::alloc::Global;
use std::mem;

/// A run that is asked for, beside its choices.
#[derive(Clone, Copy)]
pub struct RunTask<'w> {
    /// The problem whose agents run, and the order under which they do. What is written and put of the run, and its values,
    /// have the model's own numbers.
    pub model: Ordered<'w>,
    /// The name of its log.
    pub log: &'w str,
    /// How many deliveries it makes at most.
    pub most: u64,
    /// What is put of each delivery.
    pub telling: Telling,
    /// Whether the number of the list of each delivery is taken down.
    pub keep: bool,
}

/// Runs the agents of a problem under choices, as it is asked for.
///
/// The log is created; each step's line goes to it by an append of its own as the step is made, and the
/// last line once the run has stopped. What tells of a delivery is put on `out` after the line of its step.
/// Of each delivery one answer of `choices` is taken. How many were taken by a run that refuses is left open.
///
/// Wherever the run is stopped, `out` gained a first part of what tells of its deliveries, no name but the
/// log's changed, and the log, once created, holds a first part of its text; before, it is unchanged or
/// empty. The log keeps up with `out`: once a byte tells of a delivery, the lines of the steps made so far
/// are in the log, and as long as a byte is missing of what tells of some first deliveries, the log has no
/// line of a later one's step.
pub fn run<C: Choices, F: Folder, S: Sink>(
    alloc: Global,
    task: RunTask<'_>,
    choices: &mut C,
    outside: &mut Outside<F, S>,
) -> Result<Outcome, Stop>
    requires most { task.most ≤ 2 ^ 40 }
    requires fits { Fits (order_of task) task.model.problem.now }
    ensures wrote { Wrote (run_script (session_by (C.answers choices.old) task.entry))
        (world F.place S.stream outside.old) (world F.place S.stream outside.new) result }
    ensures in_order { WritesInOrder (session_by (C.answers choices.old) task.entry)
        (world F.place S.stream outside.old) (world F.place S.stream outside.new) }
    ensures gives { IfOk result (Gives (session_by (C.answers choices.old) task.entry)) }
    ensures numbers { let s = session_by (C.answers choices.old) task.entry in
        IfOk result (λ outcome. outcome.numbers ≡ kept task.entry.keep (run_of s).numbers) }
    ensures answers { let s = session_by (C.answers choices.old) task.entry in
        OnOk result ((k : ℕ) → C.answers choices.new k ≡ C.answers choices.old ((run_of s).net.deliveries + k)) }
    ensures verdicts { let s = session_by (C.answers choices.old) task.entry in
        Verdicts s.problem task.entry.most (run_of s) }
    ensures stops { let s = session_by (C.answers choices.old) task.entry in
        Stops s.problem task.entry.most s.choices (run_of s) }
{
    law_runs::verdicts();
    law_runs::stops();
    task.model.problem.denotes_csp();
    let Ok(moved) = moved(alloc, task.model.order, task.model.problem) else {
        return Err(Stop::Memory);
    };
    let ordered = moved.as_ref().unwrap_or(task.model.problem);
    let model = Ordered {
        problem: ordered,
        order: task.model.order,
    };
    run_ordered(alloc, RunTask { model, ..task }, choices, outside)
}

/// Runs the agents of a problem that is under its order already, from the creation of the log to its last line.
fn run_ordered<C: Choices, F: Folder, S: Sink>(
    alloc: Global,
    task: RunTask<'_>,
    choices: &mut C,
    outside: &mut Outside<F, S>,
) -> Result<Outcome, Stop>
    requires most { task.most ≤ 2 ^ 40 }
    requires fits { Fits (order_of task) task.model.problem.now }
    ensures wrote { Wrote (run_script (session_for task.entry.model.problem.now (C.answers choices.old) task.entry))
        (world F.place S.stream outside.old) (world F.place S.stream outside.new) result }
    ensures gives { IfOk result (Gives (session_for task.entry.model.problem.now (C.answers choices.old) task.entry)) }
    ensures numbers { let s = session_for task.entry.model.problem.now (C.answers choices.old) task.entry in
        IfOk result (λ outcome. outcome.numbers ≡ kept task.entry.keep (run_of s).numbers) }
    ensures answers { let s = session_for task.entry.model.problem.now (C.answers choices.old) task.entry in
        OnOk result ((k : ℕ) → C.answers choices.new k ≡ C.answers choices.old ((run_of s).net.deliveries + k)) }
{
    task.model.problem.denotes_csp();
    let Ok(network) = Network::new(alloc, task.model.problem) else {
        return Err(Stop::Memory);
    };
    let mut runner = Runner {
        network,
        task,
        room: DeliveryRoom::new(alloc),
        taken: ChoiceList::new(alloc),
        line: Vec::new(alloc),
        alloc,
    };
    runner.begin(&mut outside.folder)?;
    let end = runner.deliver_all(choices, outside)?;
    append(&mut outside.folder, task.log, TAIL)?;
    let taken = mem::replace(&mut runner.taken, ChoiceList::new(alloc));
    outcome_of(alloc, task.model, &runner.network, end, taken)
}
