//! A run with its record.

ghost use Rattle.std.specs.Prelude.{◌≡◌, ◌≤◌, ◌+◌, ◌^◌, ◌++◌, ℕ, IfOk, OnOk, option_copied};
ghost use Rattle.dcsp_outside.specs.Outside.{Place, Stream};
ghost use Rattle.dcsp_script.specs.Outsides.{world};
ghost use Rattle.dcsp_script.specs.Scripts.{outside};
ghost use Rattle.dcsp_script.specs.Ways.{Wrote};
ghost use Rattle.abt_session.specs.Sessions.{run_of, run_script};
ghost use Rattle.dcsp_order.specs.Told.{Fits};
ghost use Rattle.abt_session.specs.Ordering.{order_in};
ghost use Rattle.abt_session.specs.Running.{Gives};
ghost use Rattle.line_replay.specs.Asked.{record_script};
ghost use Rattle.line_replay.specs.Tasks.{task_session};

use abt_schedule::{Choices, write_schedule};
use abt_session::{Ordered, Outcome, RunTask, Telling, run};
use dcsp_outside::{Folder, Sink};
use dcsp_script::{Outside, Stop, append, create};
use std::alloc::Global;

/// A run, and what it writes beside its answer.
#[derive(Clone, Copy)]
pub struct Task<'w> {
    /// The problem that is run, and its order.
    pub model: Ordered<'w>,
    /// The name of its log.
    pub log: &'w str,
    /// The name of its record, where one is asked for.
    pub record_file: Option<&'w str>,
    /// How many deliveries it makes at most.
    pub most: u64,
    /// What is put of each delivery.
    pub telling: Telling,
}

/// Makes the run under the choices, and then its record, where one is asked for.
pub fn run_recorded<C: Choices, F: Folder, S: Sink>(
    alloc: Global,
    task: Task<'_>,
    choices: &mut C,
    outside: &mut Outside<F, S>,
) -> Result<Outcome, Stop>
    requires most { task.most ≤ 2 ^ 40 }
    requires fits { Fits (order_in task.model) task.model.problem.now }
    ensures wrote { let s = task_session (C.answers choices.old) task.entry in
        Wrote (run_script s ++ record_script (option_copied task.entry.record_file) (run_of s).numbers)
        (world F.place S.stream outside.old) (world F.place S.stream outside.new) result }
    ensures gives { IfOk result (Gives (task_session (C.answers choices.old) task.entry)) }
    ensures answers { let s = task_session (C.answers choices.old) task.entry in
        OnOk result ((k : ℕ) → C.answers choices.new k ≡ C.answers choices.old ((run_of s).net.deliveries + k)) }
{
    let asked = RunTask {
        model: task.model,
        log: task.log,
        most: task.most,
        telling: task.telling,
        keep: task.record_file.is_some(),
    };
    let outcome = run(alloc, asked, choices, outside)?;
    write_record(
        alloc,
        &mut outside.folder,
        task.record_file,
        outcome.numbers.choices(),
    )?;
    Ok(outcome)
}

/// Writes the record of these numbers, where one is asked for.
pub fn write_record<F: Folder>(
    alloc: Global,
    folder: &mut F,
    record_file: Option<&str>,
    numbers: &[u32],
) -> Result<(), Stop>
    ensures { (out : Stream) → Wrote (record_script (option_copied record_file.entry) numbers.now)
        (outside (F.place folder.old) out) (outside (F.place folder.new) out) result }
{
    let Some(name) = record_file else {
        return Ok(());
    };
    let mut text = Vec::new(alloc);
    let Ok(()) = write_schedule(numbers, &mut text) else {
        return Err(Stop::Memory);
    };
    create(folder, name)?;
    append(folder, name, &text)
}
