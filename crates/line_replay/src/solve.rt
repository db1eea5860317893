//! A run under the choices of a seed.

ghost use Rattle.std.specs.Prelude.{◌≡◌, ◌≤◌, ◌^◌, IfOk};
ghost use Rattle.dcsp_outside.specs.Outside.{Place, Stream};
ghost use Rattle.dcsp_script.specs.Outsides.{world};
ghost use Rattle.dcsp_script.specs.Ways.{Wrote};
ghost use Rattle.line_replay.specs.Endings as endings;
ghost use Rattle.line_replay.specs.Settings.{settings_of, telling_of};
ghost use Rattle.line_replay.specs.Asked.{asked_run, asked_script};
ghost use Rattle.line_replay.specs.Tasks.{solve_of};
ghost use Rattle.abt_session.specs.Ordering.{IsOrderedRightly};

use crate::ending::{end_status, tell};
use crate::record::{Task, run_recorded};
use abt_schedule::Seeded;
use abt_session::{Ordered, Telling};
use dcsp_outside::{Folder, Sink};
use dcsp_script::{Outside, Status, Stop};
use std::alloc::Global;

/// The words of `solve`.
#[derive(Clone, Copy)]
pub struct Solve<'w> {
    /// The name of the model.
    pub model: &'w str,
    /// The name of the run's log.
    pub log: &'w str,
    pub options: Options<'w>,
}

/// How the run is made, and each round of a search.
#[derive(Clone, Copy)]
pub struct Options<'w> {
    /// The seed of the choices.
    pub seed: u64,
    /// How many choices the run has, at most 2^40: the first ones of the seed's. Where a message is in transit when
    /// they are used up, the run is unfinished.
    pub choices: u64,
    /// The name of the record, where one is asked for.
    pub record_file: Option<&'w str>,
    /// The name of the order, where one is given.
    pub order_file: Option<&'w str>,
    /// Whether the trace is put.
    pub trace: bool,
    /// Whether it is told every so often how far the run is, or each round of a search.
    pub progress: bool,
    /// Whether a search puts each solution as soon as it is found. A run for any solution is as without.
    pub each: bool,
    /// Whether a search goes by halves. A run for any solution is as without.
    pub halves: bool,
}

impl Options<'_> {
    /// What is put of each delivery of a run, or of the round of a search with this number.
    pub fn telling(&self, round: Option<u64>) -> Telling
        ensures { result ≡ telling_of (settings_of self.now) round }
    {
        Telling {
            trace: self.trace,
            progress: self.progress,
            round,
        }
    }
}

/// Runs the problem under the choices of the seed, and tells how the run ended.
pub fn run_seed<'w, F: Folder, S: Sink>(
    alloc: Global,
    model: Ordered<'w>,
    line: Solve<'w>,
    outside: &mut Outside<F, S>,
) -> Result<Status, Stop>
    requires few { line.options.choices ≤ 2 ^ 40 }
    requires model { IsOrderedRightly model }
    ensures wrote { Wrote (asked_script (solve_of model.entry line.entry))
        (world F.place S.stream outside.old) (world F.place S.stream outside.new) result }
    ensures status { IfOk result (λ status. status ≡ endings.end_status (asked_run (solve_of model.entry line.entry)).end) }
{
    let task = Task {
        model,
        log: line.log,
        record_file: line.options.record_file,
        most: line.options.choices,
        telling: line.options.telling(None),
    };
    let mut choices = Seeded::new(line.options.seed);
    let outcome = run_recorded(alloc, task, &mut choices, outside)?;
    tell(alloc, model.problem, &outcome, None, &mut outside.out)?;
    Ok(end_status(&outcome.end))
}
