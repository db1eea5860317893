//! The line `cnf CNF PROOF [--seed N]`.

ghost use Rattle.std.specs.Prelude.{◌≡◌, IfOk};
ghost use Rattle.dcsp_outside.specs.Outside.{Place, Stream};
ghost use Rattle.dcsp_script.specs.Outsides.{world};
ghost use Rattle.dcsp_script.specs.Ways.{Wrote};
ghost use Rattle.dcsp_script.specs.Runs.{CameIn};
ghost use Rattle.abt_input.specs.Errors.{way_of};
ghost use Rattle.line_replay.specs.Endings as endings;
ghost use Rattle.line_cnf.specs.CnfRuns.{cnf_run, cnf_script};
ghost use Rattle.line_cnf.specs.CnfOutcomes.{IsFormula};
ghost use Rattle.line_cnf.specs.CnfPromise.{cnf_promise};
ghost use Rattle.line_cnf.specs.CnfHeadline.{HoldsCnfRun, HoldsProof};

use crate::answer::{status_of, tell};
use crate::apart::run_apart;
use crate::proof::write_proof;
use abt_input::{CommandError, read_formula};
use dcsp_outside::{Folder, Sink};
use dcsp_problem::Problem;
use dcsp_script::{Outside, Status, Stop};
use std::alloc::Global;

/// The words of `cnf`.
#[derive(Clone, Copy)]
pub struct Cnf<'w> {
    /// The name of the formula.
    pub cnf: &'w str,
    /// The name that a proof is written under.
    pub proof: &'w str,
    /// The seed of the run's choices.
    pub seed: u64,
}

/// Runs the agents of the formula's problem under the choices of the seed, and tells whether the formula can be
/// satisfied. Where it cannot, a proof is written first.
pub fn run_cnf<F: Folder, S: Sink>(
    alloc: Global,
    outside: &mut Outside<F, S>,
    line: Cnf<'_>,
) -> Result<Status, CommandError>
    ensures came { CameIn (cnf_promise line.entry.cnf.now line.entry.proof.now line.entry.seed)
        (world F.place S.stream outside.old) (world F.place S.stream outside.new) (way_of result) }
    ensures writes { IfOk result (λ status. HoldsProof line.entry.cnf.now line.entry.proof.now line.entry.seed status
        (F.place outside.old.folder).held (F.place outside.new.folder).held) }
    ensures means { IfOk result (HoldsCnfRun (F.place outside.old.folder).held line.entry.cnf.now line.entry.seed) }
{
    let problem = read_formula(alloc, &mut outside.folder, line.cnf)?;
    problem.denotes_csp();
    let status = run_formula(alloc, &problem, line, outside)?;
    Ok(status)
}

/// Runs the agents, writes a refutation as a proof, and tells how the run ended.
fn run_formula<F: Folder, S: Sink>(
    alloc: Global,
    problem: &Problem,
    line: Cnf<'_>,
    outside: &mut Outside<F, S>,
) -> Result<Status, Stop>
    requires { IsFormula problem.now }
    ensures wrote { Wrote (cnf_script problem.now line.entry.proof.now (cnf_run problem.now line.entry.seed))
        (world F.place S.stream outside.old) (world F.place S.stream outside.new) result }
    ensures status { IfOk result (λ status. status ≡ endings.end_status (cnf_run problem.now line.entry.seed).end) }
{
    problem.denotes_csp();
    let made = run_apart(alloc, problem, line.seed)?;
    write_proof(alloc, &mut outside.folder, line.proof, &made.refutation)?;
    tell(alloc, &made.outcome, &mut outside.out)?;
    Ok(status_of(&made.outcome.end))
}
