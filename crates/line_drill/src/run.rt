//! The run of a generated problem.

ghost use Rattle.std.specs.Prelude.{◌≡◌, ℕ, false, List, Some, None, IfOk, OnOk, IsOk};
ghost use Rattle.std.specs.FinMap as map;
ghost use Rattle.ngd_log.specs.Logs.{log_text};
ghost use Rattle.abt_session.specs.Running.{Gives};
ghost use Rattle.abt_input.specs.Inputs.{IsModelOf};
ghost use Rattle.line_check.specs.Checks.{IsFoundFor};
ghost use Rattle.line_replay.specs.Asked.{seeded_session};
ghost use Rattle.line_drill.specs.Drills.{log_name, run_from, HasFinding, HasProblem};

use abt_input::CommandError;
use abt_schedule::Seeded;
use abt_session::{MOST_DELIVERIES, Ordered, Outcome, RunTask, Telling, run};
use dcsp_common::Memory;
use dcsp_outside::{SureFolder, SureSink};
use dcsp_problem::Problem;
use dcsp_script::{Outside, Stop};
use fzn_model::{ModelError, problem_of};
use line_check::check_log;
use ngd_check::Finding;
use std::alloc::{AllocError, Global};

/// A problem that was run.
#[derive(Drop)]
pub struct Trial {
    pub problem: Problem,
    pub outcome: Outcome,
    /// Where the log of the run is, alone.
    pub folder: SureFolder,
}

/// Runs the problem of a generated text under the choices of the seed. It refuses only for want of memory.
pub fn try_text(
    alloc: Global,
    text: Result<Vec<u8>, Memory>,
    seed: u64,
) -> Result<Trial, AllocError>
    requires { IfOk text (λ bytes. HasProblem bytes.items) }
    ensures model { IfOk result (λ trial. IfOk text (λ bytes. IsModelOf bytes.items trial.problem)) }
    ensures gives { IfOk result (λ trial. Gives (seeded_session None trial.problem seed log_name false) trial.outcome) }
    ensures log { IfOk result (λ trial. map.get trial.folder.files log_name ≡ Some (log_text (run_from trial.problem seed).net.steps)) }
    ensures made { OnOk result (IsOk text) }
{
    let Ok(text) = text else {
        return Err(AllocError);
    };
    let problem = match problem_of(alloc, text) {
        Ok(problem) => problem,
        Err(ModelError::Memory) => return Err(AllocError),
        // the text has a problem
        Err(ModelError::Refused(_)) => unreachable!(),
    };
    let mut outside = Outside {
        folder: SureFolder::new(alloc),
        out: SureSink::new(alloc),
    };
    let outcome = run_problem(alloc, &problem, seed, &mut outside)?;
    Ok(Trial {
        problem,
        outcome,
        folder: outside.folder,
    })
}

/// The answer to this error, which is want of memory.
fn lacked(error: CommandError) -> AllocError
    requires { error ≡ CommandError.Memory }
{
    match error {
        CommandError::Memory => AllocError,
        _ => unreachable!(),
    }
}

/// Runs the problem, with its log in the folder of this outside.
fn run_problem(
    alloc: Global,
    problem: &Problem,
    seed: u64,
    outside: &mut Outside<SureFolder, SureSink>,
) -> Result<Outcome, AllocError>
    ensures gives { IfOk result (Gives (seeded_session None problem.now seed log_name false)) }
    ensures log { OnOk result (map.get outside.new.folder.files log_name ≡ Some (log_text (run_from problem.now seed).net.steps)) }
{
    let mut choices = Seeded::new(seed);
    let model = Ordered {
        problem,
        order: None,
    };
    let task = RunTask {
        model,
        log: "drill",
        most: MOST_DELIVERIES,
        telling: Telling::nothing(),
        keep: false,
    };
    match run(alloc, task, &mut choices, outside) {
        Ok(outcome) => Ok(outcome),
        Err(Stop::Memory) => Err(AllocError),
        // neither a sure folder nor a sure sink fails
        Err(Stop::Fault) => unreachable!(),
    }
}

impl Trial {
    /// What is found of the log. It refuses only for want of memory.
    pub fn check(&mut self, alloc: Global) -> Result<Finding, AllocError>
        requires { HasFinding self.old.problem self.old.folder.files }
        ensures found { (log : List ℕ) → map.get self.old.folder.files log_name ≡ Some log → IfOk result (IsFoundFor self.old.problem log) }
        ensures same { (self.new.problem ≡ self.old.problem) × (self.new.outcome ≡ self.old.outcome) }
    {
        match check_log(alloc, &mut self.folder, &self.problem, "drill") {
            Ok(finding) => Ok(finding),
            // something is found of the log, and a sure folder never fails
            Err(error) => Err(lacked(error)),
        }
    }
}
