//! The problem that a log is checked against.

ghost use Rattle.std.specs.Prelude.{◌≡◌, Err};
ghost use Rattle.abt_input.specs.Files.{HasRead};
ghost use Rattle.line_check.specs.Taking.{taking_of, model_by, LeavesBounded};

use abt_input::{CommandError, read_model};
use dcsp_outside::Folder;
use dcsp_problem::Problem;
use std::alloc::Global;

/// The problem of the model under the name; or where a bound is given, the one that only solutions with a better
/// value solve. Nothing is written.
///
/// `NoAim` comes exactly where a bound is given and the model's problem aims at no variable.
pub fn take_problem<F: Folder>(
    alloc: Global,
    folder: &mut F,
    model: &str,
    better: Option<i64>,
) -> Result<Problem, CommandError>
    ensures { HasRead (model_by (taking_of better)) model.now (F.place folder.old) (F.place folder.new) result }
{
    let problem = read_model(alloc, folder, model)?;
    bounded(problem, better)
}

/// The problem; or where a bound is given, what only solutions with a better value solve.
fn bounded(problem: Problem, better: Option<i64>) -> Result<Problem, CommandError>
    ensures leaves { LeavesBounded better problem result }
    ensures no_fault { result ≡ Err CommandError.Fault → ⊥ }
{
    let Some(bound) = better else {
        return Ok(problem);
    };
    if problem.aim().variable().is_none() {
        return Err(CommandError::NoAim);
    }
    Ok(problem.narrowed(bound)?)
}
