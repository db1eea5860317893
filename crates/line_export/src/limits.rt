//! The limits of formulas.

ghost use Rattle.std.specs.Prelude.{◌≡◌, ◌<◌, ◌≤◌, All, IfErr, OnOk};
ghost use Rattle.dcsp_common.specs.Limits.{most};
ghost use Rattle.line_export.specs.Atoms.{AreAtoms};
ghost use Rattle.line_export.specs.Clauses.{IsStepIn};
ghost use Rattle.line_export.specs.Limits.{too_many, IsFormulaWithin};

use crate::atoms::Atoms;
use crate::clauses::ClauseSet;
use crate::formula::formula_of;
use abt_input::{ClausesError, CommandError};
use dcsp_defs::Step;
use dcsp_problem::Which;
use std::alloc::Global;

/// The formula of a derivation. It is refused, beside want of memory, exactly where it passes a limit of formulas: of
/// atoms, of clauses, of literals, tried in this order.
pub fn formula_within(
    alloc: Global,
    atoms: &Atoms<'_>,
    steps: &[Step],
) -> Result<ClauseSet, CommandError>
    requires atoms { AreAtoms atoms.now }
    requires steps { All (IsStepIn atoms.now.problem.now) steps.now }
    ensures { IsFormulaWithin atoms.now.problem.now steps.now result }
{
    within(Which::Variables, u128::from(atoms.count))?;
    let clauses = formula_of(alloc, atoms, steps)?;
    within(Which::Rules, clauses.len() as u128)?;
    within(Which::Terms, clauses.literals())?;
    Ok(clauses)
}

/// Refuses a count above its greatest number.
fn within(which: Which, count: u128) -> Result<(), CommandError>
    ensures ok { OnOk result (count ≤ most which) }
    ensures err { IfErr result (λ e. (e ≡ too_many which count) × (most which < count)) }
{
    if count <= which.most() as u128 {
        return Ok(());
    }
    Err(CommandError::Clauses {
        error: ClausesError::CnfLimit { which, count },
    })
}
