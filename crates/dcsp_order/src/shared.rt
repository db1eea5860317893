//! Which variables stand together in a scope.

ghost use Rattle.std.specs.Prelude.{◌≡◌, ◌+◌, ◌*◌, ◌<◌, ◌≤◌, All, IfOk, vec_len};
ghost use Rattle.dcsp_common.specs.Limits.{most};
ghost use Rattle.dcsp_common.specs.declared.limits.Which.TheVariants.{Variables};
ghost use Rattle.dcsp_rule.specs.Problems.{csp_of};
ghost use Rattle.dcsp_order.specs.Shared.{is_in_row, is_in_rows, AreShared, Sets};

use dcsp_common::Memory;
use dcsp_problem::Problem;
use std::alloc::Global;

/// For each two variables of the problem, row after row, whether some rule has both in its scope.
pub(crate) fn shared_scopes(alloc: Global, problem: &Problem) -> Result<Vec<bool>, Memory>
    ensures { IfOk result (λ flags. AreShared (csp_of problem.now) flags.items) }
{
    problem.denotes_csp();
    let width = problem.vars() as usize;
    let mut flags = vec![in alloc; false; width * width]?;
    for rule in 0..problem.rules() {
        set_rows(&mut flags, width, problem.scope(rule));
    }
    Ok(flags)
}

/// Sets the flags of each two of these variables.
fn set_rows(flags: &mut Vec<bool>, width: usize, scope: &[u32])
    requires few { width ≤ most Variables }
    requires inside { All (λ k. k < width) scope.now }
    requires as_many { vec_len flags.old ≡ width * width }
    ensures { Sets (is_in_rows width scope.now scope.now) flags.old.items flags.new.items }
{
    for var in scope {
        set_row(flags, *var as usize * width, scope);
    }
}

/// Sets the flags of these columns, in the row that begins there.
fn set_row(flags: &mut Vec<bool>, from: usize, columns: &[u32])
    requires { All (λ k. from + k < vec_len flags.old) columns.now }
    ensures { Sets (is_in_row from columns.now) flags.old.items flags.new.items }
{
    for column in columns {
        flags[from + *column as usize] = true;
    }
}
