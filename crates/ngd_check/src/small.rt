//! The numbers of a problem.

ghost use Rattle.std.specs.Prelude.{ℤ, FitsSigned};
ghost use Rattle.std.specs.Int.{w64};
ghost use Rattle.dcsp_defs.specs.Words.{In};
ghost use Rattle.dcsp_rule.specs.Problems.{csp_of};
ghost use Rattle.ngd_check.specs.Logged.{IsSmall};

use dcsp_domain::Domain;
use dcsp_problem::Problem;

/// A log can name all that a problem has.
///
/// Nothing is made here. A number that was read has 64 bits, and what stands between the least and the
/// greatest value of a domain has them too, so these two are read of each domain.
pub fn problems_are_small(problem: &Problem)
    ensures { IsSmall (csp_of problem.now) }
{
    for var in 0..problem.vars() {
        read_ends(problem.domain(var));
    }
}

/// Reads the least value and the greatest.
fn read_ends(domain: &Domain)
    ensures { (v : ℤ) → In v domain.now → FitsSigned w64 v }
{
    let count = domain.len();
    if count > 0 {
        let _least = domain.value(0);
        let _greatest = domain.value(count - 1);
    }
}
