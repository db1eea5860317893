//! What the promise of the line keeps.

ghost use Rattle.std.specs.Prelude.{ℕ, ℤ, List, Option};
ghost use Rattle.dcsp_script.specs.Clauses.{IsLawful};
ghost use Rattle.line_check.specs.Taking.{taking_of};
ghost use Rattle.line_check.specs.CheckReports.{check_promise};

/// The promise keeps what every line of words keeps.
pub fn check_is_lawful()
    ensures { (better : Option ℤ) (model log : List ℕ) → IsLawful (check_promise (taking_of better) model log) }
{}
