//! What the promise of the line keeps.

ghost use Rattle.std.specs.Prelude.{ℕ, ℤ, Bool, List, Option};
ghost use Rattle.dcsp_script.specs.Clauses.{IsLawful};
ghost use Rattle.line_check.specs.Taking.{taking_of};
ghost use Rattle.line_export.specs.ExportPromise.{export_promise};

/// The promise keeps what every line of words keeps.
pub fn export_is_lawful()
    ensures { (better : Option ℤ) (model log cnf proof : List ℕ) (wanted : Bool) → IsLawful (export_promise (taking_of better) model log cnf proof wanted) }
{}
