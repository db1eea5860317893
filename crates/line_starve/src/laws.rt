//! What the promise of `starve` keeps.

ghost use Rattle.std.specs.Prelude.{ℕ, List, Option};
ghost use Rattle.dcsp_script.specs.Clauses.{IsLawful};
ghost use Rattle.line_starve.specs.StarvePromise.{starve_promise};

/// The promise keeps what every line of words keeps.
pub fn starve_is_lawful()
    ensures { (model : List ℕ) (from to : ℕ) (file : List ℕ) (order_file : Option (List ℕ)) → IsLawful (starve_promise model from to file order_file) }
{}
