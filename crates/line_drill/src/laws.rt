//! What the promise of the line keeps.

ghost use Rattle.std.specs.Prelude.{ℕ};
ghost use Rattle.dcsp_script.specs.Clauses.{IsLawful};
ghost use Rattle.line_drill.specs.DrillPromise.{drill_promise};

/// The promise keeps what every line of words keeps.
pub fn drill_is_lawful()
    ensures { (seed : ℕ) → IsLawful (drill_promise seed) }
{}
