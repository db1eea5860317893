//! What the promises of both lines keep, and whose runs are measured.

ghost use Rattle.std.specs.Prelude.{◌≡◌, ℕ, List, Option};
ghost use Rattle.dcsp_defs.specs.Csp.{Csp};
ghost use Rattle.dcsp_rule.specs.Problems.{Contents, csp_of};
ghost use Rattle.dcsp_script.specs.Clauses.{IsLawful};
ghost use Rattle.dcsp_order.specs.Told.{ordered};
ghost use Rattle.line_replay.specs.Asked.{asked_run, most_deliveries, solve};
ghost use Rattle.line_replay.specs.Settings.{Settings};
ghost use Rattle.line_measure.specs.Numbers.{listed, numbers_of, run_under, seeded};
ghost use Rattle.line_measure.specs.MeasurePromise.{measure_promise, survey_promise};

/// The promises keep what every line of words keeps.
pub fn measures_are_lawful()
    ensures measure { (model schedule : List ℕ) (order_file : Option (List ℕ)) → IsLawful (measure_promise model schedule order_file) }
    ensures survey { (model : List ℕ) (from count : ℕ) (order_file : Option (List ℕ)) → IsLawful (survey_promise model from count order_file) }
{}

/// The run of a seed is the one that `solve` makes with it, under the same order or without one, whatever its log, its
/// record and its trace, where the number of its choices is not limited.
pub fn seeds_are_of_solve()
    ensures { (order : Option (List ℕ)) (p : Contents) (log : List ℕ) (s : Settings) → s.choices ≡ most_deliveries
        → asked_run (solve order p log s) ≡ run_under (csp_of (ordered order p)) (seeded s.seed) }
{}

/// A run and the replay of its record have the same numbers.
pub fn records_alike()
    ensures { (p : Csp) (choices : List ℕ) → numbers_of p (listed (run_under p choices).numbers) ≡ numbers_of p choices }
{}

/// The line of a seed has the numbers that `measure` tells of the record of the run that `solve` makes with it, all three
/// under the same order or without one.
pub fn lines_are_of_records()
    ensures { (order : Option (List ℕ)) (p : Contents) (log : List ℕ) (s : Settings) → s.choices ≡ most_deliveries
        → numbers_of (csp_of (ordered order p)) (seeded s.seed) ≡ numbers_of (csp_of (ordered order p)) (listed (asked_run (solve order p log s)).numbers) }
{}
