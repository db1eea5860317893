//! What the promise of `lossy` keeps, and what its runs mean.

ghost use Rattle.std.specs.Prelude.{ℕ, List, Option};
ghost use Rattle.dcsp_script.specs.Clauses.{IsLawful};
ghost use Rattle.line_lossy.specs.LossyPromise.{lossy_promise};
ghost use Rattle.line_lossy.specs.Meaning.{AnswersArePut, AnswersComeLast, FilesAreWhole, RunsAreRight};

/// The promise keeps what every line of words keeps.
pub fn lossy_is_lawful()
    ensures { (model : List ℕ) (order_file : Option (List ℕ)) (log : List ℕ) (events seed : ℕ) (record_file : Option (List ℕ)) → IsLawful (lossy_promise model order_file log events seed record_file) }
{}

/// A run over the medium ends solved, refuted, or with the most calm events made; it says so rightly, within the
/// calm budget, and its record gives the same run over reliable links.
pub fn lossy_runs_are_right()
    ensures { RunsAreRight }
{}

/// What a run writes when nothing stops it: its log whole, its record, if one is asked for, and its answer; and wherever
/// it was stopped, log and record are whole once a byte of the answer was put.
pub fn lossy_runs_are_whole()
    ensures files { FilesAreWhole }
    ensures answers { AnswersArePut }
    ensures last { AnswersComeLast }
{}
