//! The line `solve`: a run of the agents where a model asks for any solution, and a search where it asks for the
//! best value of a term.
//!
//! A search has rounds. Each is a run from the same seed, and creates the log anew: the first one on the whole
//! problem, each later one on the problem narrowed to better values than the best one found before it. By halves it is
//! narrowed to the better half of those, and where that half is refuted it is asked for no more; the last round is as
//! without. After the last round comes the record of the first, and what was found is put last. So whatever answer was
//! seen has the log of the last round, which refutes every better value. Where each solution is asked for it is put
//! when its round has ended, and not once more at the end.
#![tactic(auto)]

ghost use Rattle.line_solve.specs.Searching.{AskedSearch};
ghost use Rattle.line_solve.specs.BestHeadline.{HalvesChangeNothing};

mod answer;
mod line;
mod runner;

pub use line::run_solve;

/// A search by halves comes to the status that one without comes to, and to the same best value at the aim, where
/// neither leaves a round open.
pub fn halves_change_nothing()
    ensures { (asked : AskedSearch) → HalvesChangeNothing asked }
{}
