//! Running a command over a folder and two streams.

ghost use Rattle.std.specs.Prelude.{◌≡◌, ◌↔◌, ℕ, ℤ, Bool, List, Option, Some, None, [], Ok, codes};
ghost use Rattle.dcsp_script.specs.Outsides.{world};
ghost use Rattle.dcsp_script.specs.Ways.{Did, CountsStay};
ghost use Rattle.dcsp_script.specs.declared.status.Status.{Status};
ghost use Rattle.dcsp_script.specs.Statuses.{IsFinal, IsRefusal};
ghost use Rattle.dcsp_script.specs.Promises.{IsSaid};
ghost use Rattle.dcsp_script.specs.Runs.{Concludes, Answers, Faults, Lacks};
ghost use Rattle.dcsp_script.specs.Clauses.{HasCause, IsComplete, GainsText, LeavesOthers, CreatesOwn, IsLawful};
ghost use Rattle.abt_words.specs.Values.{texts};
ghost use Rattle.abt_input.specs.Errors.{way_of, error_text};
ghost use Rattle.line_check.specs.Checks.{IsRefuted};
ghost use Rattle.line_replay.specs.Headline.{IsRun, IsSolvedRun, IsRefutedRun, IsUnfinishedRun, IsBoundedRun, WritesOrdered};
ghost use Rattle.abt_command.specs.AskedRuns.{EachRun, EachTrueRun, IsCheckedRun, IsCheckedAnswer, IsSatisfyingRun};
ghost use Rattle.line_replay.specs.Recorded.{HoldsRecord};
ghost use Rattle.line_replay.specs.Settings.{Settings};
ghost use Rattle.line_solve.specs.BestHeadline.{IsSearched, IsBestSearch, IsImproving, IsRefutedSearch, IsUnfinishedSearch, IsBoundedSearch, SearchOrdered};
ghost use Rattle.abt_command.specs.AskedSearches.{EachSearch, EachTrueSearch, IsCheckedSearch, IsCheckedBest, IsSatisfyingSearch};
ghost use Rattle.dcsp_order.specs.declared.by_rule.OrderRule.{OrderRule};
ghost use Rattle.line_model.specs.OrderHeld.{HoldsOrder};
ghost use Rattle.abt_command.specs.Meanings.{AnswersCheck, HoldsNoBetter, IsProved, IsFormulaRun, IsCoreAnswer, IsExportAnswer, IsStarvedAnswer};
ghost use Rattle.line_rewrite.specs.Upgrading.{IsUpgraded};
ghost use Rattle.abt_command.specs.AskedLosses.{EachLossy, IsLossyAnswer, IsTrueLossy};
ghost use Rattle.line_story.specs.Stories.{HoldsStory};
ghost use Rattle.abt_command.specs.Drilled.{IsDrilled};
ghost use Rattle.abt_command.specs.Lines as lines;
ghost use Rattle.abt_command.specs.Lines.{Line, IsLine, IsNoLine, Means, promise_of};
ghost use Rattle.abt_command.specs.LinePromises.{EachPromise, HasRun};

use crate::request::{Request, words_of};
use abt_input::{CommandError, error_line, error_status};
use dcsp_outside::{Folder, Sink};
use dcsp_script::{Outside, Status, say};
use std::alloc::Global;

/// Puts the error's line on `err`.
fn explain<S: Sink>(error: CommandError, err: &mut S)
    ensures { IsSaid (error_text error) (S.stream err.old) (S.stream err.new) }
{
    say(err, error_line(error).bytes());
}

/// The status of what a line came to. What stopped it, or refused its input, is said on `err`.
fn conclude<S: Sink>(came: Result<Status, CommandError>, err: &mut S) -> Status
    ensures { Concludes (way_of came) (S.stream err.old) (S.stream err.new) result }
{
    match came {
        Ok(status) => status,
        Err(error) => {
            explain(error, err);
            error_status(error)
        }
    }
}

/// A law of the lines: a list of words is at most one line, and each line's promise has at most one report
/// for the bytes of its files, changes only names that it creates, and fetches only its own names.
pub fn lines_are_lawful()
    ensures one_line { (words : List (List ℕ)) (line other : Line)
        → IsLine words line → IsLine words other → line ≡ other }
    ensures lawful { (line : Line) → IsLawful (promise_of line) }
{}

/// Runs the command that the words ask for, and gives its status.
///
/// A status of 0, 1, 3, 4 or 5 is that of the line's report on the bytes of its files, whose writes
/// were all made, and nothing failed. Status 6 comes only where a fetch failed after all that
/// stands before it had passed, or where a write of the report failed, and nothing is tried after
/// it. Status 7 is want of memory, and leaves whole first writes of the report. Any other words
/// have status 2. What `docs/FORMATS.md` lists goes to `err`, and nothing with the statuses 0, 1
/// and 5.
pub fn run_command<F: Folder, S: Sink>(
    alloc: Global,
    words: &[String],
    outside: &mut Outside<F, S>,
    err: &mut S,
) -> Status
    // The whole of it: all that follows is said of this.
    ensures runs { HasRun (texts words.now)
        (world F.place S.stream outside.old) (world F.place S.stream outside.new)
        (S.stream err.old) (S.stream err.new) result }

    // What status 2 goes with.
    ensures words { (result ≡ Status.Words) ↔ IsNoLine (texts words.now) }
    ensures bad_words { result ≡ Status.Words
        → IsSaid (codes "abt: bad words\n") (S.stream err.old) (S.stream err.new) }

    // What each status of a line goes with.
    ensures answers { EachPromise (texts words.now) (λ promise. IsFinal result → Answers promise
        (world F.place S.stream outside.old) (world F.place S.stream outside.new)
        (S.stream err.old) (S.stream err.new) result) }
    ensures faults { EachPromise (texts words.now) (λ promise. result ≡ Status.Fault → Faults promise
        (world F.place S.stream outside.old) (world F.place S.stream outside.new)
        (S.stream err.old) (S.stream err.new)) }
    ensures lacks { EachPromise (texts words.now) (λ promise. result ≡ Status.Memory → Lacks promise
        (world F.place S.stream outside.old) (world F.place S.stream outside.new)
        (S.stream err.old) (S.stream err.new)) }

    // What follows of it.
    ensures stays { IsFinal result → CountsStay
        (world F.place S.stream outside.old) (world F.place S.stream outside.new) }
    ensures refused { IsRefusal result → Did []
        (world F.place S.stream outside.old) (world F.place S.stream outside.new) }
    ensures cause { EachPromise (texts words.now) (λ promise. result ≡ Status.Fault → HasCause promise
        (world F.place S.stream outside.old) (world F.place S.stream outside.new)) }
    ensures complete { EachPromise (texts words.now) (λ promise. IsComplete promise
        (world F.place S.stream outside.old) (world F.place S.stream outside.new) result) }
    ensures text { EachPromise (texts words.now) (λ promise. GainsText promise
        (world F.place S.stream outside.old) (world F.place S.stream outside.new)) }
    ensures others { EachPromise (texts words.now) (λ promise. LeavesOthers promise
        (world F.place S.stream outside.old) (world F.place S.stream outside.new)) }
    ensures created { EachPromise (texts words.now) (λ promise. CreatesOwn promise
        (world F.place S.stream outside.old) (world F.place S.stream outside.new)) }

    // What an answer means beyond its report, whichever line it is.
    ensures means { (line : Line) → IsLine (texts words.now) line → IsFinal result → (IsRefusal result → ⊥)
        → Means line (world F.place S.stream outside.old) (world F.place S.stream outside.new) result }

    // What that is for single lines: a log that is verified, and the runs.
    ensures verified { (model log : List ℕ) → IsLine (texts words.now) (lines.Check model log None)
        → result ≡ Status.Good → IsRefuted (F.place outside.old.folder).held model }
    ensures no_better { (model log : List ℕ) (bound : ℤ) → IsLine (texts words.now) (lines.Check model log (Some bound))
        → result ≡ Status.Good → HoldsNoBetter (F.place outside.old.folder).held model bound }
    ensures exact { (model log : List ℕ) (better : Option ℤ) → IsLine (texts words.now) (lines.Check model log better)
        → IsFinal result → (IsRefusal result → ⊥) → AnswersCheck better (F.place outside.old.folder).held model log result }
    ensures true_runs { EachTrueRun (texts words.now) (F.place outside.old.folder).held }
    ensures the_run { EachRun (texts words.now) (F.place outside.old.folder).held (λ asked. IsFinal result → IsRun asked result
        (world F.place S.stream outside.old) (world F.place S.stream outside.new)) }
    ensures solved { EachRun (texts words.now) (F.place outside.old.folder).held (λ asked. IsSolvedRun asked result) }
    ensures refuted { EachRun (texts words.now) (F.place outside.old.folder).held (λ asked. IsRefutedRun asked result) }
    ensures checks { EachRun (texts words.now) (F.place outside.old.folder).held (λ asked.
        IsCheckedRun (texts words.now) (F.place outside.new.folder).held asked result) }
    ensures answer_checks { EachRun (texts words.now) (F.place outside.old.folder).held (λ asked. IsCheckedAnswer (texts words.now) asked
        (world F.place S.stream outside.old) (world F.place S.stream outside.new)) }
    ensures satisfies { EachRun (texts words.now) (F.place outside.old.folder).held (λ asked.
        IsSatisfyingRun (texts words.now) (F.place outside.old.folder).held asked result) }
    ensures no_stall { EachRun (texts words.now) (F.place outside.old.folder).held (λ asked. IsFinal result → IsUnfinishedRun asked result) }
    ensures bound { EachRun (texts words.now) (F.place outside.old.folder).held (λ asked. IsFinal result → IsBoundedRun asked result) }
    ensures in_order { EachRun (texts words.now) (F.place outside.old.folder).held (λ asked. WritesOrdered asked
        (world F.place S.stream outside.old) (world F.place S.stream outside.new)) }

    // The record of a run from a seed, or of a search's first round: the choices of which `replay` makes that run again.
    ensures records { (model log : List ℕ) (settings : Settings) → IsLine (texts words.now) (lines.Solve model log settings)
        → IsFinal result → (IsRefusal result → ⊥) → HoldsRecord model log settings
        (F.place outside.old.folder).held (F.place outside.new.folder).held }

    // A search for the best value.
    ensures true_searches { EachTrueSearch (texts words.now) (F.place outside.old.folder).held }
    ensures the_search { EachSearch (texts words.now) (F.place outside.old.folder).held (λ asked. IsFinal result → IsSearched asked result
        (world F.place S.stream outside.old) (world F.place S.stream outside.new)) }
    ensures best { EachSearch (texts words.now) (F.place outside.old.folder).held (λ asked. IsBestSearch asked result) }
    ensures each_better { EachSearch (texts words.now) (F.place outside.old.folder).held IsImproving }
    ensures none_at_all { EachSearch (texts words.now) (F.place outside.old.folder).held (λ asked. IsFinal result → IsRefutedSearch asked result) }
    ensures best_checks { EachSearch (texts words.now) (F.place outside.old.folder).held (λ asked.
        IsCheckedSearch (texts words.now) (F.place outside.new.folder).held asked result) }
    ensures best_answer_checks { EachSearch (texts words.now) (F.place outside.old.folder).held (λ asked. IsCheckedBest (texts words.now) asked
        (world F.place S.stream outside.old) (world F.place S.stream outside.new)) }
    ensures best_satisfies { EachSearch (texts words.now) (F.place outside.old.folder).held (λ asked.
        IsSatisfyingSearch (texts words.now) (F.place outside.old.folder).held asked result) }
    ensures capped { EachSearch (texts words.now) (F.place outside.old.folder).held (λ asked. IsFinal result → IsUnfinishedSearch asked result) }
    ensures rounds { EachSearch (texts words.now) (F.place outside.old.folder).held (λ asked. IsFinal result → IsBoundedSearch asked result) }
    ensures rounds_in_order { EachSearch (texts words.now) (F.place outside.old.folder).held (λ asked. SearchOrdered asked
        (world F.place S.stream outside.old) (world F.place S.stream outside.new)) }

    // And the proofs about formulas.
    ensures proved { (cnf proof : List ℕ) → IsLine (texts words.now) (lines.Rup cnf proof)
        → IsFinal result → (IsRefusal result → ⊥) → IsProved cnf proof
        (world F.place S.stream outside.old) (world F.place S.stream outside.new) result }
    ensures formula { (cnf proof : List ℕ) (seed : ℕ) → IsLine (texts words.now) (lines.Cnf cnf proof seed)
        → IsFinal result → (IsRefusal result → ⊥) → IsFormulaRun cnf proof seed
        (world F.place S.stream outside.old) (world F.place S.stream outside.new) result }

    // And a log that was upgraded, or trimmed.
    ensures upgraded { (log new : List ℕ) → IsLine (texts words.now) (lines.Upgrade log new)
        → result ≡ Status.Good → IsUpgraded log new
        (world F.place S.stream outside.old) (world F.place S.stream outside.new) }
    ensures trimmed { (model log trimmed : List ℕ) (better : Option ℤ) → IsLine (texts words.now) (lines.Core model log trimmed better)
        → IsFinal result → (IsRefusal result → ⊥) → IsCoreAnswer better model log trimmed
        (world F.place S.stream outside.old) (world F.place S.stream outside.new) result }

    // And a refutation that was exported: formula and proof are there, the formula says no more than the problem, and
    // `rup` over the folder that is left verifies the proof or is stopped.
    ensures exported { (model log cnf proof : List ℕ) (told : Bool) (better : Option ℤ)
        → IsLine (texts words.now) (lines.Export model log cnf proof told better)
        → IsFinal result → (IsRefusal result → ⊥) → IsExportAnswer model log cnf proof told better
        (world F.place S.stream outside.old) (world F.place S.stream outside.new) result }

    // And an order that was written.
    ensures ordered { (model : List ℕ) (rule : OrderRule) (file : List ℕ) → IsLine (texts words.now) (lines.Order model rule file)
        → result ≡ Status.Good → HoldsOrder model rule file (F.place outside.old.folder).held (F.place outside.new.folder).held }

    // And a run that starves a link, under the order where one is given, or that is made over a medium that loses, repeats and reorders.
    ensures starved { (model : List ℕ) (from to : ℕ) (file : List ℕ) (order_file : Option (List ℕ))
        → IsLine (texts words.now) (lines.Starve model from to file order_file)
        → result ≡ Status.Good → IsStarvedAnswer model from to file order_file
        (world F.place S.stream outside.old) (world F.place S.stream outside.new) }
    ensures lossy { EachLossy (texts words.now) (F.place outside.old.folder).held (λ files model asked. IsFinal result → IsLossyAnswer files model asked
        (world F.place S.stream outside.old) (world F.place S.stream outside.new) result) }
    ensures true_lossy { EachLossy (texts words.now) (F.place outside.old.folder).held (λ files model asked. IsTrueLossy files model asked
        (world F.place S.stream outside.old) (world F.place S.stream outside.new)) }

    // And a drill: how its runs ended is not left open, but that of the sparse graph, and the log that is checked is verified.
    ensures drilled { (seed : ℕ) → IsLine (texts words.now) (lines.Drill seed) → IsFinal result → IsDrilled seed
        (world F.place S.stream outside.old) (world F.place S.stream outside.new) result }

    // And a run that is told: the file holds its story, which hides nothing and is no other run's.
    ensures told { (model schedule file : List ℕ) (order_file : Option (List ℕ)) → IsLine (texts words.now) (lines.Story model schedule file order_file)
        → IsFinal result → (IsRefusal result → ⊥) → HoldsStory model order_file schedule file
        (F.place outside.old.folder).held (F.place outside.new.folder).held }
{
    match words_of(words) {
        Some(request) => {
            let came = request.run(alloc, outside);
            conclude(came, err)
        }
        None => {
            say(err, b"abt: bad words\n");
            Status::Words
        }
    }
}
