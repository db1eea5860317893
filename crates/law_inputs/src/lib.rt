//! What holds of whatever the program is given.
//!
//! Of all texts of models: each has an answer, each refusal names the place of a token, or one that has none, blanks
//! and comments between tokens, predicates and annotations that are no marks change nothing, a text has a problem
//! exactly where its items pass their checks, and the grammar that looks ahead reads what the grammar of plain
//! alternatives does.
//!
//! Of all lines of words: whatever the bytes of its files are, each has exactly one report, which every run of it
//! follows; any file is read or refused; and what a report asks for is there, and there once.
#![tactic(auto)]

ghost use Rattle.abt_command.specs.Lines.{Line, promise_of};
ghost use Rattle.law_inputs.specs.Accepted.{AcceptedItems, AcceptedTexts};
ghost use Rattle.law_inputs.specs.Answered.{TextsHaveTokens, TokensHaveItems, TextsHaveAnswers};
ghost use Rattle.law_inputs.specs.Gapped.{GapsAreIgnored};
ghost use Rattle.law_inputs.specs.Ignored.{IgnoredCanBeLeftOut, IgnoredChangesNothing};
ghost use Rattle.law_inputs.specs.Placed.{RefusalsArePlaced};
ghost use Rattle.law_inputs.specs.PlainGrammar.{ItemsAgree, GrammarsAgree};
ghost use Rattle.law_inputs.specs.Predicates.{PredicatesAreIgnored};
ghost use Rattle.law_inputs.specs.Reports.{HasOneReport, RunsFollowReports};
ghost use Rattle.law_inputs.specs.Files.{FilesAreReadOrRefused};
ghost use Rattle.law_inputs.specs.Found.{ProofsHaveOneVerdict, ProblemsHaveOneOrder, StepsHaveOneCore};

/// Each text, of any length, has tokens or a first place that is refused.
pub fn texts_have_tokens()
    ensures { TextsHaveTokens }
{}

/// Any tokens have items or a first one that no production reads.
pub fn tokens_have_items()
    ensures { TokensHaveItems }
{}

/// Each text has a problem or a first refusal, and so a reader with enough memory has an answer for it.
pub fn texts_have_answers()
    ensures { TextsHaveAnswers }
{}

/// The place that a refusal names is the first byte of a token, or one where no token in range begins.
pub fn refusals_are_placed()
    ensures { RefusalsArePlaced }
{}

/// A text that has the same tokens as one with a problem, whatever stands between them, has the same problem.
pub fn gaps_are_ignored()
    ensures { GapsAreIgnored }
{}

/// Items that have a problem have the same one without their predicates.
pub fn predicates_are_ignored()
    ensures { PredicatesAreIgnored }
{}

/// A text that has a problem has the same one without some of its predicates, and without some annotations that are no
/// marks, whatever stands between its tokens.
pub fn ignored_can_be_left_out()
    ensures { IgnoredCanBeLeftOut }
{}

/// Where two texts that differ only in blanks and comments between tokens, in predicates and in annotations that are no
/// marks both have a problem, it is the same one.
pub fn ignored_changes_nothing()
    ensures { IgnoredChangesNothing }
{}

/// Items have a problem exactly where each passes each of its checks, whatever the order of the checks, and one is a
/// solve item; and a text exactly where its items do.
pub fn checks_decide()
    ensures items { AcceptedItems }
    ensures texts { AcceptedTexts }
{}

/// The grammar with look-ahead, which the reader follows, has the same items as the grammar of plain alternatives: each
/// item at its place, and so the items of any tokens.
pub fn grammars_agree()
    ensures item { ItemsAgree }
    ensures items { GrammarsAgree }
{}

/// Each line of words has exactly one report of any bytes of its files.
pub fn each_line_has_one_report()
    ensures { (line : Line) → HasOneReport (promise_of line) }
{
    law_subjects::entries_have_finding();
}

/// Where the folder tells its files, each run of a line follows a report of them: `out` gains a first part of its text,
/// and the status is its status, unless a count of failures rose that may stop the line, or memory was wanted.
pub fn each_run_follows_a_report()
    ensures { RunsFollowReports }
{
    each_line_has_one_report();
}

/// Any bytes are a file of each kind that lines read, or are refused as one, and never for want of memory.
pub fn files_are_read_or_refused()
    ensures { FilesAreReadOrRefused }
{
    law_subjects::entries_have_finding();
}

/// A proof has exactly one verdict, whatever the formula; a problem exactly one order by each rule; and any steps
/// exactly one core.
pub fn what_is_found_is_there()
    ensures verdicts { ProofsHaveOneVerdict }
    ensures orders { ProblemsHaveOneOrder }
    ensures cores { StepsHaveOneCore }
{}
