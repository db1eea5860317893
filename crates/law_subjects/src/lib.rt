//! What definitions that have a program's shape say in the words of their subject.
#![tactic(auto)]

pub mod generated;
pub mod meaning;

ghost use Rattle.dcsp_defs.specs.Csp.{Csp};
ghost use Rattle.law_subjects.specs.Accepting.{AcceptedAreProblems};
ghost use Rattle.law_subjects.specs.Appointments.{MeetingsAreTimetables, SensorsTrackTargets};
ghost use Rattle.law_subjects.specs.Finding.{EntriesHaveFinding};
ghost use Rattle.law_subjects.specs.Formulas.{EachHasAnswer, FormulasSayClauses, GapsAreIgnored, TextsAreWords};
ghost use Rattle.law_subjects.specs.Learning.{LearnedFew};
ghost use Rattle.law_subjects.specs.Losing.{EventsEndAtVerdict};
ghost use Rattle.law_subjects.specs.Recording.{NumbersAreSmall};
ghost use Rattle.law_subjects.specs.Reaching.{ReachedHoldValuesOfDomains};
ghost use Rattle.law_subjects.specs.Starving.{StarvedComeLast};
ghost use Rattle.dcsp_defs.specs.declared.Step.{Step as A_step};
ghost use Rattle.law_subjects.specs.Upgrading.{DeletesAtLastUse};
ghost use Rattle.std.specs.Prelude.{List, ℕ};
ghost use Rattle.law_subjects.specs.GeneratedSolutions.{ColouringsAreProper, PigeonsDoNotFit, QueensArePlaced, SixQueensArePlaced, SparseGraphsAreColoured};

/// What the solutions of generated problems are: the placements of queens of which none attacks another, and the
/// proper colourings of the graph that was drawn. Pigeons have none; a sparse graph has one, whatever the words, and
/// so have six queens. Those of meetings are the timetables of the calendars and groups that the words make, and those
/// of sensors are three sensors for each target that see it and hear each other, none of them for two targets.
pub fn generated_solutions()
    ensures queens { QueensArePlaced }
    ensures colourings { ColouringsAreProper }
    ensures pigeons { PigeonsDoNotFit }
    ensures sparse { SparseGraphsAreColoured }
    ensures six_queens { SixQueensArePlaced }
    ensures meetings { MeetingsAreTimetables }
    ensures sensors { SensorsTrackTargets }
{}

/// An upgraded log has the steps of its log in order, and deletes each step once at the most: right behind the last
/// step that cites it, or behind itself where no later one does, unless that is the log's last step.
pub fn upgraded_logs_delete_at_last_use()
    ensures { (steps : List A_step) → DeletesAtLastUse steps }
{}

/// A run that starves a link delivers from it only where no other list has a message.
pub fn starved_links_come_last()
    ensures { (p : Csp) → StarvedComeLast p }
{}

/// Over a medium that loses, repeats and reorders no verdict stands before an event, so the events of a run end where
/// its verdict comes; they are the first of the words given, and then, where all of these were used, calm ones.
pub fn events_end_at_verdict()
    ensures { (p : Csp) (given : List ℕ) (most : ℕ) → EventsEndAtVerdict p given most }
{}

/// The numbers of a run have at most 24 bits, so each is a choice that a schedule may hold.
pub fn numbers_are_small()
    ensures { (p : Csp) → NumbersAreSmall p }
{}

/// In each network that a run reaches, values, views and recorded nogoods have values of the domains alone.
pub fn reached_hold_values_of_domains()
    ensures { (p : Csp) → ReachedHoldValuesOfDomains p }
{}

/// The values of an agent that another one was told of in a run are no more than its domain has.
pub fn learned_few()
    ensures { (p : Csp) → LearnedFew p }
{}

/// A formula's text is words with blanks and comments between them, which change nothing. Words say clauses, and these
/// are the problem's rules. Each text has a problem, or is refused at the place of a word or at its end.
pub fn formulas_are_words()
    ensures words { TextsAreWords }
    ensures gaps { GapsAreIgnored }
    ensures clauses { FormulasSayClauses }
    ensures answers { EachHasAnswer }
{}

/// A text that is accepted denotes a problem within the limits, and so a well-formed one; its values have 64 bits, so logs
/// can name all that it has.
pub fn accepted_are_problems()
    ensures { (text : List ℕ) → AcceptedAreProblems text }
{}

/// Of any entries, and so of any log, a check has a finding.
pub fn entries_have_finding()
    ensures { (p : Csp) → EntriesHaveFinding p }
{}
