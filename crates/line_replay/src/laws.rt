//! Laws of recorded runs, and of solution texts.

ghost use Rattle.dcsp_rule.specs.Problems.{Contents};
ghost use Rattle.line_replay.specs.Asked.{IsReplayed};
ghost use Rattle.line_replay.specs.Printed.{TextTellsValues};
ghost use Rattle.line_replay.specs.Recorded.{RecordsAreSchedules, RecordsAreWhole};
ghost use Rattle.line_replay.specs.Settings.{Settings};

/// A run from a seed is made again by a replay of its record: with the same network and so the same values
/// and steps, the same numbers and trace, no choice left, and the same end, or used up where its own choices were.
pub fn records_replay()
    ensures { (problem : Contents) (settings : Settings) → IsReplayed problem settings }
{}

/// The record of a run from a seed, or of the first round of a search, is the schedule of the run's numbers. Where it has
/// at most 67,108,864 bytes, `replay` reads these choices of it, and they make the same run, whatever log and trace.
pub fn records_are_schedules()
    ensures { (problem : Contents) (settings : Settings) → RecordsAreSchedules problem settings }
{}

/// A record's file holds the schedule of its numbers once the record was written and the answer put behind it.
pub fn records_are_whole()
    ensures { RecordsAreWhole }
{}

/// Two texts of solutions of one problem are equal exactly where each output, by its place, has the same values: of a
/// variable its value, of an array each element, of a Boolean its truth. Names may repeat, so places tell.
pub fn texts_tell_values()
    ensures { (p : Contents) → TextTellsValues p }
{}
