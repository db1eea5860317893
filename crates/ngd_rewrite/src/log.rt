//! Where each step of a log ends.
ghost use Rattle.std.specs.Prelude.{[], ◌++◌, List, OnOk};
ghost use Rattle.dcsp_defs.specs.declared.Step.{Step as A_step};
ghost use Rattle.ngd_log.specs.Entries.{steps_of};
ghost use Rattle.ngd_rewrite.specs.Endings.{AreEnds, HaveCome, IsReadAs};

use crate::ends::take_step;
use dcsp_common::Memory;
use ngd_log::{HEAD2, Lent, LogError, LogReader};
use std::alloc::Global;

/// For each step of the log, the number of the step at which it ends. A text of version 2 is no such log.
pub fn ends_of_log(alloc: Global, text: &[u8]) -> Result<Vec<u64>, LogError>
    ensures { IsReadAs (λ steps ends. AreEnds steps ends.items) text.now result }
{
    if text.starts_with(HEAD2) {
        return Err(LogError::Line { number: 1 });
    }
    let mut reader = LogReader::new(alloc);
    let mut ends = Vec::new(alloc);
    let Ok(()) = take_lines(&mut reader, text, &mut ends) else {
        return Err(LogError::Memory);
    };
    match reader.finish() {
        Ok(()) => Ok(ends),
        Err(error) => Err(error),
    }
}

/// Takes the steps of the text's lines, the good ones up to the first that is bad. It is kept apart, so that the loop has
/// all registers.
#[inline(never)]
fn take_lines(reader: &mut LogReader, text: &[u8], ends: &mut Vec<u64>) -> Result<(), Memory>
    requires { HaveCome reader.old ends.old.items [] }
    ensures { OnOk result (HaveCome reader.new ends.new.items text.now) }
{
    let mut rest = text;
    while let Some(others) = reader.take_line(rest)? {
        take_lent(reader, ends)?;
        rest = others;
    }
    Ok(())
}

/// Takes the step that the reader lends, if there is one.
fn take_lent(reader: &LogReader, ends: &mut Vec<u64>) -> Result<(), Memory>
    ensures { (steps : List A_step) → AreEnds steps ends.old.items
        → OnOk result (AreEnds (steps ++ steps_of reader.now.lent) ends.new.items) }
{
    let Some(entry) = reader.lent() else {
        return Ok(());
    };
    match entry {
        Lent::Step(step) => take_step(ends, step.reasons()),
        Lent::Delete(_) => Ok(()),
    }
}
