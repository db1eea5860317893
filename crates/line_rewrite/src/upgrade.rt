//! The line `upgrade LOG NEW`.

ghost use Rattle.std.specs.Prelude.{◌≡◌, ◌∷◌, [], OnOk};
ghost use Rattle.dcsp_outside.specs.Outside.{Place};
ghost use Rattle.dcsp_script.specs.Outsides.{world};
ghost use Rattle.dcsp_script.specs.Scripts.{Put, outside};
ghost use Rattle.dcsp_script.specs.Ways.{Wrote};
ghost use Rattle.dcsp_script.specs.Runs.{CameIn};
ghost use Rattle.abt_input.specs.Errors.{way_of};
ghost use Rattle.line_rewrite.specs.OldLogs.{steps_of, IsOldLog};
ghost use Rattle.line_rewrite.specs.UpgradePromise.{counts_text, upgrade_script, upgrade_promise};
ghost use Rattle.line_rewrite.specs.Upgrading.{HoldsUpgrade};

use crate::entries::write_upgraded;
use crate::old_log::{OldLog, read_old_log};
use abt_input::{AnswerLine, CommandError};
use dcsp_outside::{Folder, Sink};
use dcsp_script::{Outside, Status, Stop, put};
use std::alloc::Global;

/// Writes the log, which is of version 1, under the new name as one of version 2: its steps in order, and after each
/// but the last a deletion of the steps that no later one cites. Then it tells how many steps there are, and how
/// many of them are deleted.
pub fn run_upgrade<F: Folder, S: Sink>(
    alloc: Global,
    outside: &mut Outside<F, S>,
    log: &str,
    new: &str,
) -> Result<Status, CommandError>
    ensures came { CameIn (upgrade_promise log.now new.now)
        (world F.place S.stream outside.old) (world F.place S.stream outside.new) (way_of result) }
    ensures writes { OnOk result (HoldsUpgrade log.now new.now (F.place outside.old.folder).held (F.place outside.new.folder).held) }
{
    let old = read_old_log(alloc, &mut outside.folder, log)?;
    upgrade(alloc, outside, &old, new)?;
    Ok(Status::Good)
}

/// Writes the log's steps with their deletions under the name, and tells their counts.
fn upgrade<F: Folder, S: Sink>(
    alloc: Global,
    outside: &mut Outside<F, S>,
    log: &OldLog,
    new: &str,
) -> Result<(), Stop>
    requires { IsOldLog log.now }
    ensures { Wrote (upgrade_script new.now (steps_of log.now))
        (world F.place S.stream outside.old) (world F.place S.stream outside.new) result }
{
    let deleted = write_upgraded(alloc, &mut outside.folder, new, log)?;
    tell(log.endings.len() as u64, deleted, &mut outside.out)
}

/// Puts the line that tells the counts on `out`, in one piece.
fn tell<S: Sink>(steps: u64, deleted: u64, out: &mut S) -> Result<(), Stop>
    ensures { (folder : Place) → Wrote (Put (counts_text steps deleted) ∷ [])
        (outside folder (S.stream out.old)) (outside folder (S.stream out.new)) result }
{
    let line = counts_line(steps, deleted);
    put(out, line.bytes())
}

/// The line that tells how many steps there are, and how many of them are deleted.
fn counts_line(steps: u64, deleted: u64) -> AnswerLine
    ensures { result ≡ counts_text steps deleted }
{
    AnswerLine::of(b"upgraded steps ")
        .with_number(steps)
        .with(b" deleted ")
        .with_number(deleted)
        .with(b"\n")
}
