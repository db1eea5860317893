//! Writing steps as a log of version 1.

ghost use Rattle.std.specs.Prelude.{◌≡◌, ◌∷◌, [], ◌+◌, ◌<◌, length, slice_index_or, Contains};
ghost use Rattle.dcsp_outside.specs.Outside.{Stream};
ghost use Rattle.dcsp_script.specs.Scripts.{Append, outside};
ghost use Rattle.dcsp_script.specs.Ways.{Wrote};
ghost use Rattle.ngd_log.specs.StepText.{step_line};
ghost use Rattle.ngd_check.specs.Places.{no_step};
ghost use Rattle.ngd_log.specs.Logs.{log_lines, step_lines, AreWritable};
ghost use Rattle.line_rewrite.specs.UpgradePromise.{appends, file_script};

use dcsp_outside::Folder;
use dcsp_script::{Stop, append, append_step, create};
use ngd_log::{HEAD, TAIL};
use ngd_rewrite::Trimmed;
use std::alloc::Global;

/// Writes the steps as a log of version 1: the name is created, and each line is appended by itself.
pub fn write_steps<F: Folder>(
    alloc: Global,
    folder: &mut F,
    name: &str,
    steps: &Trimmed<'_, '_>,
) -> Result<(), Stop>
    requires { AreWritable steps.now }
    ensures { (out : Stream) → Wrote (file_script name.now (log_lines steps.now))
        (outside (F.place folder.old) out) (outside (F.place folder.new) out) result }
{
    create(folder, name)?;
    append(folder, name, HEAD)?;
    append_steps(alloc, folder, name, steps)?;
    append(folder, name, TAIL)
}

/// Appends the line of each step.
fn append_steps<F: Folder>(
    alloc: Global,
    folder: &mut F,
    name: &str,
    steps: &Trimmed<'_, '_>,
) -> Result<(), Stop>
    requires created { Contains (F.place folder.old).created name.now }
    requires writable { AreWritable steps.now }
    ensures wrote { (out : Stream) → Wrote (appends name.now (step_lines 1 steps.now))
        (outside (F.place folder.old) out) (outside (F.place folder.new) out) result }
    ensures created { (F.place folder.new).created ≡ (F.place folder.old).created }
{
    let mut line = Vec::new(alloc);
    for place in 0..steps.len() {
        append_at(folder, name, steps, place, &mut line)?;
    }
    Ok(())
}

/// Appends the line of the step at this place. It is made in `line`.
fn append_at<F: Folder>(
    folder: &mut F,
    name: &str,
    steps: &Trimmed<'_, '_>,
    place: usize,
    line: &mut Vec<u8>,
) -> Result<(), Stop>
    requires created { Contains (F.place folder.old).created name.now }
    requires place { place < length steps.now }
    requires writable { AreWritable steps.now }
    ensures wrote { (out : Stream) → Wrote (Append name.now (step_line (place + 1) (slice_index_or steps.now place no_step)) ∷ [])
        (outside (F.place folder.old) out) (outside (F.place folder.new) out) result }
    ensures created { (F.place folder.new).created ≡ (F.place folder.old).created }
{
    let step = steps.step(place)?;
    append_step(folder, name, place as u64 + 1, &step, line)
}
