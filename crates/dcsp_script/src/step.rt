//! The line of a step as one write.

ghost use Rattle.std.specs.Prelude.{◌≡◌, [], ◌∷◌, Contains};
ghost use Rattle.dcsp_outside.specs.Outside.{Stream};
ghost use Rattle.ngd_log.specs.StepText.{step_line, IsInRange, IsStepNumber};
ghost use Rattle.dcsp_script.specs.Scripts.{Append, outside};
ghost use Rattle.dcsp_script.specs.Ways.{Wrote};

use crate::stop::Stop;
use crate::writes::append;
use dcsp_outside::Folder;
use ngd_log::{Step, write_step_at};

/// Appends the line of the step with this number to the name, which was created before. The line is made in `line`, over
/// the last one.
#[inline(never)]
pub fn append_step<F: Folder>(
    folder: &mut F,
    name: &str,
    number: u64,
    step: &Step,
    line: &mut Vec<u8>,
) -> Result<(), Stop>
    requires created { Contains (F.place folder.old).created name.now }
    requires number { IsStepNumber number }
    requires in_range { IsInRange step.now }
    ensures wrote { (out : Stream) → Wrote (Append name.now (step_line number step.now) ∷ [])
        (outside (F.place folder.old) out) (outside (F.place folder.new) out) result }
    ensures created { (F.place folder.new).created ≡ (F.place folder.old).created }
{
    let end = write_step_at(number, step, line, 0)?;
    append(folder, name, &line[..end])
}
