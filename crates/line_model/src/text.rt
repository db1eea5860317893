//! Printing a text.

ghost use Rattle.std.specs.Prelude.{[], ◌∷◌};
ghost use Rattle.dcsp_outside.specs.Outside.{Place};
ghost use Rattle.dcsp_script.specs.Scripts.{outside};
ghost use Rattle.dcsp_script.specs.Runs.{CameIn};
ghost use Rattle.abt_input.specs.Errors.{way_of};
ghost use Rattle.line_model.specs.Generated.{print_promise};

use abt_input::CommandError;
use dcsp_outside::Sink;
use dcsp_script::{Status, put};

/// Puts the text on `out`, in one piece.
pub fn print<S: Sink>(out: &mut S, text: &[u8]) -> Result<Status, CommandError>
    ensures { (folder : Place) → CameIn (print_promise text.now)
        (outside folder (S.stream out.old)) (outside folder (S.stream out.new)) (way_of result) }
{
    put(out, text)?;
    Ok(Status::Good)
}
