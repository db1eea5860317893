//! What is said on standard error.

ghost use Rattle.dcsp_script.specs.Promises.{IsSaid};

use dcsp_outside::Sink;

/// Puts the line on `err`. Where that fails, nothing else can tell it.
pub fn say<S: Sink>(err: &mut S, line: &[u8])
    ensures { IsSaid line.now (S.stream err.old) (S.stream err.new) }
{
    let _ = err.put(line);
}
