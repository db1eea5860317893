//! What is told of a drill.

ghost use Rattle.std.specs.Prelude.{◌≡◌, ◌++◌, codes, OnOk};
ghost use Rattle.line_drill.specs.Outcomes.{outcome_word, outcome_text};

use abt_session::{End, IntList, Outcome};
use dcsp_common::push_number;
use std::alloc::AllocError;

/// The word for an end.
fn word(end: &End<IntList>) -> &'static [u8]
    ensures { result.now ≡ outcome_word end.now }
{
    match end {
        End::Solved(_) => b"solved",
        End::Refuted => b"refuted",
        End::Spent | End::Capped => b"unfinished",
    }
}

/// Appends how the run of the problem of this name ended.
pub fn push_run(into: &mut Vec<u8>, name: &[u8], outcome: &Outcome) -> Result<(), AllocError>
    ensures { OnOk result (into.new.items ≡ into.old.items ++ outcome_text name.now outcome.now) }
{
    into.extend_from_slice(name)?;
    into.extend_from_slice(word(&outcome.end))?;
    into.extend_from_slice(b" deliveries ")?;
    push_number(into, outcome.deliveries)?;
    Ok(())
}
