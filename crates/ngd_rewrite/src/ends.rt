//! Where each step ends.
ghost use Rattle.std.specs.Prelude.{◌≡◌, ℕ, ◌+◌, ◌<◌, ◌∷◌, [], ◌++◌, List, if◌then◌else◌, length, slice_index_or, OnOk, IfOk};
ghost use Rattle.dcsp_defs.specs.declared.Step.{Step as A_step};
ghost use Rattle.ngd_rewrite.specs.Upgrade.{cites, is_citation};
ghost use Rattle.ngd_rewrite.specs.Endings.{AreEnds};

use dcsp_common::Memory;
use dcsp_defs::{Reason, Step};
use std::alloc::Global;

/// For each step, the number of the step at which it ends.
pub fn ends_of(alloc: Global, steps: &[Step]) -> Result<Vec<u64>, Memory>
    ensures { IfOk result (λ ends. AreEnds steps.now ends.items) }
{
    let mut ends = Vec::new(alloc);
    for step in steps {
        take_step(&mut ends, step.reasons.items())?;
    }
    Ok(ends)
}

/// Takes the next step, which has these reasons: it ends at itself, and the steps that it cites end at it.
pub fn take_step(ends: &mut Vec<u64>, reasons: &[Reason]) -> Result<(), Memory>
    ensures { (steps : List A_step) (step : A_step) → AreEnds steps ends.old.items → step.reasons ≡ reasons.now
        → OnOk result (AreEnds (steps ++ step ∷ []) ends.new.items) }
{
    let number = ends.len() as u64 + 1;
    move_all(ends, number, reasons);
    let Ok(()) = ends.push(number) else {
        return Err(Memory);
    };
    Ok(())
}

/// The steps among the reasons end at the step with this number.
fn move_all(ends: &mut Vec<u64>, number: u64, reasons: &[Reason])
    ensures count { length ends.new.items ≡ length ends.old.items }
    ensures each { (i : ℕ) → i < length ends.old.items
        → slice_index_or ends.new.items i 0 ≡ (if cites (i + 1) reasons.now then number else slice_index_or ends.old.items i 0) }
{
    for reason in reasons {
        move_cited(ends, number, *reason);
    }
}

/// The same of one reason.
fn move_cited(ends: &mut Vec<u64>, number: u64, reason: Reason)
    ensures count { length ends.new.items ≡ length ends.old.items }
    ensures each { (i : ℕ) → i < length ends.old.items
        → slice_index_or ends.new.items i 0 ≡ (if is_citation (i + 1) reason then number else slice_index_or ends.old.items i 0) }
{
    if let Reason::Earlier(cited) = reason {
        if cited > 0 && cited <= ends.len() as u64 {
            ends[cited as usize - 1] = number;
        }
    }
}
