//! Which steps a refutation needs.

ghost use Rattle.std.specs.Prelude.{◌≡◌, ◌↔◌, ◌||◌, ◌==◌, ◌<◌, ◌≤◌, ℕ, true, length, IfOk, OnOk, slice_index_or};
ghost use Rattle.ngd_check.specs.Places.{no_step};
ghost use Rattle.ngd_rewrite.specs.Needed.{names_step, cites, IsNeeded};
ghost use Rattle.ngd_rewrite.specs.Marks.{is_marked, IsNumber, CiteBack};

use dcsp_common::Memory;
use ngd_check::KeptSteps;
use ngd_log::Reason;
use ngd_store::Reasons;
use std::alloc::Global;

/// A mark for each step, whether the last step needs it.
pub fn needed_steps(alloc: Global, steps: &KeptSteps<'_>) -> Result<Vec<bool>, Memory>
    requires some { 0 < length steps.now }
    requires back { CiteBack steps.now }
    ensures as_many { IfOk result (λ needed. length needed.items ≡ length steps.now) }
    ensures exact { IfOk result (λ needed. (number : ℕ) → (is_marked needed.items number ≡ true) ↔ IsNeeded steps.now number) }
{
    let Ok(mut needed) = vec![in alloc; false; steps.len()] else {
        return Err(Memory);
    };
    mark(&mut needed, steps.len() as u64);
    mark_needed(&mut needed, steps);
    Ok(needed)
}

/// Marks what marked steps cite, from the last step on.
fn mark_needed(needed: &mut [bool], steps: &KeptSteps<'_>)
    requires as_many { length needed.old ≡ length steps.now }
    requires back { CiteBack steps.now }
    requires last { (number : ℕ) → (is_marked needed.old number ≡ true) ↔ (number ≡ length steps.now) }
    ensures as_many { length needed.new ≡ length needed.old }
    ensures exact { (number : ℕ) → (is_marked needed.new number ≡ true) ↔ IsNeeded steps.now number }
{
    let mut left = steps.len();
    while left > 0 {
        left -= 1;
        if needed[left] {
            mark_cited(needed, steps.reasons(left));
        }
    }
}

/// Marks the steps that the reasons cite.
fn mark_cited(needed: &mut [bool], reasons: Reasons<'_>)
    requires { (number : ℕ) → cites reasons number ≡ true → IsNumber (length needed.old) number }
    ensures as_many { length needed.new ≡ length needed.old }
    ensures marked { (number : ℕ) → is_marked needed.new number ≡ (is_marked needed.old number || cites reasons.entry number) }
{
    let mut left = reasons;
    while let Some(reason) = left.take_first() {
        mark_reason(needed, reason);
    }
}

/// Marks the step that the reason cites, if it cites one.
fn mark_reason(needed: &mut [bool], reason: Reason)
    requires { (number : ℕ) → names_step reason number ≡ true → IsNumber (length needed.old) number }
    ensures as_many { length needed.new ≡ length needed.old }
    ensures marked { (number : ℕ) → is_marked needed.new number ≡ (is_marked needed.old number || names_step reason number) }
{
    match reason {
        Reason::Rule(_) => {}
        Reason::Earlier(number) => mark(needed, number),
    }
}

/// Marks the step with this number.
fn mark(needed: &mut [bool], number: u64)
    requires { IsNumber (length needed.old) number }
    ensures as_many { length needed.new ≡ length needed.old }
    ensures marked { (other : ℕ) → is_marked needed.new other ≡ (is_marked needed.old other || (other == number)) }
{
    needed[number as usize - 1] = true;
}
