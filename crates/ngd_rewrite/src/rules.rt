//! The rules that steps cite.

ghost use Rattle.std.specs.Prelude.{◌≡◌, ◌↔◌, ◌||◌, ◌==◌, ◌<◌, ◌≤◌, ◌^◌, ℕ, true, false, filter, length, IfOk};
ghost use Rattle.dcsp_defs.specs.Words.{In, IsRising, below};
ghost use Rattle.ngd_rewrite.specs.Needed.{names_rule, cites_rule, is_cited};
ghost use Rattle.ngd_rewrite.specs.Marks.{has_mark};

use crate::cores::RuleNumbers;
use crate::trim::Trimmed;
use dcsp_common::Memory;
use ngd_log::Reason;
use ngd_store::Reasons;
use std::alloc::Global;

/// The rules, of so many, that the steps cite, strictly rising.
pub fn cited_rules(
    alloc: Global,
    rules: u32,
    steps: &Trimmed<'_, '_>,
) -> Result<RuleNumbers, Memory>
    requires { (rule : ℕ) → is_cited steps.now rule ≡ true → rule < rules }
    ensures rising { IfOk result (λ cited. IsRising cited) }
    ensures exact { IfOk result (λ cited. (rule : ℕ) → In rule cited ↔ (is_cited steps.now rule ≡ true)) }
{
    let cited = cited_marks(alloc, rules, steps)?;
    marked_places(alloc, &cited)
}

/// A mark for each rule, of so many, whether the steps cite it.
fn cited_marks(alloc: Global, rules: u32, steps: &Trimmed<'_, '_>) -> Result<Vec<bool>, Memory>
    requires { (rule : ℕ) → is_cited steps.now rule ≡ true → rule < rules }
    ensures as_many { IfOk result (λ cited. length cited.items ≡ rules) }
    ensures marked { IfOk result (λ cited. (rule : ℕ) → has_mark cited.items rule ≡ is_cited steps.now rule) }
{
    let Ok(mut cited) = vec![in alloc; false; rules as usize] else {
        return Err(Memory);
    };
    mark_all(&mut cited, steps);
    Ok(cited)
}

/// Marks the rules that the steps cite, where none is marked.
fn mark_all(cited: &mut [bool], steps: &Trimmed<'_, '_>)
    requires some { (rule : ℕ) → is_cited steps.now rule ≡ true → rule < length cited.old }
    requires none { (rule : ℕ) → has_mark cited.old rule ≡ false }
    ensures as_many { length cited.new ≡ length cited.old }
    ensures marked { (rule : ℕ) → has_mark cited.new rule ≡ is_cited steps.now rule }
{
    for place in 0..steps.len() {
        mark_cited(cited, steps.old_reasons(place));
    }
}

/// Marks the rules that the reasons cite.
fn mark_cited(cited: &mut [bool], reasons: Reasons<'_>)
    requires { (rule : ℕ) → cites_rule reasons rule ≡ true → rule < length cited.old }
    ensures as_many { length cited.new ≡ length cited.old }
    ensures marked { (rule : ℕ) → has_mark cited.new rule ≡ (has_mark cited.old rule || cites_rule reasons.entry rule) }
{
    let mut left = reasons;
    while let Some(reason) = left.take_first() {
        mark_reason(cited, reason);
    }
}

/// Marks the rule that the reason cites, if it cites one.
fn mark_reason(cited: &mut [bool], reason: Reason)
    requires { (rule : ℕ) → names_rule reason rule ≡ true → rule < length cited.old }
    ensures as_many { length cited.new ≡ length cited.old }
    ensures marked { (rule : ℕ) → has_mark cited.new rule ≡ (has_mark cited.old rule || names_rule reason rule) }
{
    match reason {
        Reason::Rule(rule) => mark(cited, rule),
        Reason::Earlier(_) => {}
    }
}

/// Marks this rule.
fn mark(cited: &mut [bool], rule: u32)
    requires { rule < length cited.old }
    ensures as_many { length cited.new ≡ length cited.old }
    ensures marked { (other : ℕ) → has_mark cited.new other ≡ (has_mark cited.old other || (other == rule)) }
{
    cited[rule as usize] = true;
}

/// The marked places, strictly rising.
pub fn marked_places(alloc: Global, marks: &[bool]) -> Result<RuleNumbers, Memory>
    requires { length marks.now ≤ 2 ^ 32 }
    ensures { IfOk result (λ places. places ≡ filter (has_mark marks.now) (below (length marks.now))) }
{
    let mut places = RuleNumbers::new(alloc);
    for (place, mark) in marks.iter().enumerate() {
        if *mark {
            let Ok(()) = places.push(place as u32) else {
                return Err(Memory);
            };
        }
    }
    Ok(places)
}
