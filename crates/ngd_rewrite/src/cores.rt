//! The core of a refutation: the steps that its end needs, and the rules that these cite.

ghost use Rattle.std.specs.Prelude.{◌≡◌, ◌↔◌, ℕ, true, IfOk};
ghost use Rattle.dcsp_defs.specs.Words.{In, IsRising};
ghost use Rattle.dcsp_defs.specs.Csp.{HasNoSolution, IsCsp};
ghost use Rattle.dcsp_defs.specs.Derivation.{IsRefutation};
ghost use Rattle.dcsp_rule.specs.Problems.{csp_of};
ghost use Rattle.ngd_rewrite.specs.Cores.{limited};
ghost use Rattle.ngd_rewrite.specs.Needed.{is_cited, IsTrimmed};

use crate::needed::needed_steps;
use crate::rules::cited_rules;
use crate::trim::Trimmed;
use dcsp_common::{ItemList, Memory};
use dcsp_problem::Problem;
use ngd_check::KeptSteps;
use std::alloc::Global;

/// Rules by their numbers, counted from 0.
pub type RuleNumbers = ItemList<u32>;

/// What a refutation rests on.
#[derive(Drop)]
pub struct Core<'s, 'p> {
    /// The rules that the trimmed steps cite, strictly rising.
    pub rules: RuleNumbers,
    /// The steps that the refutation needs, in order and renumbered from 1.
    pub steps: Trimmed<'s, 'p>,
}

/// The core of a refutation of the problem: the last step, all that a needed step cites, and the rules cited.
///
/// A least core is not promised.
pub fn core_of<'s, 'p>(
    alloc: Global,
    problem: &Problem,
    steps: &'s KeptSteps<'p>,
) -> Result<Core<'s, 'p>, Memory>
    requires refutes { IsRefutation (csp_of problem.now) steps.now }
    ensures steps { IfOk result (λ core. IsTrimmed steps.now core.steps) }
    ensures rising { IfOk result (λ core. IsRising core.rules) }
    ensures rules { IfOk result (λ core. (rule : ℕ) → In rule core.rules ↔ (is_cited core.steps rule ≡ true)) }
    ensures refutation { IfOk result (λ core. IsRefutation (csp_of problem.now) core.steps) }
    ensures unsolvable { IfOk result (λ core. HasNoSolution (limited (csp_of problem.now) core.rules)) }
{
    problem.denotes_csp();
    let needed = needed_steps(alloc, steps)?;
    let trimmed = Trimmed::of(alloc, steps, &needed)?;
    let rules = cited_rules(alloc, problem.rules(), &trimmed)?;
    Ok(Core {
        rules,
        steps: trimmed,
    })
}
