//! Entries that are lent.
ghost use Rattle.std.specs.Prelude.{◌≡◌, IfOk};
ghost use Rattle.dcsp_defs.specs.Pairs.{IsRising};

use crate::{Nogood, Pair, Reason, ReasonList, Step};
use dcsp_common::Memory;
use std::alloc::Global;
use std::marker::Model;

/// A step whose lists are another's.
#[derive(Drop)]
pub struct LentStep<'l> {
    pub variable: Option<u32>,
    pub pairs: &'l [Pair],
    pub reasons: &'l [Reason],
}

impl<'l> Model for LentStep<'l> {
    ghost use Rattle.dcsp_defs.specs.declared.Step.{Step};
    ghost use Rattle.dcsp_defs.specs.Pairs.{IsRising};

    ghost Value = { Step };

    ghost view = { λ lent. record { variable = lent.variable; nogood = lent.pairs.now; reasons = lent.reasons.now } };

    ghost invariant = { λ lent. IsRising lent.pairs.now };
}

impl<'l> LentStep<'l> {
    /// The step, lent.
    pub fn of(step: &'l Step) -> LentStep<'l>
        ensures { result ≡ step.now }
    {
        LentStep {
            variable: step.variable,
            pairs: step.nogood.pairs(),
            reasons: step.reasons.items(),
        }
    }

    /// The variable, counted from 0.
    pub fn variable(&self) -> Option<u32>
        ensures { result ≡ self.now.variable }
    {
        self.variable
    }

    /// The pairs of its nogood, strictly rising by variable.
    pub fn pairs(&self) -> &'l [Pair]
        ensures pairs { result.now ≡ self.now.nogood }
        ensures rising { IsRising self.now.nogood }
    {
        self.pairs
    }

    /// The reasons in order.
    pub fn reasons(&self) -> &'l [Reason]
        ensures { result.now ≡ self.now.reasons }
    {
        self.reasons
    }

    /// The same step, in lists of its own, which are as long as they have to be.
    pub fn copy(&self, alloc: Global) -> Result<Step, Memory>
        ensures { IfOk result (λ step. step ≡ self.now) }
    {
        let pairs = Vec::from_slice(alloc, self.pairs)?;
        let reasons = Vec::from_slice(alloc, self.reasons)?;
        Ok(Step {
            variable: self.variable,
            nogood: Nogood::of_rising(pairs),
            reasons: ReasonList::from_vec(reasons),
        })
    }
}

/// An entry whose lists are another's.
#[derive(Drop)]
pub enum Lent<'l> {
    /// A derivation step.
    Step(LentStep<'l>),
    /// A deletion of the steps with these numbers, which rise strictly.
    Delete(&'l [u64]),
}
