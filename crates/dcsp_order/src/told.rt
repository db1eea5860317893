//! What a run under an order tells, in the variables' own numbers.

ghost use Rattle.std.specs.Prelude.{◌≡◌, IfOk, length, option_copied, unwrap_or};
ghost use Rattle.ngd_log.specs.StepText.{IsInRange};
ghost use Rattle.dcsp_order.specs.Orders.{number_at};
ghost use Rattle.dcsp_order.specs.Renumbered.{pairs_renumbered, step_renumbered};
ghost use Rattle.dcsp_defs.specs.Csp.{IsCsp};
ghost use Rattle.dcsp_rule.specs.Problems.{csp_of};
ghost use Rattle.dcsp_problem.specs.WellFormed.{IsProblem};
ghost use Rattle.dcsp_order.specs.Told.{ordered, Fits, IsOrderFor};

use crate::order::Order;
use dcsp_common::Memory;
use dcsp_defs::{LentStep, Nogood, Pair, Step};
use dcsp_problem::Problem;
use std::alloc::Global;

impl Order {
    /// The number of the variable at a place; past the last place, the place itself.
    pub fn number(&self, place: u32) -> u32
        ensures { result ≡ number_at self.now place }
    {
        match self.numbers().get(place as usize) {
            Some(number) => *number,
            None => place,
        }
    }

    /// A step that was made under the order, in the variables' own numbers, by which its pairs rise.
    pub fn step_told(&self, alloc: Global, step: &Step) -> Result<Step, Memory>
        ensures told { IfOk result (λ told. told ≡ step_renumbered self.now step.now) }
        ensures in_range { IsInRange step.now → IfOk result IsInRange }
    {
        self.has_each_once();
        let nogood = self.nogood_told(alloc, &step.nogood)?;
        let copy = LentStep::of(step).copy(alloc)?;
        let variable = match step.variable {
            Some(place) => Some(self.number(place)),
            None => None,
        };
        Ok(Step {
            variable,
            nogood,
            reasons: copy.reasons,
        })
    }

    /// A nogood over places, in the variables' own numbers.
    fn nogood_told(&self, alloc: Global, nogood: &Nogood) -> Result<Nogood, Memory>
        ensures { IfOk result (λ told. told ≡ pairs_renumbered self.now nogood.now) }
    {
        let mut pairs = Vec::new(alloc);
        for number in 0..self.numbers().len() as u32 {
            let Some(value) = nogood.value_of(self.place(number)) else {
                continue;
            };
            pairs.push(Pair { var: number, value })?;
        }
        Ok(Nogood::of_rising(pairs))
    }
}

/// The problem under the order, where one is given; without one the problem itself is run.
pub fn moved(
    alloc: Global,
    order: Option<&Order>,
    problem: &Problem,
) -> Result<Option<Problem>, Memory>
    requires { Fits (option_copied order) problem.now }
    ensures moved { IfOk result (λ moved. unwrap_or moved problem.now ≡ ordered (option_copied order.entry) problem.now) }
    ensures order { IsOrderFor (option_copied order.entry) problem.now }
    ensures csp { IsCsp (csp_of (ordered (option_copied order.entry) problem.now)) }
    ensures problem { IsProblem (ordered (option_copied order.entry) problem.now) }
{
    problem.denotes_csp();
    match order {
        Some(order) => {
            order.has_each_once();
            let moved = order.problem_under(alloc, problem)?;
            Ok(Some(moved))
        }
        None => Ok(None),
    }
}
