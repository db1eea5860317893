//! The measures of a run that speak of all agents.

ghost use Rattle.std.specs.Prelude.{◌≡◌, ℕ, Bool, List, IfOk};
ghost use Rattle.dcsp_rule.specs.Problems.{Contents, csp_of};
ghost use Rattle.abt_measure.specs.Whole.{IsMeasuredRun};
ghost use Rattle.line_replay.specs.Asked.{most_deliveries};
ghost use Rattle.line_measure.specs.Numbers.{numbers_of};

use abt_measure::{Kinds, MeasuredRun, add_up};
use abt_network::Standing;
use dcsp_common::Memory;

/// The measures of a run that speak of all agents.
#[derive(Clone, Copy, Debug)]
pub struct Numbers {
    /// How the run ended: open where the choices were used up, or the most deliveries made, with a message in transit.
    pub end: Standing,
    pub deliveries: u64,
    /// The messages delivered, by kind. Each link request that is delivered adds a link.
    pub got: Kinds,
    pub steps: u64,
    /// How many constraints and how many nogoods were checked.
    pub constraints: u64,
    pub nogoods: u64,
    /// How many checks do not wait for each other; and how many of constraints alone.
    pub concurrent: u64,
    pub concurrent_constraints: u64,
    /// The longest chain of messages.
    pub longest_chain: u64,
    /// The greatest number of nogoods that all agents had recorded, and of messages in transit, after an event.
    pub recorded: u64,
    pub transit: u64,
}

/// The numbers of a run that was made.
pub fn numbers_of(run: &MeasuredRun) -> Result<Numbers, Memory>
    ensures { (p : Contents) (choices : List ℕ) (listens : Bool) → IsMeasuredRun p most_deliveries choices listens run.now
        → IfOk result (λ numbers. numbers ≡ numbers_of (csp_of p) choices) }
{
    let sum = add_up(run.measures.rows())?;
    Ok(Numbers {
        end: run.network.state(),
        deliveries: run.network.deliveries(),
        got: sum.got,
        steps: run.network.steps(),
        constraints: sum.constraints,
        nogoods: sum.nogoods,
        concurrent: run.measures.all_checks(),
        concurrent_constraints: run.measures.constraints_alone(),
        longest_chain: run.measures.longest_chain(),
        recorded: run.measures.most_recorded(),
        transit: run.measures.most_in_transit(),
    })
}
