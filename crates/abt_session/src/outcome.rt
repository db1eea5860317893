//! What a run gives.

ghost use Rattle.std.specs.Prelude.{◌≡◌, ℕ, ◌<◌, ◌≤◌, length, Err, IfOk, IfSome, OnErr, option_copied};
ghost use Rattle.abt_defs.specs.Network.{Network as TheNetwork};
ghost use Rattle.dcsp_rule.specs.Problems.{csp_of};
ghost use Rattle.abt_network.specs.Standing.{StandsAt};
ghost use Rattle.abt_session.specs.Ends.{end_of};
ghost use Rattle.dcsp_order.specs.Told.{place_told, Fits};
ghost use Rattle.abt_session.specs.Ordering.{order_in};
ghost use Rattle.abt_session.specs.Running.{values_of, IsOutcome};

use crate::ordered::Ordered;
use abt_defs::End;
use abt_network::Network;
use abt_schedule::ChoiceList;
use dcsp_common::Memory;
use dcsp_domain::IntList;
use dcsp_order::Order;
use dcsp_script::Stop;
use std::alloc::Global;

/// What a run gives.
#[derive(Debug, Drop)]
pub struct Outcome {
    /// How it ended; where it is solved, with the values of all variables, in the order of their own numbers.
    pub end: End<IntList>,
    /// How many deliveries were made.
    pub deliveries: u64,
    /// How many steps were made, which is how many the log has.
    pub steps: u64,
    /// The number of the list of each delivery, where they were taken down.
    pub numbers: ChoiceList,
}

/// The place of a variable in the order that a run has.
fn place_in(order: Option<&Order>, number: u32) -> u32
    requires { IfSome (option_copied order) (λ numbers. number < length numbers) }
    ensures place { result ≡ place_told (option_copied order.entry) number }
    ensures within { (n : ℕ) → IfSome (option_copied order.entry) (λ numbers. length numbers ≡ n) → number < n → result < n }
{
    match order {
        Some(order) => order.place(number),
        None => number,
    }
}

/// The values of all variables, in the order of their own numbers. The problem is the one that is run.
fn values_of(alloc: Global, model: Ordered<'_>, network: &Network) -> Result<IntList, Memory>
    requires run { network.now.problem ≡ model.problem.now }
    requires fits { Fits (order_in model) model.problem.now }
    ensures { (net : TheNetwork) → StandsAt network.now net → IfOk result (λ list. list ≡ values_of (order_in model.entry) (csp_of model.entry.problem.now) net) }
{
    let mut list = IntList::new(alloc);
    for number in 0..model.problem.vars() {
        let value = network.value(place_in(model.order, number)).unwrap_or(0);
        if list.push(value).is_err() {
            return Err(Memory);
        }
    }
    Ok(list)
}

/// What the run of this problem gives that has stopped.
pub fn outcome_of(
    alloc: Global,
    model: Ordered<'_>,
    network: &Network,
    end: End<()>,
    numbers: ChoiceList,
) -> Result<Outcome, Stop>
    requires run { network.now.problem ≡ model.problem.now }
    requires fits { Fits (order_in model) model.problem.now }
    ensures gives { (net : TheNetwork) → StandsAt network.now net → IfOk result (IsOutcome (order_in model.entry) (csp_of model.entry.problem.now) net (end_of end)) }
    ensures numbers { IfOk result (λ outcome. outcome.numbers ≡ numbers) }
    ensures only_memory { OnErr result (result ≡ Err Stop.Memory) }
{
    let told = match end {
        End::Solved(()) => End::Solved(values_of(alloc, model, network)?),
        End::Refuted => End::Refuted,
        End::Spent => End::Spent,
        End::Capped => End::Capped,
    };
    Ok(Outcome {
        end: told,
        deliveries: network.deliveries(),
        steps: network.steps(),
        numbers,
    })
}
