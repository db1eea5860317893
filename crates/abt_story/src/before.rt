//! What an event's lines need of the agent as it is before.

ghost use Rattle.std.specs.Prelude.{◌≡◌, ◌≢◌, ◌<◌, ◌∷◌, ◌++◌, ℕ, [], List, IfOk, None, OnOk, Some, false, if◌then◌else◌, length, map, option_copied};
ghost use Rattle.dcsp_defs.specs.declared.nogood.Pair.{Pair as ThePair};
ghost use Rattle.dcsp_defs.specs.Csp.{domain as domain_of, names};
ghost use Rattle.dcsp_rule.specs.Problems.{csp_of};
ghost use Rattle.abt_defs.specs.Agents.{is_among, Message as TheMessage};
ghost use Rattle.abt_defs.specs.Network.{Network as TheNetwork};
ghost use Rattle.abt_parts.specs.Messages.{message_of};
ghost use Rattle.abt_agent.specs.States.{stands_for};
ghost use Rattle.abt_links.specs.Transit.{link_of};
ghost use Rattle.abt_network.specs.Standing.{StandsAt};
ghost use Rattle.abt_session.specs.Ordering.{order_in};
ghost use Rattle.abt_story.specs.Telling.{by_numbers, named_by};
ghost use Rattle.abt_story.specs.Looking.{known_at, known_by, reason_in, steps_in, IsSeen};

use abt_agent::Agent;
use abt_network::Network;
use abt_parts::{Message, Recorded};
use abt_session::Ordered;
use dcsp_common::Memory;
use dcsp_defs::{Nogood, Pair, Reason};
use dcsp_domain::Domain;
use dcsp_order::Order;
use std::alloc::Global;

/// An agent, and the stamp that a view has of it.
#[derive(Clone, Copy, Debug)]
pub struct Known {
    /// The agent, counted from 0.
    pub var: u32,
    pub stamp: Option<u64>,
}

/// What an event's lines need of the agent as it is before.
#[derive(Debug, Drop)]
pub struct Before {
    /// What the view has of the agents that the message names, in its order.
    pub known: Vec<Known>,
    /// The steps of the recorded nogoods, in order of arrival.
    pub kept: Vec<u64>,
    /// For each value of the domain, in order, the reason against it that was told last.
    pub reasons: Vec<Option<Reason>>,
    /// How many values it has taken.
    pub stamp: u64,
    /// How many steps were made in the run.
    pub steps: u64,
}

/// Looks at the receiver of what is delivered next from one agent to another in a run of the problem, under its order, if
/// there is one.
pub fn look(
    alloc: Global,
    model: Ordered<'_>,
    network: &Network,
    from: u32,
    to: u32,
) -> Result<Before, Memory>
    requires sound { network.now.spent ≡ false }
    requires problem { network.now.problem ≡ model.problem.now }
    requires receiver { to < length network.now.problem.domains }
    requires some { link_of network.now.links from to ≢ [] }
    ensures seen { (net : TheNetwork) (m : TheMessage) (rest : List TheMessage) → StandsAt network.now net → net.links from to ≡ m ∷ rest
        → IfOk result (IsSeen (order_in model.entry) (csp_of network.now.problem) to (Some (from, m)) (net.agents to)) }
    ensures steps { IfOk result (λ before. before.steps ≡ network.now.steps) }
{
    let message = network.first(from, to).unwrap();
    let agent = network.agent(to);
    let known = named_by(alloc, model.order, agent, from, message)?;
    let kept = steps_of(alloc, agent.nogoods())?;
    let reasons = reasons_of(alloc, model.problem.domain(to), agent)?;
    Ok(Before {
        known,
        kept,
        reasons,
        stamp: agent.stamp(),
        steps: network.steps(),
    })
}

/// What the lines of the start need of an agent: it was told nothing, has nothing, and nothing was told of it.
pub fn fresh(alloc: Global, domain: &Domain) -> Result<Before, Memory>
    ensures known { IfOk result (λ before. before.known.items ≡ []) }
    ensures kept { IfOk result (λ before. before.kept.items ≡ []) }
    ensures reasons { IfOk result (λ before. before.reasons.items ≡ map (λ v. None) domain.now) }
    ensures stamp { IfOk result (λ before. before.stamp ≡ 0) }
{
    let reasons = vec![in alloc; None; domain.len()]?;
    Ok(Before {
        known: Vec::new(alloc),
        kept: Vec::new(alloc),
        reasons,
        stamp: 0,
        steps: 0,
    })
}

/// What the view has of the agents that a message from an agent names.
fn named_by(
    alloc: Global,
    order: Option<&Order>,
    agent: &Agent,
    from: u32,
    message: &Message,
) -> Result<Vec<Known>, Memory>
    ensures { IfOk result (λ known. known.items ≡ known_by agent.now (named_by (option_copied order.entry) from (message_of message.now))) }
{
    let mut known = Vec::new(alloc);
    match message {
        Message::Tell { .. } => add_known(agent, from, &mut known)?,
        Message::Refuse { nogood, .. } => add_nogood(order, agent, nogood, &mut known)?,
        Message::AddLink => {}
    }
    Ok(known)
}

/// Adds what the view has of the agents of a nogood, in rising order of their own numbers.
fn add_nogood(
    order: Option<&Order>,
    agent: &Agent,
    nogood: &Nogood,
    known: &mut Vec<Known>,
) -> Result<(), Memory>
    ensures { OnOk result (known.new.items ≡ known.old.items ++ known_by agent.now (by_numbers (option_copied order.entry) (names nogood.now))) }
{
    match order {
        Some(order) => add_by_numbers(order, agent, nogood, known),
        None => add_pairs(agent, nogood.pairs(), known),
    }
}

/// Adds what the view has of the agents of a nogood, which stand at places of the order, in rising order of their own
/// numbers.
fn add_by_numbers(
    order: &Order,
    agent: &Agent,
    nogood: &Nogood,
    known: &mut Vec<Known>,
) -> Result<(), Memory>
    ensures { OnOk result (known.new.items ≡ known.old.items ++ known_by agent.now (by_numbers (Some order.now) (names nogood.now))) }
{
    for number in 0..order.numbers().len() as u32 {
        add_if_named(agent, nogood, order.place(number), known)?;
    }
    Ok(())
}

/// Adds what the view has of an agent, if the nogood names it.
fn add_if_named(
    agent: &Agent,
    nogood: &Nogood,
    var: u32,
    known: &mut Vec<Known>,
) -> Result<(), Memory>
    ensures { OnOk result (known.new.items ≡ known.old.items ++ known_by agent.now (if is_among var (names nogood.now) then var ∷ [] else [])) }
{
    match nogood.value_of(var) {
        Some(_) => add_known(agent, var, known),
        None => Ok(()),
    }
}

/// Adds what the view has of the agents of these pairs.
fn add_pairs(agent: &Agent, pairs: &[Pair], known: &mut Vec<Known>) -> Result<(), Memory>
    ensures { OnOk result (known.new.items ≡ known.old.items ++ map (λ (y : ThePair). known_at (stands_for agent.now).view y.var) pairs.now) }
{
    for pair in pairs {
        add_known(agent, pair.var, known)?;
    }
    Ok(())
}

/// Adds what the view has of an agent.
fn add_known(agent: &Agent, var: u32, known: &mut Vec<Known>) -> Result<(), Memory>
    ensures { OnOk result (known.new.items ≡ known.old.items ++ known_at (stands_for agent.now).view var ∷ []) }
{
    let stamp = match agent.told(var) {
        Some(told) => Some(told.stamp),
        None => None,
    };
    known.push(Known { var, stamp })?;
    Ok(())
}

/// The steps of these nogoods.
fn steps_of(alloc: Global, kept: &[Recorded]) -> Result<Vec<u64>, Memory>
    ensures { IfOk result (λ steps. steps.items ≡ steps_in kept.now) }
{
    let mut steps = Vec::new(alloc);
    for recorded in kept {
        steps.push(recorded.step)?;
    }
    Ok(steps)
}

/// The reasons against the agent's values, in order.
fn reasons_of(alloc: Global, domain: &Domain, agent: &Agent) -> Result<Vec<Option<Reason>>, Memory>
    requires sound { agent.now.spent ≡ false }
    requires domain { domain.now ≡ domain_of (csp_of agent.now.problem) agent.now.me }
    ensures { IfOk result (λ reasons. reasons.items ≡ map (reason_in agent.now) domain.now) }
{
    let mut reasons = Vec::new(alloc);
    for place in 0..domain.len() {
        reasons.push(agent.reason(place))?;
    }
    Ok(reasons)
}
