//! The start with its lines.

ghost use Rattle.std.specs.Prelude.{◌≡◌, ◌<◌, ◌≤◌, ◌∷◌, ◌++◌, [], IfOk, OnOk, false, flat_map, length, map, true};
ghost use Rattle.dcsp_defs.specs.Words.{below};
ghost use Rattle.dcsp_rule.specs.Problems.{csp_of};
ghost use Rattle.abt_defs.specs.Network.{start};
ghost use Rattle.law_runs.specs.Starts.{first_outcome, settled_in, StartsWith};
ghost use Rattle.abt_parts.specs.Messages.{told_sent};
ghost use Rattle.abt_agent.specs.States.{stands_for};
ghost use Rattle.abt_network.specs.Standing.{state_at, steps_of, StandsAt};
ghost use Rattle.abt_session.specs.Ordering.{order_in};
ghost use Rattle.abt_story.specs.Telling.{agentless, first_step, start_lines};
ghost use Rattle.abt_story.specs.Texts.{lines_text};
ghost use Rattle.abt_story.specs.Looking.{first_text, tell_to};

use crate::before::fresh;
use crate::deed::{Deed, number_told, push_deed};
use crate::texts::Who;
use abt_agent::Agent;
use abt_network::{Begun, MessageKind, Network, SentTo};
use abt_session::Ordered;
use dcsp_common::Memory;
use dcsp_problem::Problem;
use std::alloc::Global;

/// Starts the agents of a problem, and pushes the lines of the start. Where the run is one under an order, agents are
/// told by the order's numbers.
pub fn tell_start(
    alloc: Global,
    model: Ordered<'_>,
    network: &mut Network,
    into: &mut Vec<u8>,
) -> Result<(), Memory>
    requires sound { network.old.spent ≡ false }
    requires fresh { network.old.begun ≡ false }
    requires problem { network.old.problem ≡ model.problem.now }
    ensures told { OnOk result (into.new.items ≡ into.old.items ++ lines_text (start_lines (order_in model.entry) (csp_of model.entry.problem.now))) }
    ensures stands { OnOk result (StandsAt network.new (start (csp_of model.entry.problem.now))) }
    ensures sound { OnOk result (network.new.spent ≡ false) }
    ensures begun { OnOk result (network.new.begun ≡ true) }
    ensures problem { network.new.problem ≡ model.entry.problem.now }
{
    law_runs::measures::starts_in_order();
    let begun = network.start()?;
    tell_agentless(&begun, into)?;
    let settled = settled_by(model.problem.vars(), &begun);
    tell_settlings(alloc, model, network, settled, into)
}

/// Pushes the line of a step that is no agent's, if the start made one.
fn tell_agentless(begun: &Begun, into: &mut Vec<u8>) -> Result<(), Memory>
    ensures { OnOk result (into.new.items ≡ into.old.items ++ lines_text (agentless (steps_of begun.now))) }
{
    let Begun::Refuted(step) = begun else {
        return Ok(());
    };
    if step.variable.is_some() {
        return Ok(());
    }
    into.extend_from_slice(b"0 - makes n1\n")?;
    Ok(())
}

/// How many agents have settled in a start of so many: all, or those up to the one whose step refutes; none where a
/// constraint without variables does.
fn settled_by(agents: u32, begun: &Begun) -> u32
    requires { settled_in agents (steps_of begun.now) ≤ agents }
    ensures { result ≡ settled_in agents (steps_of begun.now) }
{
    match begun {
        Begun::Running => agents,
        Begun::Refuted(step) => match step.variable {
            Some(agent) => agent + 1,
            None => 0,
        },
    }
}

/// Pushes the lines of so many first agents.
fn tell_settlings(
    alloc: Global,
    model: Ordered<'_>,
    network: &Network,
    settled: u32,
    into: &mut Vec<u8>,
) -> Result<(), Memory>
    requires sound { network.now.spent ≡ false }
    requires problem { network.now.problem ≡ model.problem.now }
    requires stands { StandsAt network.now (start (csp_of model.problem.now)) }
    requires starts { StartsWith (csp_of model.problem.now) settled }
    ensures { OnOk result (into.new.items ≡ into.old.items ++ flat_map (first_text (order_in model.entry) (csp_of model.entry.problem.now)) (below settled)) }
{
    for agent in 0..settled {
        tell_settling(alloc, model, network, agent, into)?;
    }
    Ok(())
}

/// Pushes the lines of an agent that settled in the start.
fn tell_settling(
    alloc: Global,
    model: Ordered<'_>,
    network: &Network,
    agent: u32,
    into: &mut Vec<u8>,
) -> Result<(), Memory>
    requires sound { network.now.spent ≡ false }
    requires problem { network.now.problem ≡ model.problem.now }
    requires exists { agent < length model.problem.now.domains }
    requires settled { stands_for (state_at network.now.agents agent) ≡ (first_outcome (csp_of model.problem.now) agent).agent }
    ensures { OnOk result (into.new.items ≡ into.old.items ++ first_text (order_in model.entry) (csp_of model.entry.problem.now) agent) }
{
    let domain = model.problem.domain(agent);
    let before = fresh(alloc, domain)?;
    let settled = network.agent(agent);
    let sent = sent_by(alloc, model.problem, agent, settled)?;
    let deed = Deed {
        order: model.order,
        who: Who {
            event: 0,
            agent: number_told(model.order, agent),
        },
        came: None,
        made: first_step(settled),
        sent: &sent,
    };
    push_deed(&deed, domain, &before, settled, into)?;
    Ok(())
}

/// The step that an agent made in the start: one that has no value then has made the first.
fn first_step(settled: &Agent) -> Option<u64>
    ensures { result ≡ first_step (stands_for settled.now) }
{
    match settled.value() {
        Some(_) => None,
        None => Some(1),
    }
}

/// What an agent sent in the start: its value to the agents below that own a constraint over its variable.
fn sent_by(
    alloc: Global,
    problem: &Problem,
    agent: u32,
    settled: &Agent,
) -> Result<Vec<SentTo>, Memory>
    requires exists { agent < length problem.now.domains }
    requires settled { stands_for settled.now ≡ (first_outcome (csp_of problem.now) agent).agent }
    ensures { IfOk result (λ sent. sent.items ≡ map told_sent (first_outcome (csp_of problem.now) agent).sent) }
{
    law_agent::agents_start_sound();
    problem.denotes_csp();
    match settled.value() {
        Some(_) => told_to(alloc, problem.lower_owners(agent)),
        None => Ok(Vec::new(alloc)),
    }
}

/// That these are told a value.
fn told_to(alloc: Global, receivers: &[u32]) -> Result<Vec<SentTo>, Memory>
    ensures { IfOk result (λ sent. sent.items ≡ map tell_to receivers.now) }
{
    let mut sent = Vec::new(alloc);
    for to in receivers {
        add_told(&mut sent, *to)?;
    }
    Ok(sent)
}

/// Adds that a value was told.
fn add_told(sent: &mut Vec<SentTo>, to: u32) -> Result<(), Memory>
    ensures { OnOk result (sent.new.items ≡ sent.old.items ++ tell_to to ∷ []) }
{
    let told = SentTo {
        to,
        kind: MessageKind::Tell,
    };
    sent.push(told)?;
    Ok(())
}
