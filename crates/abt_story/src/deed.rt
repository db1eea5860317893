//! What an agent did in an event, as lines.

ghost use Rattle.std.specs.Prelude.{◌≡◌, ◌∷◌, ◌++◌, [], OnOk, false, length, option_copied};
ghost use Rattle.dcsp_defs.specs.Csp.{domain as domain_of};
ghost use Rattle.dcsp_rule.specs.Problems.{csp_of};
ghost use Rattle.abt_defs.specs.Agents.{is_among};
ghost use Rattle.abt_defs.specs.Events.{Act};
ghost use Rattle.abt_agent.specs.States.{stands_for};
ghost use Rattle.abt_network.specs.Standing.{cargo_in};
ghost use Rattle.dcsp_order.specs.Told.{number_told};
ghost use Rattle.abt_story.specs.Numbers.{facts_told};
ghost use Rattle.abt_story.specs.Telling.{answers, drops, enters, facts, is_later, makes, receives, takes};
ghost use Rattle.abt_story.specs.Texts.{facts_text};
ghost use Rattle.abt_story.specs.Looking.{came_in, cargo_by, entered, sent_facts, steps_in, told_of, IsDone, IsSeenBy};

use crate::before::{Before, Known};
use crate::reasons::push_out;
use crate::texts::{StepFact, Who, push_knows, push_received, push_sends, push_step, push_takes};
use abt_agent::Agent;
use abt_network::{Cargo, MessageKind, SentTo};
use abt_parts::Recorded;
use dcsp_domain::Domain;
use dcsp_order::Order;
use std::alloc::AllocError;

/// A message that came.
#[derive(Clone, Copy, Debug)]
pub struct Came {
    /// The sender, counted from 0.
    pub from: u32,
    pub cargo: Cargo,
}

/// What an agent did in an event, besides what it has then.
#[derive(Clone, Copy)]
pub struct Deed<'a> {
    /// The order whose numbers tell agents, where the run is one under an order.
    pub order: Option<&'a Order>,
    pub who: Who,
    /// The message that came; none at the start.
    pub came: Option<Came>,
    /// The number of the step that it made, if it made one.
    pub made: Option<u64>,
    /// What it sent, in order.
    pub sent: &'a [SentTo],
}

/// The number by which an agent is told.
pub fn number_told(order: Option<&Order>, agent: u32) -> u32
    ensures { result ≡ number_told (option_copied order.entry) agent }
{
    match order {
        Some(order) => order.number(agent),
        None => agent,
    }
}

/// Pushes what came, if anything did.
fn push_came(
    order: Option<&Order>,
    who: Who,
    came: Option<Came>,
    into: &mut Vec<u8>,
) -> Result<(), AllocError>
    ensures { OnOk result (into.new.items ≡ into.old.items ++ facts_text who.event who.agent (facts_told (option_copied order.entry) (receives (came_in came)))) }
{
    match came {
        Some(came) => push_received(who, number_told(order, came.from), came.cargo, into),
        None => Ok(()),
    }
}

/// Whether the stamp is newer than the known one, if that is known.
fn is_later(known: Option<u64>, stamp: u64) -> bool
    ensures { result ≡ is_later known stamp }
{
    match known {
        Some(known) => known < stamp,
        None => true,
    }
}

/// Pushes that an agent's value entered the view, where it did.
fn push_if_newer(
    order: Option<&Order>,
    who: Who,
    known: Known,
    agent: &Agent,
    into: &mut Vec<u8>,
) -> Result<(), AllocError>
    ensures { OnOk result (into.new.items ≡ into.old.items ++ told_of who (option_copied order.entry) (enters known.var known.stamp ((stands_for agent.now).view known.var))) }
{
    match agent.told(known.var) {
        Some(told) if is_later(known.stamp, told.stamp) => {
            push_knows(who, number_told(order, known.var), told.value, into)
        }
        Some(_) | None => Ok(()),
    }
}

/// Pushes what entered the view.
fn push_entered(
    order: Option<&Order>,
    who: Who,
    known: &[Known],
    agent: &Agent,
    into: &mut Vec<u8>,
) -> Result<(), AllocError>
    ensures { OnOk result (into.new.items ≡ into.old.items ++ told_of who (option_copied order.entry) (entered known.now (stands_for agent.now).view)) }
{
    for seen in known {
        push_if_newer(order, who, *seen, agent, into)?;
    }
    Ok(())
}

/// Whether one of the nogoods is of this step.
fn has_step(kept: &[Recorded], step: u64) -> bool
    ensures { result ≡ is_among step (steps_in kept.now) }
{
    for recorded in kept {
        if recorded.step == step {
            return true;
        }
    }
    false
}

/// Pushes that a nogood was dropped, where it is not among these.
fn push_if_dropped(
    who: Who,
    step: u64,
    after: &[Recorded],
    into: &mut Vec<u8>,
) -> Result<(), AllocError>
    ensures { OnOk result (into.new.items ≡ into.old.items ++ facts_text who.event who.agent (drops (step ∷ []) (steps_in after.now))) }
{
    if has_step(after, step) {
        return Ok(());
    }
    push_step(who, StepFact::Forgets, step, into)
}

/// Pushes which nogoods were dropped.
fn push_dropped(
    who: Who,
    before: &[u64],
    after: &[Recorded],
    into: &mut Vec<u8>,
) -> Result<(), AllocError>
    ensures { OnOk result (into.new.items ≡ into.old.items ++ facts_text who.event who.agent (drops before.now (steps_in after.now))) }
{
    for step in before {
        push_if_dropped(who, *step, after, into)?;
    }
    Ok(())
}

/// Pushes whether the nogood that came, if one did, was recorded.
fn push_answer(
    who: Who,
    came: Option<Came>,
    after: &[Recorded],
    into: &mut Vec<u8>,
) -> Result<(), AllocError>
    ensures { OnOk result (into.new.items ≡ into.old.items ++ facts_text who.event who.agent (answers (came_in came) (steps_in after.now))) }
{
    let Some(
        Came {
            cargo: Cargo::Refuse { step },
            ..
        },
    ) = came
    else {
        return Ok(());
    };
    if has_step(after, step) {
        push_step(who, StepFact::Keeps, step, into)
    } else {
        push_step(who, StepFact::Declines, step, into)
    }
}

/// Pushes the value that was taken, if one was since the agent had taken so many.
fn push_taken(who: Who, before: u64, agent: &Agent, into: &mut Vec<u8>) -> Result<(), AllocError>
    ensures { OnOk result (into.new.items ≡ into.old.items ++ facts_text who.event who.agent (takes before agent.now.stamp agent.now.value)) }
{
    if agent.stamp() == before {
        return Ok(());
    }
    match agent.value() {
        Some(value) => push_takes(who, value, into),
        None => Ok(()),
    }
}

/// Pushes the step that was made, if one was.
fn push_made(who: Who, made: Option<u64>, into: &mut Vec<u8>) -> Result<(), AllocError>
    ensures { OnOk result (into.new.items ≡ into.old.items ++ facts_text who.event who.agent (makes made)) }
{
    match made {
        Some(step) => push_step(who, StepFact::Makes, step, into),
        None => Ok(()),
    }
}

/// What a message of this kind carries, from an agent that has this value then, and has made this step, if it made one.
fn cargo_by(kind: MessageKind, value: Option<i64>, made: Option<u64>) -> Cargo
    ensures { cargo_in result ≡ cargo_by kind value made }
{
    match kind {
        MessageKind::Tell => Cargo::Tell {
            value: value.unwrap_or(0),
        },
        MessageKind::Refuse => Cargo::Refuse {
            step: made.unwrap_or(0),
        },
        MessageKind::AddLink => Cargo::AddLink,
    }
}

/// Pushes what was sent by an agent that has this value then.
fn push_sent(deed: &Deed, value: Option<i64>, into: &mut Vec<u8>) -> Result<(), AllocError>
    ensures { OnOk result (into.new.items ≡ into.old.items ++ told_of deed.now.who (option_copied deed.now.order) (sent_facts deed.now.sent.now value deed.now.made)) }
{
    for message in deed.sent {
        let cargo = cargo_by(message.kind, value, deed.made);
        push_sends(deed.who, number_told(deed.order, message.to), cargo, into)?;
    }
    Ok(())
}

/// Pushes the lines of what an agent with this domain did.
pub fn push_deed(
    deed: &Deed,
    domain: &Domain,
    before: &Before,
    agent: &Agent,
    into: &mut Vec<u8>,
) -> Result<(), AllocError>
    requires sound { agent.now.spent ≡ false }
    requires domain { domain.now ≡ domain_of (csp_of agent.now.problem) agent.now.me }
    requires long { length before.now.reasons.items ≡ length domain.now }
    ensures { let order = option_copied deed.now.order in (a : Act) → IsSeenBy order agent.now a before.now → IsDone a deed.now agent.now
        → OnOk result (into.new.items ≡ into.old.items ++ told_of deed.now.who order (facts order (csp_of agent.now.problem) deed.now.made a)) }
{
    let who = deed.who;
    push_came(deed.order, who, deed.came, into)?;
    push_entered(deed.order, who, &before.known, agent, into)?;
    push_dropped(who, &before.kept, agent.nogoods(), into)?;
    push_answer(who, deed.came, agent.nogoods(), into)?;
    push_out(who, domain, &before.reasons, agent, into)?;
    push_taken(who, before.stamp, agent, into)?;
    push_made(who, deed.made, into)?;
    push_sent(deed, agent.value(), into)
}
