//! Lines of a story as text.

ghost use Rattle.std.specs.Prelude.{◌≡◌, ◌∷◌, ◌++◌, [], OnOk, codes, decimal};
ghost use Rattle.ngd_log.specs.StepText.{reason_text};
ghost use Rattle.abt_network.specs.Standing.{cargo_in};
ghost use Rattle.abt_story.specs.Facts.{Knows, Receives, RuledOut, Sends, Takes};
ghost use Rattle.abt_story.specs.Texts.{agent_text, facts_text, ruled_text};
ghost use Rattle.abt_story.specs.Words.{step_fact, who_head, word_of};

use abt_network::Cargo;
use abt_session::push_cargo;
use dcsp_common::{push_number, push_signed};
use dcsp_defs::Reason;
use std::alloc::AllocError;

/// An agent in an event.
#[derive(Clone, Copy, Debug)]
pub struct Who {
    /// The number of the event: 0 for the start.
    pub event: u64,
    /// The agent's own number, counted from 0.
    pub agent: u32,
}

/// What is told of a recorded nogood or a step by its number.
#[derive(Clone, Copy, Debug)]
pub enum StepFact {
    Forgets,
    Keeps,
    Declines,
    Makes,
}

/// The word for it.
fn word_of(fact: StepFact) -> &'static [u8]
    ensures { result.now ≡ word_of fact }
{
    match fact {
        StepFact::Forgets => b" forgets n",
        StepFact::Keeps => b" keeps n",
        StepFact::Declines => b" refuses n",
        StepFact::Makes => b" makes n",
    }
}

/// Pushes an agent's name.
fn push_agent(agent: u32, into: &mut Vec<u8>) -> Result<(), AllocError>
    ensures { OnOk result (into.new.items ≡ into.old.items ++ agent_text agent) }
{
    into.extend_from_slice(b"v")?;
    push_number(into, u64::from(agent) + 1)
}

/// Pushes what the lines of an agent begin with.
pub fn push_who(who: Who, into: &mut Vec<u8>) -> Result<(), AllocError>
    ensures { OnOk result (into.new.items ≡ into.old.items ++ who_head who) }
{
    push_number(into, who.event)?;
    into.extend_from_slice(b" ")?;
    push_agent(who.agent, into)
}

/// Pushes the line that a message came.
pub fn push_received(
    who: Who,
    from: u32,
    cargo: Cargo,
    into: &mut Vec<u8>,
) -> Result<(), AllocError>
    ensures { OnOk result (into.new.items ≡ into.old.items ++ facts_text who.event who.agent (Receives from (cargo_in cargo) ∷ [])) }
{
    push_number(into, who.event)?;
    into.extend_from_slice(b" ")?;
    push_agent(from, into)?;
    into.extend_from_slice(b">")?;
    push_agent(who.agent, into)?;
    push_cargo(into, cargo)?;
    into.extend_from_slice(b"\n")
}

/// Pushes the line that an agent's value entered the view.
pub fn push_knows(who: Who, agent: u32, value: i64, into: &mut Vec<u8>) -> Result<(), AllocError>
    ensures { OnOk result (into.new.items ≡ into.old.items ++ facts_text who.event who.agent (Knows agent value ∷ [])) }
{
    push_who(who, into)?;
    into.extend_from_slice(b" knows ")?;
    push_agent(agent, into)?;
    into.extend_from_slice(b"=")?;
    push_signed(into, value)?;
    into.extend_from_slice(b"\n")
}

/// Pushes a line that has the number of a step.
pub fn push_step(who: Who, fact: StepFact, step: u64, into: &mut Vec<u8>) -> Result<(), AllocError>
    ensures { OnOk result (into.new.items ≡ into.old.items ++ facts_text who.event who.agent (step_fact fact step ∷ [])) }
{
    push_who(who, into)?;
    into.extend_from_slice(word_of(fact))?;
    push_number(into, step)?;
    into.extend_from_slice(b"\n")
}

/// Pushes a value that is ruled out, with its reason.
pub fn push_ruled(value: i64, reason: Reason, into: &mut Vec<u8>) -> Result<(), AllocError>
    ensures { OnOk result (into.new.items ≡ into.old.items ++ ruled_text (record { value = value; reason = reason })) }
{
    into.extend_from_slice(b" ")?;
    push_signed(into, value)?;
    into.extend_from_slice(b":")?;
    push_reason(reason, into)
}

/// Pushes a reason.
fn push_reason(reason: Reason, into: &mut Vec<u8>) -> Result<(), AllocError>
    ensures { OnOk result (into.new.items ≡ into.old.items ++ reason_text reason) }
{
    match reason {
        Reason::Rule(rule) => {
            into.extend_from_slice(b"c")?;
            push_number(into, u64::from(rule) + 1)
        }
        Reason::Earlier(step) => {
            into.extend_from_slice(b"n")?;
            push_number(into, step)
        }
    }
}

/// Pushes the line that the agent takes a value.
pub fn push_takes(who: Who, value: i64, into: &mut Vec<u8>) -> Result<(), AllocError>
    ensures { OnOk result (into.new.items ≡ into.old.items ++ facts_text who.event who.agent (Takes value ∷ [])) }
{
    push_who(who, into)?;
    into.extend_from_slice(b" takes ")?;
    push_signed(into, value)?;
    into.extend_from_slice(b"\n")
}

/// Pushes the line that the agent sends a message.
pub fn push_sends(who: Who, to: u32, cargo: Cargo, into: &mut Vec<u8>) -> Result<(), AllocError>
    ensures { OnOk result (into.new.items ≡ into.old.items ++ facts_text who.event who.agent (Sends to (cargo_in cargo) ∷ [])) }
{
    push_who(who, into)?;
    into.extend_from_slice(b" sends ")?;
    push_agent(to, into)?;
    push_cargo(into, cargo)?;
    into.extend_from_slice(b"\n")
}
