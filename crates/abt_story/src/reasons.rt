//! The line that tells which values are ruled out.

ghost use Rattle.std.specs.Prelude.{◌≡◌, ◌++◌, ℤ, Option, OnOk, false, flat_map, length, map, not};
ghost use Rattle.std.specs.List.{list_any};
ghost use Rattle.dcsp_defs.specs.declared.Reason.{Reason as TheReason};
ghost use Rattle.dcsp_defs.specs.Csp.{domain as domain_of};
ghost use Rattle.dcsp_rule.specs.Problems.{csp_of};
ghost use Rattle.abt_story.specs.Telling.{ruled_by, ruled_out, rules_out, same_reasons};
ghost use Rattle.abt_story.specs.Texts.{facts_text, ruled_text};
ghost use Rattle.abt_story.specs.Looking.{reason_in};

use crate::texts::{Who, push_ruled, push_who};
use abt_agent::Agent;
use dcsp_defs::Reason;
use dcsp_domain::Domain;
use std::alloc::AllocError;

/// Whether two reasons are one.
fn is_same(one: Option<Reason>, other: Option<Reason>) -> bool
    ensures { result ≡ same_reasons one other }
{
    match (one, other) {
        (None, None) => true,
        (Some(Reason::Rule(a)), Some(Reason::Rule(b))) => a == b,
        (Some(Reason::Earlier(a)), Some(Reason::Earlier(b))) => a == b,
        _ => false,
    }
}

/// Whether a reason is another one than before.
fn has_changed(domain: &Domain, before: &[Option<Reason>], agent: &Agent) -> bool
    requires sound { agent.now.spent ≡ false }
    requires domain { domain.now ≡ domain_of (csp_of agent.now.problem) agent.now.me }
    requires long { length before.now ≡ length domain.now }
    ensures { (told : ℤ → Option TheReason) → before.now ≡ map told domain.now → result ≡ list_any (λ v. not (same_reasons (told v) (reason_in agent.now v))) domain.now }
{
    for place in 0..domain.len() {
        if !is_same(before[place], agent.reason(place)) {
            return true;
        }
    }
    false
}

/// Pushes a value with its reason, if it has one.
fn push_if_ruled(value: i64, reason: Option<Reason>, into: &mut Vec<u8>) -> Result<(), AllocError>
    ensures { OnOk result (into.new.items ≡ into.old.items ++ flat_map ruled_text (ruled_by value reason)) }
{
    match reason {
        Some(reason) => push_ruled(value, reason, into),
        None => Ok(()),
    }
}

/// Pushes the values that are ruled out.
fn push_values(domain: &Domain, agent: &Agent, into: &mut Vec<u8>) -> Result<(), AllocError>
    requires sound { agent.now.spent ≡ false }
    requires domain { domain.now ≡ domain_of (csp_of agent.now.problem) agent.now.me }
    ensures { OnOk result (into.new.items ≡ into.old.items ++ flat_map ruled_text (ruled_out domain.now (reason_in agent.now))) }
{
    for place in 0..domain.len() {
        push_if_ruled(domain.value(place), agent.reason(place), into)?;
    }
    Ok(())
}

/// Pushes the line that tells which values are ruled out, where that has changed.
pub fn push_out(
    who: Who,
    domain: &Domain,
    before: &[Option<Reason>],
    agent: &Agent,
    into: &mut Vec<u8>,
) -> Result<(), AllocError>
    requires sound { agent.now.spent ≡ false }
    requires domain { domain.now ≡ domain_of (csp_of agent.now.problem) agent.now.me }
    requires long { length before.now ≡ length domain.now }
    ensures { (told : ℤ → Option TheReason) → before.now ≡ map told domain.now
        → OnOk result (into.new.items ≡ into.old.items ++ facts_text who.event who.agent (rules_out domain.now told (reason_in agent.now))) }
{
    if !has_changed(domain, before, agent) {
        return Ok(());
    }
    push_who(who, into)?;
    into.extend_from_slice(b" out")?;
    push_values(domain, agent, into)?;
    into.extend_from_slice(b"\n")
}
