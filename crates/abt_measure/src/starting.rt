//! The start with its measures.

ghost use Rattle.std.specs.Prelude.{◌≡◌, ◌<◌, ◌≤◌, ◌∷◌, ◌++◌, [], All, List, IfOk, OnOk, drop, false, length, map, true};
ghost use Rattle.dcsp_defs.specs.Csp.{IsCsp};
ghost use Rattle.dcsp_rule.specs.Problems.{csp_of};
ghost use Rattle.abt_defs.specs.Network.{Network as TheNetwork, ready, start};
ghost use Rattle.abt_defs.specs.Events.{Act, start_acts};
ghost use Rattle.law_runs.specs.Starts.{settled_in, StartsWith};
ghost use Rattle.abt_parts.specs.declared.message.SentTo.{SentTo as TheSentTo};
ghost use Rattle.abt_links.specs.Transit.{ready_pairs};
ghost use Rattle.abt_network.specs.Standing.{steps_of, StandsAt};
ghost use Rattle.abt_measure.specs.Measuring.{CountsIn, HasNoEvents, IsCounted, IsMeasured, SameEvents};
ghost use Rattle.abt_measure.specs.Starting.{leading, tell_to, IsFirst};

use crate::counts::Deed;
use crate::measures::Measures;
use abt_network::{Begun, Network};
use abt_parts::{MessageKind, SentTo};
use dcsp_common::Memory;
use dcsp_problem::Problem;
use std::alloc::Global;

/// Starts the agents of a problem, and counts what each of them does.
pub fn start(
    alloc: Global,
    problem: &Problem,
    network: &mut Network,
    measures: &mut Measures,
) -> Result<(), Memory>
    requires sound { network.old.spent ≡ false }
    requires fresh { network.old.begun ≡ false }
    requires problem { network.old.problem ≡ problem.now }
    requires long { length measures.old.rows ≡ length problem.now.domains }
    ensures measured { IsCounted (csp_of problem.now) [] measures.old → HasNoEvents measures.old → OnOk result (IsMeasured (csp_of problem.now) [] measures.new) }
    ensures stands { OnOk result (StandsAt network.new (start (csp_of problem.now))) }
    ensures sound { OnOk result (network.new.spent ≡ false) }
    ensures begun { OnOk result (network.new.begun ≡ true) }
    ensures problem { network.new.problem ≡ problem.now }
    ensures long { length measures.new.rows ≡ length measures.old.rows }
{
    law_runs::measures::starts_in_order();
    let begun = network.start()?;
    let settled = settled_by(problem.vars(), &begun);
    count_settlings(alloc, network, settled, measures)?;
    measures.end_event(0, 0)
}

/// How many agents have settled in a start of so many: all, or those up to the one whose step refutes; none where a
/// constraint without variables does.
fn settled_by(agents: u32, begun: &Begun) -> u32
    requires { settled_in agents (steps_of begun.now) ≤ agents }
    ensures { result ≡ settled_in agents (steps_of begun.now) }
{
    match begun {
        Begun::Running => agents,
        Begun::Refuted(step) => match step.variable {
            Some(agent) => agent + 1,
            None => 0,
        },
    }
}

/// Counts what so many first agents did in the start.
fn count_settlings(
    alloc: Global,
    network: &Network,
    settled: u32,
    measures: &mut Measures,
) -> Result<(), Memory>
    requires sound { network.now.spent ≡ false }
    requires stands { StandsAt network.now (start (csp_of network.now.problem)) }
    requires starts { StartsWith (csp_of network.now.problem) settled }
    requires csp { IsCsp (csp_of network.now.problem) }
    requires long { length measures.old.rows ≡ length network.now.problem.domains }
    ensures counted { CountsIn network.now [] measures.old → OnOk result (CountsIn network.now (start_acts (csp_of network.now.problem)) measures.new) }
    ensures events { OnOk result (SameEvents measures.old measures.new) }
    ensures long { length measures.new.rows ≡ length measures.old.rows }
{
    let ready = network.ready();
    let mut place = 0;
    for agent in 0..settled {
        let sent = sent_by(alloc, network, agent, place, ready)?;
        place += sent.len() as u32;
        count_settling(network, agent, &sent, measures)?;
    }
    Ok(())
}

/// Counts what an agent did in the start, in which it sent this.
fn count_settling(
    network: &Network,
    agent: u32,
    sent: &[SentTo],
    measures: &mut Measures,
) -> Result<(), Memory>
    requires sound { network.now.spent ≡ false }
    requires exists { agent < length network.now.problem.domains }
    requires long { length measures.old.rows ≡ length network.now.problem.domains }
    requires receivers { All (λ (x : TheSentTo). x.to < length measures.old.rows) sent.now }
    ensures counts { (acts : List Act) (a : Act) (net : TheNetwork) → StandsAt network.now net → CountsIn network.now acts measures.old → IsFirst a agent sent.now net
        → OnOk result (CountsIn network.now (acts ++ a ∷ []) measures.new) }
    ensures events { OnOk result (SameEvents measures.old measures.new) }
    ensures long { length measures.new.rows ≡ length measures.old.rows }
{
    let checks = network.agent(agent).checks(None)?;
    let deed = Deed {
        agent,
        came: None,
        checks,
        recorded: 0,
        sent,
    };
    measures.count(deed)
}

/// What an agent sent in the start: its value to the receivers of the ready lists that are its own, the first of which is
/// at this place.
fn sent_by(
    alloc: Global,
    network: &Network,
    agent: u32,
    place: u32,
    end: u32,
) -> Result<Vec<SentTo>, Memory>
    requires sound { network.now.spent ≡ false }
    requires end { end ≡ length (ready_pairs network.now.links) }
    requires machine { (net : TheNetwork) → StandsAt network.now net → end ≡ length (ready (csp_of network.now.problem) net) }
    ensures { (net : TheNetwork) → StandsAt network.now net
        → IfOk result (λ sent. sent.items ≡ map tell_to (leading agent (drop place (ready (csp_of network.now.problem) net)))) }
{
    let mut sent = Vec::new(alloc);
    for number in place..end {
        let (from, to) = network.ready_pair(number);
        if from != agent {
            return Ok(sent);
        }
        add_told(&mut sent, to)?;
    }
    Ok(sent)
}

/// Adds that a value was told.
fn add_told(sent: &mut Vec<SentTo>, to: u32) -> Result<(), Memory>
    ensures { OnOk result (sent.new.items ≡ sent.old.items ++ tell_to to ∷ []) }
{
    let told = SentTo {
        to,
        kind: MessageKind::Tell,
    };
    sent.push(told)?;
    Ok(())
}
