//! One delivery with its measures.

ghost use Rattle.std.specs.Prelude.{◌≡◌, ◌≢◌, ◌<◌, ◌∷◌, ◌++◌, ℕ, ℤ, [], All, List, OnOk, Some, false, true, length};
ghost use Rattle.dcsp_defs.specs.Words.{In};
ghost use Rattle.dcsp_defs.specs.Csp.{domain, IsCsp};
ghost use Rattle.dcsp_rule.specs.Problems.{csp_of};
ghost use Rattle.abt_defs.specs.Agents.{Message};
ghost use Rattle.abt_defs.specs.Network.{Network as TheNetwork};
ghost use Rattle.abt_defs.specs.Events.{Act};
ghost use Rattle.abt_defs.specs.Checks.{no_checks};
ghost use Rattle.abt_parts.specs.declared.message.SentTo.{SentTo as TheSentTo};
ghost use Rattle.abt_parts.specs.Checked.{as_checks};
ghost use Rattle.abt_links.specs.Transit.{link_of};
ghost use Rattle.abt_network.specs.Standing.{reached, CanDeliver, StandsAt};
ghost use Rattle.abt_measure.specs.Measuring.{CountsIn, CountsNext, IsComing, IsNext, IsOnRun, MeasuresIn};

use crate::counts::{Came, Deed};
use crate::learned::Learned;
use crate::measures::Measures;
use abt_agent::Checks;
use abt_network::Network;
use abt_parts::MessageKind;
use dcsp_common::Memory;

/// What is seen of a delivery before it is made.
#[derive(Clone, Copy)]
pub struct Coming {
    /// The sender, counted from 0.
    pub from: u32,
    pub kind: MessageKind,
    /// Whether the receiver settles.
    pub settles: bool,
    /// The receiver's value, if it has one.
    pub own: Option<i64>,
    /// How many nogoods the receiver has recorded.
    pub before: u64,
}

/// Looks at what is delivered next from one agent to another.
fn look(network: &Network, from: u32, to: u32) -> Coming
    requires sound { network.now.spent ≡ false }
    requires receiver { to < length network.now.problem.domains }
    requires some { link_of network.now.links from to ≢ [] }
    ensures coming { (net : TheNetwork) (m : Message) (rest : List Message) → StandsAt network.now net → net.links from to ≡ m ∷ rest → IsComing (net.agents to) from to m result }
    ensures own { (v : ℤ) → result.own ≡ Some v → In v (domain (csp_of network.now.problem) to) }
{
    let message = network.first(from, to).unwrap();
    let agent = network.agent(to);
    Coming {
        from,
        kind: message.kind(),
        settles: agent.settles_on(from, message),
        own: agent.value(),
        before: agent.recorded() as u64,
    }
}

/// Makes one delivery, and counts it.
pub fn deliver_one(
    network: &mut Network,
    choice: u32,
    measures: &mut Measures,
) -> Result<(), Memory>
    requires sound { network.old.spent ≡ false }
    requires can { CanDeliver network.old }
    requires csp { IsCsp (csp_of network.old.problem) }
    requires on_run { IsOnRun network.old }
    requires long { length measures.old.rows ≡ length network.old.problem.domains }
    ensures measured { (choices : List ℕ) → StandsAt network.old (reached network.old choices) → MeasuresIn network.old choices measures.old
        → OnOk result (MeasuresIn network.old (choices ++ choice ∷ []) measures.new) }
    ensures stands { (choices : List ℕ) → StandsAt network.old (reached network.old choices) → OnOk result (StandsAt network.new (reached network.old (choices ++ choice ∷ []))) }
    ensures sound { OnOk result (network.new.spent ≡ false) }
    ensures begun { OnOk result (network.new.begun ≡ true) }
    ensures problem { network.new.problem ≡ network.old.problem }
    ensures long { length measures.new.rows ≡ length measures.old.rows }
{
    let (from, to) = network.ready_pair(choice % network.ready());
    let coming = look(network, from, to);
    let _delivery = network.deliver(choice)?;
    count_delivery(network, to, coming, measures)
}

/// Counts the delivery that was made.
fn count_delivery(
    network: &Network,
    to: u32,
    coming: Coming,
    measures: &mut Measures,
) -> Result<(), Memory>
    requires sound { network.now.spent ≡ false }
    requires receiver { to < length network.now.problem.domains }
    requires long { length measures.old.rows ≡ length network.now.problem.domains }
    requires own { (v : ℤ) → coming.own ≡ Some v → In v (domain (csp_of network.now.problem) to) }
    requires receivers { All (λ (x : TheSentTo). x.to < length measures.old.rows) network.now.sent }
    ensures counts { (acts : List Act) (a : Act) (net : TheNetwork) → StandsAt network.now net → CountsIn network.now acts measures.old → IsNext a to coming network.now.sent net
        → OnOk result (CountsNext (csp_of network.now.problem) acts a coming.before measures.old measures.new) }
    ensures long { length measures.new.rows ≡ length measures.old.rows }
{
    let agent = network.agent(to);
    let checks = if coming.settles {
        agent.checks(coming.own)?
    } else {
        no_checks()
    };
    let after = agent.recorded() as u64;
    let came = Came {
        from: coming.from,
        kind: coming.kind,
    };
    let deed = Deed {
        agent: to,
        came: Some(came),
        checks,
        recorded: after,
        sent: network.sent(),
    };
    measures.count(deed)?;
    measures.end_event(coming.before, after)
}

/// None.
fn no_checks() -> Checks
    ensures { as_checks result ≡ no_checks }
{
    Checks {
        constraints: 0,
        nogoods: 0,
    }
}
