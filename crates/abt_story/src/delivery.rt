//! One delivery with its lines.

ghost use Rattle.std.specs.Prelude.{◌≡◌, ◌<◌, ◌∷◌, ◌++◌, ◌==◌, ℕ, [], List, None, OnOk, Some, false, if◌then◌else◌, length, true};
ghost use Rattle.dcsp_defs.specs.Csp.{domain};
ghost use Rattle.dcsp_rule.specs.Problems.{csp_of};
ghost use Rattle.abt_defs.specs.Events.{Act};
ghost use Rattle.abt_defs.specs.Network.{Network as TheNetwork};
ghost use Rattle.abt_network.specs.Standing.{reached, CanDeliver, StandsAt};
ghost use Rattle.abt_session.specs.Running.{IsAfter};
ghost use Rattle.abt_story.specs.Looking.{delivery_text, made_text, IsMade, IsSeenOf};

use crate::before::{Before, look};
use crate::deed::{Came, Deed, number_told, push_deed};
use crate::texts::Who;
use abt_network::{Delivery, Network};
use abt_session::Ordered;
use dcsp_common::Memory;
use std::alloc::Global;

/// Makes one delivery of a run, and pushes its lines. Where the run is one under an order, agents are told by the
/// order's numbers.
pub fn tell_delivery(
    alloc: Global,
    model: Ordered<'_>,
    network: &mut Network,
    choice: u32,
    into: &mut Vec<u8>,
) -> Result<(), Memory>
    requires sound { network.old.spent ≡ false }
    requires can { CanDeliver network.old }
    requires problem { network.old.problem ≡ model.problem.now }
    requires on_run { (choices : List ℕ) × IsAfter network.old choices }
    ensures told { (choices : List ℕ) → IsAfter network.old choices
        → OnOk result (into.new.items ≡ into.old.items ++ delivery_text model.entry choice (reached network.old choices)) }
    ensures stands { (choices : List ℕ) → IsAfter network.old choices → OnOk result (StandsAt network.new (reached network.old (choices ++ choice ∷ []))) }
    ensures sound { OnOk result (network.new.spent ≡ false) }
    ensures begun { OnOk result (network.new.begun ≡ true) }
    ensures problem { network.new.problem ≡ network.old.problem }
{
    let (from, to) = network.ready_pair(choice % network.ready());
    let before = look(alloc, model, network, from, to)?;
    let delivery = network.deliver(choice)?;
    tell_made(model, network, &before, &delivery, into)
}

/// The number of the step that was made since so many steps were made, if one was.
fn step_since(before: u64, now: u64) -> Option<u64>
    ensures { result ≡ (if now == before then None else Some now) }
{
    if now == before { None } else { Some(now) }
}

/// Pushes the lines of the delivery that was made.
fn tell_made(
    model: Ordered<'_>,
    network: &Network,
    before: &Before,
    delivery: &Delivery,
    into: &mut Vec<u8>,
) -> Result<(), Memory>
    requires sound { network.now.spent ≡ false }
    requires problem { network.now.problem ≡ model.problem.now }
    requires receiver { delivery.now.to < length model.problem.now.domains }
    requires long { length before.now.reasons.items ≡ length (domain (csp_of model.problem.now) delivery.now.to) }
    ensures { (a : Act) (old net : TheNetwork) → StandsAt network.now net → IsSeenOf model.entry delivery.now.to a before.now
        → IsMade a delivery.now before.now.steps network.now.sent old net
        → OnOk result (into.new.items ≡ into.old.items ++ made_text model.entry delivery.now.to a old net) }
{
    let deed = Deed {
        order: model.order,
        who: Who {
            event: network.deliveries(),
            agent: number_told(model.order, delivery.to),
        },
        came: Some(Came {
            from: delivery.from,
            cargo: delivery.cargo,
        }),
        made: step_since(before.steps, network.steps()),
        sent: network.sent(),
    };
    let domain = model.problem.domain(delivery.to);
    push_deed(&deed, domain, before, network.agent(delivery.to), into)?;
    Ok(())
}
