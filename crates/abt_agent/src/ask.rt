//! Link requests.

ghost use Rattle.std.specs.Prelude.{◌≡◌, ◌∷◌, [], OnOk, if◌then◌else◌};
ghost use Rattle.dcsp_defs.specs.Pairs.{IsRising};
ghost use Rattle.abt_defs.specs.Agents.{AddLink};
ghost use Rattle.abt_defs.specs.Steps as steps;
ghost use Rattle.abt_agent.specs.Bodies.{agent_of, owner_of, IsSized};
ghost use Rattle.abt_parts.specs.Outgoing.{Posts};
ghost use Rattle.abt_marks.specs.Links.{is_unlinked};
ghost use Rattle.abt_agent.specs.Asks.{unlinked_names};

use crate::body::AgentBody;
use abt_marks::LinkTable;
use abt_parts::{Message, Outbox, post};
use dcsp_common::Memory;
use dcsp_defs::Pair;

/// Asks the agent for a link, if it is unlinked.
fn ask_one(linked: &LinkTable, to: u32, out: &mut Outbox) -> Result<(), Memory>
    ensures { OnOk result (Posts out.old out.new (if is_unlinked linked.now to then (to, AddLink) ∷ [] else [])) }
{
    if !linked.is_unlinked(to) {
        return Ok(());
    }
    post(out, to, Message::AddLink)
}

/// Asks for a link each agent that the pairs name and that has none, rising.
fn ask_each(linked: &LinkTable, pairs: &[Pair], out: &mut Outbox) -> Result<(), Memory>
    ensures { OnOk result (Posts out.old out.new (steps.to_each AddLink (unlinked_names linked.now pairs.now))) }
{
    for pair in pairs {
        ask_one(linked, pair.var, out)?;
    }
    Ok(())
}

impl<'p> AgentBody<'p> {
    /// Asks for the links that the pairs want, and counts them as asked.
    pub fn ask(&mut self, pairs: &[Pair], out: &mut Outbox) -> Result<(), Memory>
        requires sized { IsSized self.old }
        requires rising { IsRising pairs.now }
        ensures agent { OnOk result (agent_of self.new ≡ steps.ask self.old.known.me pairs.now (agent_of self.old)) }
        ensures sent { OnOk result (Posts out.old out.new (steps.to_each AddLink (steps.unlinked self.old.known.me pairs.now (agent_of self.old)))) }
        ensures owner { owner_of self.new.known ≡ owner_of self.old.known }
        ensures sized { OnOk result (IsSized self.new) }
    {
        if !self.linked.wants_link(pairs) {
            return Ok(());
        }
        ask_each(&self.linked, pairs, out)?;
        self.linked.mark_pairs(pairs);
        Ok(())
    }
}
