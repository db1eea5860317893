//! What a message does to an agent, and its first settling.

ghost use Rattle.std.specs.Prelude.{◌≡◌, ◌<◌, ◌^◌, IfOk, OnOk, ℕ, List, Some, ℤ, length, not, ◌&&◌, ◌||◌, ◌==◌, ◌≤◌, slice_index_or};
ghost use Rattle.dcsp_defs.specs.Pairs.{IsRising as PairsRise};
ghost use Rattle.dcsp_defs.specs.declared.Step.{Step as TheStep};
ghost use Rattle.dcsp_defs.specs.Words.{IsRising};
ghost use Rattle.abt_defs.specs.Agents.{fresh, is_among, AddLink, Tell, Refuse};
ghost use Rattle.abt_defs.specs.Steps as steps;
ghost use Rattle.dcsp_rule.specs.Problems.{csp_of};
ghost use Rattle.abt_parts.specs.Messages.{message_of, with_stamps};
ghost use Rattle.abt_parts.specs.Views.{stamped_of};
ghost use Rattle.abt_agent.specs.Bodies.{agent_of, nogood_in, owner_of, requests_for, DoesReceive, DoesSettle, IsGood, IsRightAfter};
ghost use Rattle.abt_defs.specs.Checks.{settles_on};
ghost use Rattle.abt_parts.specs.Outgoing.{IsStamped, Posts};
ghost use Rattle.abt_agent.specs.States.{IsFit, IsNogoodFor, IsToldBy};
ghost use Rattle.abt_agent.specs.Turns.{turn_with, IsFirstTurn};
ghost use Rattle.abt_agent.specs.Rights.{IsRightTurn};

use crate::body::AgentBody;
use crate::refusal::no_step;
use crate::{Turn, TurnKind};
use abt_parts::{Message, Outbox, Recorded, StampedValue, add_rising, post};
use dcsp_common::Memory;
use ngd_log::Step;

impl<'p> AgentBody<'p> {
    /// Settles before anything is told, where no step's number matters.
    pub fn first_settle(&mut self, out: &mut Outbox) -> Result<Turn, Memory>
        requires good { IsGood self.old }
        requires fresh { agent_of self.old ≡ fresh (csp_of self.old.known.problem.now) self.old.known.me }
        ensures does { (number : ℕ) → IfOk result (DoesSettle number self.old self.new out.old out.new) }
        ensures owner { owner_of self.new.known ≡ owner_of self.old.known }
        ensures good { OnOk result (IsGood self.new) }
        ensures first { IfOk result IsFirstTurn }
        ensures right { (made : List TheStep) → IfOk result (IsRightTurn (csp_of self.old.known.problem.now) made) }
    {
        law_agent::agents_step_right();
        self.known.problem.denotes_csp();
        let mut made = no_step(self.known.alloc);
        let kind = self.settle(0, out, &mut made)?;
        Ok(kind.with_step(made))
    }

    /// What a message does. A step that it leads to has this number, and is made in place of one that is no longer needed.
    pub fn receive(
        &mut self,
        from: u32,
        message: Message,
        number: u64,
        out: &mut Outbox,
        made: &mut Step,
    ) -> Result<TurnKind, Memory>
        requires good { IsGood self.old }
        requires stamp { self.old.stamp < 2 ^ 62 }
        requires fit { IsFit self.old.known.problem.now self.old.known.me number from message }
        ensures does { IfOk result (λ kind. DoesReceive number from (message_of message) self.old self.new out.old out.new (turn_with kind made.new)) }
        ensures owner { owner_of self.new.known ≡ owner_of self.old.known }
        ensures good { OnOk result (IsGood self.new) }
        ensures right { IsRightAfter self.old message made.new result }
    {
        law_agent::agents_step_right();
        self.known.problem.denotes_csp();
        match message {
            Message::Tell { value, stamp } => {
                self.receive_tell(from, StampedValue { value, stamp }, number, out, made)
            }
            Message::Refuse {
                nogood,
                stamps,
                step,
            } => {
                let recorded = Recorded { nogood, step };
                let turn = self.receive_refuse(recorded, stamps.items(), number, out, made);
                out.give_back(stamps);
                turn
            }
            Message::AddLink => self.receive_link(from, out),
        }
    }

    /// What a value that is told does.
    fn receive_tell(
        &mut self,
        from: u32,
        told: StampedValue,
        number: u64,
        out: &mut Outbox,
        made: &mut Step,
    ) -> Result<TurnKind, Memory>
        requires good { IsGood self.old }
        requires stamp { self.old.stamp < 2 ^ 62 }
        requires fit { IsToldBy self.old.known.problem.now self.old.known.me from told.value told.stamp }
        ensures does { IfOk result (λ kind. DoesReceive number from (Tell (stamped_of told)) self.old self.new out.old out.new (turn_with kind made.new)) }
        ensures owner { owner_of self.new.known ≡ owner_of self.old.known }
        ensures good { OnOk result (IsGood self.new) }
    {
        law_agent::agents_stay_sound();
        let is_news = self.learn(from, told)?;
        if !is_news {
            return Ok(TurnKind::Quiet);
        }
        self.settle(number, out, made)
    }

    /// What a nogood does.
    fn receive_refuse(
        &mut self,
        recorded: Recorded,
        stamps: &[u64],
        number: u64,
        out: &mut Outbox,
        made: &mut Step,
    ) -> Result<TurnKind, Memory>
        requires good { IsGood self.old }
        requires stamp { self.old.stamp < 2 ^ 62 }
        requires nogood { IsNogoodFor self.old.known.problem.now self.old.known.me recorded.nogood stamps.now }
        ensures does { (from : ℕ) → IfOk result (λ kind. DoesReceive number from (nogood_in recorded stamps.now) self.old self.new out.old out.new (turn_with kind made.new)) }
        ensures owner { owner_of self.new.known ≡ owner_of self.old.known }
        ensures good { OnOk result (IsGood self.new) }
        ensures rising { OnOk result (PairsRise recorded.nogood) }
    {
        law_agent::agents_only_learn();
        let waited = self.waits;
        let is_news = self.heed(recorded, stamps, out)?;
        if goes_on_waiting(waited, is_news) {
            return Ok(TurnKind::Quiet);
        }
        self.settle(number, out, made)
    }

    /// Whether the agent settles when it receives this message from another agent.
    pub fn settles_on(&self, from: u32, message: &Message) -> bool
        requires { IsStamped message.now }
        ensures { result ≡ settles_on self.now.known.me (agent_of self.now) from (message_of message.now) }
    {
        match message {
            Message::Tell { stamp, .. } => match self.known.view.stamp_of(from) {
                Some(known) => known < *stamp,
                None => true,
            },
            Message::Refuse { nogood, stamps, .. } => {
                !goes_on_waiting(self.waits, self.is_news(nogood.pairs(), stamps.items()))
            }
            Message::AddLink => false,
        }
    }

    /// Takes in a nogood: asks for links, learns its values, and keeps it or drops it. True exactly if something that it
    /// tells is newer than the view.
    fn heed(&mut self, recorded: Recorded, stamps: &[u64], out: &mut Outbox) -> Result<bool, Memory>
        requires good { IsGood self.old }
        requires nogood { IsNogoodFor self.old.known.problem.now self.old.known.me recorded.nogood stamps.now }
        ensures news { IfOk result (λ news. news ≡ steps.is_news self.old.known.me (with_stamps recorded.nogood stamps.now) (agent_of self.old)) }
        ensures agent { OnOk result (agent_of self.new ≡ steps.heed self.old.known.me recorded.step (with_stamps recorded.nogood stamps.now) (agent_of self.old)) }
        ensures sent { OnOk result (Posts out.old out.new (requests_for self.old recorded stamps.now)) }
        ensures owner { owner_of self.new.known ≡ owner_of self.old.known }
        ensures good { OnOk result (IsGood self.new) }
    {
        law_agent::agents_only_learn();
        law_agent::agents_stay_sound();
        self.ask(recorded.nogood.pairs(), out)?;
        let learned = self.learn_all(recorded.nogood.pairs(), stamps)?;
        self.keep(recorded, learned.fits, out)?;
        Ok(learned.is_news)
    }

    /// What a link request does: it tells the agent's value, and counts the sender among those that are told.
    fn receive_link(&mut self, from: u32, out: &mut Outbox) -> Result<TurnKind, Memory>
        requires good { IsGood self.old }
        requires exists { from < length self.old.known.problem.now.domains }
        ensures does { (number : ℕ) (made : TheStep) → IfOk result (λ kind. DoesReceive number from AddLink self.old self.new out.old out.new (turn_with kind made)) }
        ensures owner { owner_of self.new.known ≡ owner_of self.old.known }
        ensures good { OnOk result (IsGood self.new) }
    {
        law_agent::agents_stay_sound();
        self.tell_own(from, out)?;
        add_rising(&mut self.tells, from)?;
        Ok(TurnKind::Quiet)
    }

    /// Tells the agent's value, if there is one.
    fn tell_own(&self, to: u32, out: &mut Outbox) -> Result<(), Memory>
        requires { (value : ℤ) → self.now.value ≡ Some value → 0 < self.now.stamp }
        ensures { OnOk result (Posts out.old out.new (steps.own_value to (agent_of self.now) self.now.value)) }
    {
        match self.value {
            Some(value) => {
                let message = Message::Tell {
                    value,
                    stamp: self.stamp,
                };
                post(out, to, message)
            }
            None => Ok(()),
        }
    }
}

/// Whether an agent that waited or not goes on waiting, when something is told that is news or not.
fn goes_on_waiting(waited: bool, is_news: bool) -> bool
    ensures { result ≡ (waited && not is_news) }
{
    waited && !is_news
}
