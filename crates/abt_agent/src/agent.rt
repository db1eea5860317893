//! The agent that callers see.

ghost use Rattle.std.specs.Prelude.{◌≡◌, ◌<◌, IfOk, IsErr, OnErr, OnOk, ℕ, ℤ, List, Some, false, length, true};
ghost use Rattle.dcsp_defs.specs.declared.Step.{Step as TheStep};
ghost use Rattle.dcsp_defs.specs.Words.{In};
ghost use Rattle.dcsp_defs.specs.Csp.{domain};
ghost use Rattle.law_agent.specs.Stores.{IsBoundedStore};
ghost use Rattle.law_agent.specs.Merges.{IsUnionOfReasons};
ghost use Rattle.dcsp_rule.specs.Problems.{csp_of};
ghost use Rattle.abt_agent.specs.States.{stands_for, CanReceive, IsFresh, Receives, Settles};
ghost use Rattle.abt_agent.specs.Turns.{turn_with, IsFirstTurn};
ghost use Rattle.law_agent.specs.Sources.{AreOfSteps};
ghost use Rattle.abt_agent.specs.Rights.{BringsOfStep, IsRightTurn};
ghost use Rattle.abt_parts.specs.Stores.{records_of};
ghost use Rattle.abt_parts.specs.Messages.{message_of};
ghost use Rattle.abt_defs.specs.Agents.{known};
ghost use Rattle.abt_defs.specs.Checks.{checks, settles_on};
ghost use Rattle.abt_parts.specs.Checked.{as_checks};
ghost use Rattle.abt_parts.specs.Outgoing.{IsStamped};
ghost use Rattle.abt_parts.specs.Views.{stamped_in};
ghost use Rattle.abt_reason.specs.Causes.{reason_for, value_at};

use crate::body::AgentBody;
use crate::refusal::no_step;
use crate::{Turn, TurnKind};
use abt_parts::{Checks, Message, Outbox, Recorded, StampedValue};
use dcsp_common::Memory;
use dcsp_defs::Reason;
use dcsp_problem::Problem;
use ngd_log::Step;
use std::alloc::Global;
use std::marker::Model;

/// One agent of a problem.
///
/// After want of memory it is spent: it meets all conditions, and `start` and `receive` answer
/// `Memory` from then on.
#[derive(Drop)]
pub struct Agent<'p> {
    body: AgentBody<'p>,
    spent: bool,
}

impl<'p> Model for Agent<'p> {
    ghost use Rattle.std.specs.Prelude.{◌≡◌, false};
    ghost use Rattle.abt_agent.specs.States.{State};
    ghost use Rattle.abt_agent.specs.Bodies.{shown, IsGood};

    ghost Value = { State };

    ghost view = { λ a. shown a.body a.spent };

    ghost invariant = { λ a. a.spent ≡ false → IsGood a.body };
}

impl<'p> Agent<'p> {
    /// The agent of this variable, counted from 0, before its start.
    pub fn new(alloc: Global, problem: &'p Problem, agent: u32) -> Result<Agent<'p>, Memory>
        requires { agent < length problem.now.domains }
        ensures { IfOk result (λ a. IsFresh problem.now agent a) }
    {
        let body = AgentBody::new(alloc, problem, agent)?;
        Ok(Agent { body, spent: false })
    }

    /// Settles for the first time: the agent takes its least value, or makes a step with the empty
    /// nogood, which is right after any steps. The messages are appended to `out`, in which all that stood
    /// there stays. What `value` says of the agent holds here too. An agent that refused, for want of memory,
    /// refuses from then on, and what it appended to `out` is left open.
    pub fn start(&mut self, out: &mut Outbox) -> Result<Turn, Memory>
        requires { self.old.spent ≡ false → IsFresh self.old.problem self.old.me self.old }
        ensures does { (number : ℕ) → IfOk result (λ turn. Settles self.old self.new number out.old out.new turn) }
        ensures first { IfOk result IsFirstTurn }
        ensures right { (made : List TheStep) → IfOk result (IsRightTurn (csp_of self.old.problem) made) }
        ensures bounded { OnOk result (IsBoundedStore (csp_of self.old.problem) self.old.me (stands_for self.new)) }
        ensures merges { OnOk result (IsUnionOfReasons (csp_of self.old.problem) self.old.me (stands_for self.new)) }
        ensures problem { self.new.problem ≡ self.old.problem }
        ensures me { self.new.me ≡ self.old.me }
        ensures spends { OnErr result (self.new.spent ≡ true) }
        ensures spent { self.old.spent ≡ true → IsErr result }
    {
        if self.spent {
            return Err(Memory);
        }
        law_agent::sound_stores();
        law_agent::sound_merges();
        self.body.known.problem.denotes_csp();
        match self.body.first_settle(out) {
            Ok(turn) => Ok(turn),
            Err(memory) => {
                self.spent = true;
                Err(memory)
            }
        }
    }

    /// Receives a message from another agent: a value of its domain from a higher one, with a stamp above
    /// 0; a nogood whose lowest variable is this agent's, with as many stamps as pairs, each above 0, and
    /// the number of a step below `next_step`; or a link request from a lower one. The messages are
    /// appended to `out`, in which all that stood there stays: link requests first, then what settling
    /// sends. A nogood that is sent carries `next_step`, the number of the step that derives it. A step
    /// that it makes is right after any steps of which those that the kept nogoods and the message name
    /// have these nogoods. What `value` says of the agent holds here too. An agent that refused, for want of
    /// memory, refuses from then on, and what it appended to `out` is left open.
    pub fn receive(
        &mut self,
        from: u32,
        message: Message,
        next_step: u64,
        out: &mut Outbox,
    ) -> Result<Turn, Memory>
        requires { self.old.spent ≡ false → CanReceive self.old from next_step message }
        ensures does { IfOk result (λ turn. Receives self.old self.new next_step from message out.old out.new turn) }
        ensures right { (made : List TheStep) → AreOfSteps made (records_of self.old.store) → BringsOfStep made message → IfOk result (IsRightTurn (csp_of self.old.problem) made) }
        ensures bounded { OnOk result (IsBoundedStore (csp_of self.old.problem) self.old.me (stands_for self.new)) }
        ensures merges { OnOk result (IsUnionOfReasons (csp_of self.old.problem) self.old.me (stands_for self.new)) }
        ensures problem { self.new.problem ≡ self.old.problem }
        ensures me { self.new.me ≡ self.old.me }
        ensures spends { OnErr result (self.new.spent ≡ true) }
        ensures spent { self.old.spent ≡ true → IsErr result }
    {
        let mut made = no_step(self.body.known.alloc);
        let kind = self.receive_into(from, message, next_step, out, &mut made)?;
        Ok(kind.with_step(made))
    }

    /// The same, where a step is made in place of one that is no longer needed, whose room it takes.
    #[inline(always)]
    pub fn receive_into(
        &mut self,
        from: u32,
        message: Message,
        next_step: u64,
        out: &mut Outbox,
        step: &mut Step,
    ) -> Result<TurnKind, Memory>
        requires { self.old.spent ≡ false → CanReceive self.old from next_step message }
        ensures does { IfOk result (λ kind. Receives self.old self.new next_step from message out.old out.new (turn_with kind step.new)) }
        ensures right { (made : List TheStep) → AreOfSteps made (records_of self.old.store) → BringsOfStep made message → IfOk result (λ kind. IsRightTurn (csp_of self.old.problem) made (turn_with kind step.new)) }
        ensures bounded { OnOk result (IsBoundedStore (csp_of self.old.problem) self.old.me (stands_for self.new)) }
        ensures merges { OnOk result (IsUnionOfReasons (csp_of self.old.problem) self.old.me (stands_for self.new)) }
        ensures problem { self.new.problem ≡ self.old.problem }
        ensures me { self.new.me ≡ self.old.me }
        ensures spends { OnErr result (self.new.spent ≡ true) }
        ensures spent { self.old.spent ≡ true → IsErr result }
    {
        if self.spent {
            return Err(Memory);
        }
        law_agent::sound_stores();
        law_agent::sound_merges();
        self.body.known.problem.denotes_csp();
        match self.body.receive(from, message, next_step, out, step) {
            Ok(kind) => Ok(kind),
            Err(memory) => {
                self.spent = true;
                Err(memory)
            }
        }
    }

    /// Gives the room of a nogood that it has forgotten to later ones, if there is some.
    #[inline(always)]
    pub fn give_back_room(&mut self, out: &mut Outbox)
        ensures agent { self.new ≡ self.old }
        ensures out { out.new ≡ out.old }
    {
        if let Some(pairs) = self.body.known.store.take_room() {
            out.give_back_pairs(pairs);
        }
    }

    /// The agent's value, if it has one.
    ///
    /// The agent keeps at most one nogood for each value of its domain, with at most one pair for each
    /// agent down to itself, and all but its own pair are as its view has them. What its reasons contribute
    /// to a nogood never clashes, and the nogood that it would derive is their union.
    pub fn value(&self) -> Option<i64>
        ensures value { result ≡ self.now.value }
        ensures in_domain { self.now.spent ≡ false → (v : ℤ) → result ≡ Some v → In v (domain (csp_of self.now.problem) self.now.me) }
        ensures bounded { self.now.spent ≡ false → IsBoundedStore (csp_of self.now.problem) self.now.me (stands_for self.now) }
        ensures merges { self.now.spent ≡ false → IsUnionOfReasons (csp_of self.now.problem) self.now.me (stands_for self.now) }
    {
        law_agent::sound_stores();
        law_agent::sound_merges();
        self.body.known.problem.denotes_csp();
        self.body.value
    }

    /// Whether the agent waits: it has sent a nogood, and has learned nothing since.
    pub fn waits(&self) -> bool
        ensures { result ≡ self.now.waits }
    {
        self.body.waits
    }

    /// How many values the agent has taken.
    pub fn stamp(&self) -> u64
        ensures { result ≡ self.now.stamp }
    {
        self.body.stamp
    }

    /// How many nogoods the agent has recorded.
    pub fn recorded(&self) -> usize
        ensures { result ≡ length (stands_for self.now).recorded }
    {
        self.body.known.store.len()
    }

    /// Whether the agent settles when it receives this message from another agent.
    pub fn settles_on(&self, from: u32, message: &Message) -> bool
        requires { IsStamped message.now }
        ensures { result ≡ settles_on self.now.me (stands_for self.now) from (message_of message.now) }
    {
        self.body.settles_on(from, message)
    }

    /// How much the agent looks at as it settles with this value of its own, one of its domain, or with none: by
    /// what it was told and the nogoods that it has recorded.
    pub fn checks(&self, own: Option<i64>) -> Result<Checks, Memory>
        requires { self.now.spent ≡ false → (v : ℤ) → own ≡ Some v → In v (domain (csp_of self.now.problem) self.now.me) }
        ensures { IfOk result (λ sum. as_checks sum ≡ checks (csp_of self.now.problem) self.now.me (known (stands_for self.now)) (stands_for self.now).recorded own) }
    {
        if self.spent {
            return Err(Memory);
        }
        self.body.known.checks(own)
    }

    /// The value and the stamp that a higher agent told last; `None` where it told nothing or is not higher.
    pub fn told(&self, agent: u32) -> Option<StampedValue>
        ensures { stamped_in result ≡ (stands_for self.now).view agent }
    {
        self.body.known.view.stamped_value(agent)
    }

    /// The nogoods that the agent has recorded, in order of arrival.
    pub fn nogoods(&self) -> &[Recorded]
        ensures { records_of result.now ≡ (stands_for self.now).recorded }
    {
        self.body.known.store.items()
    }

    /// The first reason against the value at a place of the agent's domain, by what it was told and the nogoods that it
    /// has recorded; `None` exactly if the value is not ruled out.
    pub fn reason(&self, place: usize) -> Option<Reason>
        requires sound { self.now.spent ≡ false }
        requires place { place < length (domain (csp_of self.now.problem) self.now.me) }
        ensures { result ≡ reason_for self.now.problem self.now.me (known (stands_for self.now)) self.now.store (value_at self.now.problem self.now.me place) }
    {
        self.body.known.reason_at(place)
    }
}
