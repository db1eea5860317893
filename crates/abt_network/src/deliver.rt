//! Deliveries.

ghost use Rattle.std.specs.Prelude.{◌≡◌, ◌≢◌, ◌<◌, ◌≤◌, ◌+◌, ◌^◌, ℕ, List, length, IfOk, OnOk, false, true};
ghost use Rattle.abt_defs.specs.Network.{Network as TheNetwork, refutes};
ghost use Rattle.abt_defs.specs.Runs.{cargo_of};
ghost use Rattle.abt_parts.specs.Messages.{message_of};
ghost use Rattle.dcsp_defs.specs.declared.Step.{Step as TheStep};
ghost use Rattle.abt_agent.specs.States.{CanReceive, Receives};
ghost use Rattle.abt_agent.specs.Turns.{turn_with};
ghost use Rattle.abt_network.specs.Rooms.{delivery_in, made_in, step_if};
ghost use Rattle.abt_links.specs.Transit.{ready_pairs};
ghost use Rattle.abt_network.specs.Standing.{cargo_in, state_at, CanDeliver, Delivers, IsAfter, LeadsOn, StandsAt, TellsSent};
ghost use Rattle.abt_network.specs.Bodies.{shown, ExpectsAll, IsKept, IsSized, IsTidy};
ghost use Rattle.abt_network.specs.Passing.{step_in, steps_made, PassesOn};

use crate::body::NetworkBody;
use crate::post::post;
use crate::{Cargo, DeliveryRoom};
use abt_agent::{Agent, Turn, TurnKind};
use abt_links::Carried;
use abt_parts::{Message, Outbox};
use dcsp_common::Memory;
use ngd_log::Step;

/// Hands the message to its receiver, which makes a step in place of one that is no longer needed.
#[inline(always)]
fn hand_over(
    agents: &mut Vec<Agent>,
    carried: Carried,
    next_step: u64,
    out: &mut Outbox,
    made: &mut Step,
) -> Result<TurnKind, Memory>
    requires exists { carried.to < length agents.old.items }
    requires fit { CanReceive (state_at agents.old.items carried.to) carried.from next_step carried.message }
    ensures does { IfOk result (λ kind. Receives (state_at agents.old.items carried.to) (state_at agents.new.items carried.to)
        next_step carried.from carried.message out.old out.new (turn_with kind made.new)) }
    ensures others { (k : ℕ) → k ≢ carried.to → state_at agents.new.items k ≡ state_at agents.old.items k }
    ensures long { length agents.new.items ≡ length agents.old.items }
{
    let agent = &mut agents[carried.to as usize];
    agent.give_back_room(out);
    agent.receive_into(carried.from, carried.message, next_step, out, made)
}

/// What is told of a message.
#[inline(always)]
fn cargo_of(message: &Message) -> Cargo
    ensures { cargo_in result ≡ cargo_of (message_of message.now) }
{
    match message {
        Message::Tell { value, .. } => Cargo::Tell { value: *value },
        Message::Refuse { step, .. } => Cargo::Refuse { step: *step },
        Message::AddLink => Cargo::AddLink,
    }
}

/// The step that a turn made, if it made one.
#[inline(always)]
pub fn step_of(turn: Turn) -> Option<Step>
    ensures { result ≡ step_in turn }
{
    match turn {
        Turn::Quiet | Turn::Announced => None,
        Turn::Derived(step) | Turn::Empty(step) => Some(step),
    }
}

/// Whether an agent that did this has made a step.
#[inline(always)]
fn makes_step(kind: TurnKind) -> bool
    ensures { (step : TheStep) → step_if result step ≡ step_in (turn_with kind step) }
{
    match kind {
        TurnKind::Quiet | TurnKind::Announced => false,
        TurnKind::Derived | TurnKind::Empty => true,
    }
}

/// How many steps were made.
#[inline(always)]
fn count_of(room: &DeliveryRoom) -> u64
    ensures count { result ≡ steps_made (made_in room.now) }
    ensures few { result ≤ 1 }
{
    match room.made() {
        Some(_) => 1,
        None => 0,
    }
}

/// Whether there is a step, and its nogood is empty.
#[inline(always)]
fn refutes(room: &DeliveryRoom) -> bool
    ensures { result ≡ refutes (made_in room.now) }
{
    match room.made() {
        Some(step) => step.nogood.pairs().is_empty(),
        None => false,
    }
}

impl<'p> NetworkBody<'p> {
    /// Hands the first message of a list to its receiver, sends what that puts out, and tells of it in the room.
    #[inline(always)]
    fn pass_on(&mut self, choice: u32, room: &mut DeliveryRoom) -> Result<(), Memory>
        requires tidy { IsTidy self.old }
        requires some { 0 < length (ready_pairs self.old.links) }
        requires few { self.old.steps < 2 ^ 62 }
        requires expects { ExpectsAll self.old.problem.now self.old.agents.items self.old.links (self.old.steps + 1) }
        ensures passes { (net : TheNetwork) → StandsAt (shown self.old false) net → OnOk result (PassesOn self.old.problem.now self.new.agents.items self.new.links net choice (delivery_in room.new)) }
        ensures sends { (net : TheNetwork) → StandsAt (shown self.old false) net → OnOk result (TellsSent self.old.problem.now self.new.sent.items net choice) }
        ensures tidy { OnOk result (IsTidy self.new) }
        ensures sized { IsSized self.new }
        ensures problem { self.new.problem.now ≡ self.old.problem.now }
        ensures refuted { self.new.refuted ≡ self.old.refuted }
        ensures deliveries { self.new.deliveries ≡ self.old.deliveries }
        ensures steps { self.new.steps ≡ self.old.steps }
        ensures begun { self.new.begun ≡ self.old.begun }
    {
        self.problem.denotes_csp();
        let count = self.links.ready_count();
        let number = choice % count;
        let carried = self.links.take_ready(number);
        let to = carried.to;
        room.number = number;
        room.from = carried.from;
        room.to = to;
        room.cargo = cargo_of(&carried.message);
        let next = self.steps + 1;
        let kind = hand_over(
            &mut self.agents,
            carried,
            next,
            &mut self.out,
            &mut room.step,
        )?;
        room.has_step = makes_step(kind);
        self.sent.clear();
        post(&mut self.links, to, &mut self.out, &mut self.sent)?;
        Ok(())
    }

    /// Delivers the first message of the list number `choice` of those that are ready, after as many
    /// rounds as it takes, and tells of it in the room.
    #[inline(always)]
    pub fn deliver(&mut self, choice: u32, room: &mut DeliveryRoom) -> Result<(), Memory>
        requires kept { IsKept self.old }
        requires can { CanDeliver (shown self.old false) }
        ensures delivers { (net : TheNetwork) → StandsAt (shown self.old false) net → OnOk result (Delivers self.old.problem.now (shown self.new false) net choice (delivery_in room.new)) }
        ensures sends { (net : TheNetwork) → StandsAt (shown self.old false) net → OnOk result (TellsSent self.old.problem.now self.new.sent.items net choice) }
        ensures leads { (choices : List ℕ) → IsAfter (shown self.old false) choices → OnOk result (LeadsOn (shown self.old false) (shown self.new false) choices choice (delivery_in room.new)) }
        ensures kept { OnOk result (IsKept self.new) }
        ensures begun { OnOk result (self.new.begun ≡ true) }
        ensures sized { IsSized self.new }
        ensures problem { self.new.problem.now ≡ self.old.problem.now }
    {
        self.problem.denotes_csp();
        self.pass_on(choice, room)?;
        self.deliveries += 1;
        self.steps += count_of(room);
        self.refuted = refutes(room);
        Ok(())
    }
}
