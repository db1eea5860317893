//! The network that callers see.

ghost use Rattle.std.specs.Prelude.{◌≡◌, ◌≢◌, ◌<◌, ◌≤◌, ◌+◌, ◌^◌, ℕ, List, [], IfOk, IfSome, IsErr, OnErr, OnOk, Some, false, true, length, option_copied, slice_get};
ghost use Rattle.std.specs.Option.{option_map};
ghost use Rattle.abt_defs.specs.Network.{Network as TheNetwork, empty_network, ready, IsSolved};
ghost use Rattle.law_agent.specs.Stores.{IsBoundedStore};
ghost use Rattle.dcsp_rule.specs.Problems.{csp_of};
ghost use Rattle.abt_parts.specs.Messages.{message_of};
ghost use Rattle.abt_parts.specs.Outgoing.{IsStamped};
ghost use Rattle.abt_agent.specs.States.{stands_for};
ghost use Rattle.abt_links.specs.Transit.{link_of, ready_pairs};
ghost use Rattle.abt_network.specs.Rooms.{delivery_in};
ghost use Rattle.abt_network.specs.Standing.{reached, standing_in, standing_of, state_at, CanDeliver, Delivers, IsAfter, IsSeat, LeadsOn, StandsAt, Starts, TellsSent};

use crate::body::NetworkBody;
use crate::{Begun, Delivery, DeliveryRoom, Standing};
use abt_agent::Agent;
use abt_parts::{Message, SentTo};
use dcsp_common::Memory;
use dcsp_problem::Problem;
use std::alloc::Global;
use std::marker::Model;

/// All agents of a problem, and the messages in transit between them.
///
/// After want of memory it is spent: it meets the conditions of `start` and `deliver`, and these answer
/// `Memory` from then on; what its other calls tell is then open.
#[derive(Drop)]
pub struct Network<'p> {
    body: NetworkBody<'p>,
    spent: bool,
}

impl<'p> Model for Network<'p> {
    ghost use Rattle.std.specs.Prelude.{◌≡◌, false};
    ghost use Rattle.abt_network.specs.Standing.{NetworkState};
    ghost use Rattle.abt_network.specs.Bodies.{shown, IsSound};

    ghost Value = { NetworkState };

    ghost view = { λ n. shown n.body n.spent };

    ghost invariant = { λ n. IsSound n.body n.spent };
}

impl<'p> Network<'p> {
    /// Fresh agents, and nothing in transit.
    pub fn new(alloc: Global, problem: &'p Problem) -> Result<Network<'p>, Memory>
        ensures stands { IfOk result (λ n. StandsAt n (empty_network (csp_of problem.now))) }
        ensures problem { IfOk result (λ n. n.problem ≡ problem.now) }
        ensures begun { IfOk result (λ n. n.begun ≡ false) }
        ensures spent { IfOk result (λ n. n.spent ≡ false) }
    {
        let body = NetworkBody::new(alloc, problem)?;
        Ok(Network { body, spent: false })
    }

    /// Starts the agents: the first false rule without variables refutes; else they settle in order until
    /// one makes a step, whose nogood is empty. The answer says the step. A network that refused, for want of
    /// memory, refuses from then on, and how it stands is left open.
    pub fn start(&mut self) -> Result<Begun, Memory>
        requires { self.old.spent ≡ false → self.old.begun ≡ false }
        ensures starts { IfOk result (λ told. Starts self.old.problem self.new told) }
        ensures begun { IfOk result (λ _. self.new.begun ≡ true) }
        ensures problem { self.new.problem ≡ self.old.problem }
        ensures sound { OnOk result (self.new.spent ≡ false) }
        ensures spends { OnErr result (self.new.spent ≡ true) }
        ensures spent { self.old.spent ≡ true → IsErr result }
    {
        if self.spent {
            return Err(Memory);
        }
        match self.body.start() {
            Ok(begun) => Ok(begun),
            Err(memory) => {
                self.spent = true;
                Err(memory)
            }
        }
    }

    /// Delivers the first message of the ready list whose number is the remainder of `choice` by the
    /// number of ready lists, and tells of it. Whatever the choices before were, no run makes more
    /// deliveries than the bound, and a step is right after the steps of the run. A network that refused, for
    /// want of memory, refuses from then on, and how it stands is left open.
    pub fn deliver(&mut self, choice: u32) -> Result<Delivery, Memory>
        requires { self.old.spent ≡ false → CanDeliver self.old }
        ensures delivers { (net : TheNetwork) → StandsAt self.old net → IfOk result (λ d. Delivers self.old.problem self.new net choice d) }
        ensures sends { (net : TheNetwork) → StandsAt self.old net → OnOk result (TellsSent self.old.problem self.new.sent net choice) }
        ensures leads { (choices : List ℕ) → IsAfter self.old choices → IfOk result (λ d. LeadsOn self.old self.new choices choice d) }
        ensures begun { IfOk result (λ _. self.new.begun ≡ true) }
        ensures problem { self.new.problem ≡ self.old.problem }
        ensures sound { OnOk result (self.new.spent ≡ false) }
        ensures spends { OnErr result (self.new.spent ≡ true) }
        ensures spent { self.old.spent ≡ true → IsErr result }
    {
        let mut room = DeliveryRoom::new(self.body.alloc);
        self.deliver_into(choice, &mut room)?;
        Ok(room.into_delivery())
    }

    /// The same, told in the place of an earlier delivery, whose step's room a step takes.
    pub fn deliver_into(&mut self, choice: u32, room: &mut DeliveryRoom) -> Result<(), Memory>
        requires { self.old.spent ≡ false → CanDeliver self.old }
        ensures delivers { (net : TheNetwork) → StandsAt self.old net → OnOk result (Delivers self.old.problem self.new net choice (delivery_in room.new)) }
        ensures sends { (net : TheNetwork) → StandsAt self.old net → OnOk result (TellsSent self.old.problem self.new.sent net choice) }
        ensures leads { (choices : List ℕ) → IsAfter self.old choices → OnOk result (LeadsOn self.old self.new choices choice (delivery_in room.new)) }
        ensures begun { OnOk result (self.new.begun ≡ true) }
        ensures problem { self.new.problem ≡ self.old.problem }
        ensures sound { OnOk result (self.new.spent ≡ false) }
        ensures spends { OnErr result (self.new.spent ≡ true) }
        ensures spent { self.old.spent ≡ true → IsErr result }
    {
        if self.spent {
            return Err(Memory);
        }
        match self.body.deliver(choice, room) {
            Ok(()) => Ok(()),
            Err(memory) => {
                self.spent = true;
                Err(memory)
            }
        }
    }

    /// How it stands. Where a run leads to it and nothing is in transit or refuted, no agent waits, and the
    /// values are a solution.
    pub fn state(&self) -> Standing
        ensures standing { result ≡ standing_in self.now }
        ensures machine { (net : TheNetwork) → StandsAt self.now net → self.now.spent ≡ false → result ≡ standing_of (csp_of self.now.problem) net }
        ensures solved { (choices : List ℕ) → IsAfter self.now choices → self.now.spent ≡ false → result ≡ Standing.Quiet → IsSolved (csp_of self.now.problem) (reached self.now choices) }
    {
        self.body.problem.denotes_csp();
        if self.body.refuted {
            Standing::Refuted
        } else if self.body.links.ready_count() == 0 {
            Standing::Quiet
        } else {
            Standing::Open
        }
    }

    /// How many lists are ready, which is how many pairs have a message in transit.
    pub fn ready(&self) -> u32
        ensures ready { result ≡ length (ready_pairs self.now.links) }
        ensures machine { (net : TheNetwork) → StandsAt self.now net → self.now.spent ≡ false → result ≡ length (ready (csp_of self.now.problem) net) }
    {
        self.body.links.ready_count()
    }

    /// Sender and receiver of the ready list with this number, by sender and then by receiver.
    pub fn ready_pair(&self, number: u32) -> (u32, u32)
        requires { number < length (ready_pairs self.now.links) }
        ensures pair { slice_get (ready_pairs self.now.links) number ≡ Some result }
        ensures machine { (net : TheNetwork) → StandsAt self.now net → self.now.spent ≡ false → slice_get (ready (csp_of self.now.problem) net) number ≡ Some result }
    {
        self.body.links.ready_pair(number)
    }

    /// How many messages are in transit from one agent to another.
    pub fn waiting(&self, from: u32, to: u32) -> u64
        ensures { result ≡ length (link_of self.now.links from to) }
    {
        self.body.links.waiting(from, to)
    }

    /// The first message in transit from one agent to another, if there is one. It has its stamps.
    pub fn first(&self, from: u32, to: u32) -> Option<&Message>
        ensures first { option_copied result ≡ slice_get (link_of self.now.links from to) 0 }
        ensures machine { (net : TheNetwork) → StandsAt self.now net → slice_get (net.links from to) 0 ≡ option_map message_of (option_copied result) }
        ensures stamped { self.now.spent ≡ false → IfSome (option_copied result) IsStamped }
    {
        self.body.links.first(from, to)
    }

    /// What is told of the messages that the last delivery sent, in order.
    pub fn sent(&self) -> &[SentTo]
        ensures { result.now ≡ self.now.sent }
    {
        &self.body.sent
    }

    /// An agent.
    pub fn agent(&self, agent: u32) -> &Agent<'p>
        requires { agent < length self.now.problem.domains }
        ensures agent { result.now ≡ state_at self.now.agents agent }
        ensures machine { (net : TheNetwork) → StandsAt self.now net → stands_for result.now ≡ net.agents agent }
        ensures seat { self.now.spent ≡ false → IsSeat self.now.problem agent result.now }
    {
        self.body.problem.denotes_csp();
        &self.body.agents[agent as usize]
    }

    /// The number of this pair's list, which is ready.
    pub fn number(&self, from: u32, to: u32) -> u32
        requires { link_of self.now.links from to ≢ [] }
        ensures { slice_get (ready_pairs self.now.links) result ≡ Some (from, to) }
    {
        self.body.links.number(from, to)
    }

    /// An agent's value, if it has one. What the agent has recorded is small.
    pub fn value(&self, agent: u32) -> Option<i64>
        requires { agent < length self.now.problem.domains }
        ensures value { result ≡ (state_at self.now.agents agent).value }
        ensures machine { (net : TheNetwork) → StandsAt self.now net → result ≡ (net.agents agent).value }
        ensures bounded { (choices : List ℕ) → IsAfter self.now choices → IsBoundedStore (csp_of self.now.problem) agent (stands_for (state_at self.now.agents agent)) }
    {
        self.body.problem.denotes_csp();
        self.body.agents[agent as usize].value()
    }

    /// How many steps were made: at most one more than deliveries.
    pub fn steps(&self) -> u64
        ensures steps { result ≡ self.now.steps }
        ensures few { self.now.spent ≡ false → result ≤ self.now.deliveries + 1 }
        ensures fits { self.now.spent ≡ false → result < 2 ^ 62 }
    {
        self.body.problem.denotes_csp();
        self.body.steps
    }

    /// How many deliveries were made.
    pub fn deliveries(&self) -> u64
        ensures { result ≡ self.now.deliveries }
    {
        self.body.deliveries
    }
}
