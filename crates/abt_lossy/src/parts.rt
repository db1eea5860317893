//! One event of the agents over the medium.

ghost use Rattle.std.specs.Prelude.{◌≡◌, ◌%◌, ◌≢◌, ◌==◌, ◌<◌, ◌&&◌, nat_lt, ℕ, [], IfOk, OnOk, None, if◌then◌else◌};
ghost use Rattle.dcsp_rule.specs.Problems.{csp_of};
ghost use Rattle.abt_network.specs.Standing.{Starts};
ghost use Rattle.abt_links.specs.PairTables.{has_pair};
ghost use Rattle.abt_lossy.specs.Carries.{CountsFit};
ghost use Rattle.abt_lossy.specs.AtWorld.{is_refuted, marked_by_all, may_send, Does, IsAt, IsBlank, IsReached};

use crate::carrier::{Arrival, Carrier};
use abt_links::PairSet;
use abt_network::{Begun, Network, Standing, Step};
use dcsp_common::Memory;
use dcsp_problem::Problem;
use std::alloc::Global;

/// What an event did.
#[derive(Debug, Drop)]
pub struct Happened {
    /// The number that the list handed up from had among the nonempty ones, if there was one.
    pub delivered: Option<u32>,
    /// The step that was made, if there was one.
    pub step: Option<Step>,
}

/// The agents with the messages not yet handed up, what the medium has, and which pairs may send.
#[derive(Drop)]
pub struct Parts<'p> {
    /// How many agents there are.
    pub agents: u32,
    pub network: Network<'p>,
    pub carrier: Carrier,
    pub senders: PairSet,
}

impl<'p> Parts<'p> {
    /// Fresh agents, and no packet on its way.
    pub fn new(alloc: Global, problem: &'p Problem) -> Result<Parts<'p>, Memory>
        ensures problem { IfOk result (λ parts. parts.network.problem ≡ problem.now) }
        ensures blank { IfOk result (λ parts. IsBlank parts) }
    {
        let agents = problem.vars();
        let network = Network::new(alloc, problem)?;
        let senders = PairSet::new(alloc, agents)?;
        Ok(Parts {
            agents,
            network,
            carrier: Carrier::new(alloc),
            senders,
        })
    }

    /// Starts the agents, as `Network::start` does.
    pub fn start(&mut self) -> Result<Begun, Memory>
        requires { IsBlank self.old }
        ensures starts { IfOk result (λ told. Starts self.old.network.problem self.new.network told) }
        ensures stands { OnOk result (IsAt (csp_of self.old.network.problem) [] self.new) }
        ensures problem { self.new.network.problem ≡ self.old.network.problem }
    {
        let begun = self.network.start()?;
        self.mark_every();
        Ok(begun)
    }

    /// Marks all pairs.
    fn mark_every(&mut self)
        requires fit { CountsFit self.old.carrier }
        requires every { self.old.senders.agents ≡ self.old.agents }
        ensures network { self.new.network ≡ self.old.network }
        ensures carrier { self.new.carrier ≡ self.old.carrier }
        ensures count { self.new.agents ≡ self.old.agents }
        ensures agents { self.new.senders.agents ≡ self.old.senders.agents }
        ensures marks { (k i : ℕ) → has_pair self.new.senders k i ≡ marked_by_all self.old k i }
    {
        for sender in 0..self.agents {
            self.mark_all(sender);
        }
    }

    /// Puts the pair among those that may send, or takes it out, by the counts and what waits.
    fn mark(&mut self, sender: u32, receiver: u32)
        requires fit { CountsFit self.old.carrier }
        requires sender { sender < self.old.senders.agents }
        requires receiver { receiver < self.old.senders.agents }
        ensures network { self.new.network ≡ self.old.network }
        ensures carrier { self.new.carrier ≡ self.old.carrier }
        ensures count { self.new.agents ≡ self.old.agents }
        ensures agents { self.new.senders.agents ≡ self.old.senders.agents }
        ensures marks { (k i : ℕ) → has_pair self.new.senders k i ≡ (if k == sender && i == receiver then may_send self.old k i else has_pair self.old.senders k i) }
    {
        let acknowledged = self.carrier.counts.acknowledged(sender, receiver);
        let handed_up = self.carrier.counts.handed_up(sender, receiver);
        let waiting = self.network.waiting(sender, receiver);
        let may_send = acknowledged < handed_up || acknowledged - handed_up < waiting;
        self.senders.set(sender, receiver, may_send);
    }

    /// Marks all pairs of this sender.
    fn mark_all(&mut self, sender: u32)
        requires fit { CountsFit self.old.carrier }
        requires sender { sender < self.old.agents }
        requires all { self.old.senders.agents ≡ self.old.agents }
        ensures network { self.new.network ≡ self.old.network }
        ensures carrier { self.new.carrier ≡ self.old.carrier }
        ensures count { self.new.agents ≡ self.old.agents }
        ensures agents { self.new.senders.agents ≡ self.old.senders.agents }
        ensures marks { (k i : ℕ) → has_pair self.new.senders k i ≡ (if k == sender && nat_lt i self.old.agents then may_send self.old k i else has_pair self.old.senders k i) }
    {
        for receiver in 0..self.agents {
            self.mark(sender, receiver);
        }
    }

    /// An event whose word sends.
    fn send(&mut self, word: u32) -> Result<(), Memory>
        requires fit { CountsFit self.old.carrier }
        requires kind { word % 4 ≡ 0 }
        ensures does { OnOk result (Does word (record { delivered = None; step = None }) self.old self.new) }
        ensures network { self.new.network ≡ self.old.network }
    {
        let count = self.senders.count();
        if count == 0 {
            return Ok(());
        }
        let (sender, receiver) = self.senders.nth(word / 4 % count);
        self.carrier.send(sender, receiver)
    }

    /// One event, of which nothing that came before has refuted the problem. After `Memory` its effect
    /// may be lost.
    pub fn event(&mut self, word: u32) -> Result<Happened, Memory>
        requires reached { IsReached self.old }
        ensures does { IfOk result (λ happened. Does word happened self.old self.new) }
        ensures problem { self.new.network.problem ≡ self.old.network.problem }
    {
        if word % 4 == 0 {
            self.send(word)?;
            return Ok(nothing());
        }
        match self.carrier.come(word)? {
            Arrival::Done => Ok(nothing()),
            Arrival::Counted {
                sender,
                receiver,
                number: _,
            } => {
                self.mark(sender, receiver);
                Ok(nothing())
            }
            Arrival::Next {
                sender,
                receiver,
                number,
            } => {
                // As many lists are ready as the definitions have, so the number is the list's place there.
                let _ready = self.network.ready();
                let choice = self.network.number(sender, receiver);
                let delivery = self.network.deliver(choice)?;
                let refuted = is_refuted(self.network.state());
                self.carrier.hand_up(sender, receiver, number, refuted)?;
                self.mark_all(receiver);
                Ok(Happened {
                    delivered: Some(choice),
                    step: delivery.step,
                })
            }
        }
    }
}

/// Nothing was handed up, and no step was made.
fn nothing() -> Happened
    ensures { result ≡ record { delivered = None; step = None } }
{
    Happened {
        delivered: None,
        step: None,
    }
}

/// Whether a network that stands so is refuted.
fn is_refuted(standing: Standing) -> bool
    ensures { result ≡ is_refuted standing }
{
    match standing {
        Standing::Refuted => true,
        Standing::Open | Standing::Quiet => false,
    }
}
