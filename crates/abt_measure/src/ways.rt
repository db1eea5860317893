//! The messages in transit between all agents, each with the clock that it carries.

ghost use Rattle.std.specs.Prelude.{◌≡◌, ◌==◌, ◌&&◌, ◌++◌, ◌∷◌, ◌<◌, ℕ, [], length, All, IfOk, OnOk, if◌then◌else◌};
ghost use Rattle.abt_defs.specs.Clocks.{first_of, rest_of};
ghost use Rattle.abt_parts.specs.declared.message.SentTo.{SentTo as TheSentTo};
ghost use Rattle.abt_measure.specs.Carrying.{clocks_on, receivers_of, sent_with};

use crate::carried::CarriedList;
use abt_parts::SentTo;
use dcsp_common::Memory;
use std::alloc::Global;
use std::marker::Model;

/// For each receiver the messages in transit to it.
#[derive(Drop)]
pub(crate) struct Ways {
    lists: Vec<CarriedList>,
}

impl Model for Ways {
    ghost use Rattle.std.specs.Prelude.{List};
    ghost use Rattle.abt_measure.specs.declared.carried.Carried.{Carried};

    ghost Value = { List (List Carried) };

    ghost view = { λ t. t.lists.items };
}

impl Ways {
    /// Nothing is in transit between so many agents.
    #[tactic(auto, using(crate::proofs::WayLaws::blank_more, crate::proofs::WayLaws::none_on))]
    pub(crate) fn new(alloc: Global, agents: u32) -> Result<Ways, Memory>
        ensures long { IfOk result (λ t. length t ≡ agents) }
        ensures none { IfOk result (λ t. (a b : ℕ) → clocks_on t a b ≡ []) }
    {
        let mut lists = Vec::new(alloc);
        for _agent in 0..agents {
            let Ok(()) = lists.push(CarriedList::new(alloc)) else {
                return Err(Memory);
            };
        }
        Ok(Ways { lists })
    }

    /// Takes the oldest message from one agent to another, and tells its clock; 0 where there is none.
    pub(crate) fn take(&mut self, from: u32, to: u32) -> u64
        requires { to < length self.old }
        ensures first { result ≡ first_of (clocks_on self.old from to) }
        ensures rest { (a b : ℕ) → clocks_on self.new a b ≡ (if a == from && b == to then rest_of (clocks_on self.old a b) else clocks_on self.old a b) }
        ensures long { length self.new ≡ length self.old }
    {
        let list = &mut self.lists[to as usize];
        list.take(from)
    }

    /// Adds a message.
    fn add(&mut self, from: u32, to: u32, clock: u64) -> Result<(), Memory>
        requires { to < length self.old }
        ensures added { OnOk result ((a b : ℕ) → clocks_on self.new a b ≡ (if a == from && b == to then clocks_on self.old a b ++ clock ∷ [] else clocks_on self.old a b)) }
        ensures long { length self.new ≡ length self.old }
    {
        let list = &mut self.lists[to as usize];
        list.add(from, clock)
    }

    /// Adds the messages that an agent sends, in order, with its clock.
    #[tactic(auto, using(crate::proofs::WayLaws::sent_step, crate::proofs::WayLaws::sent_end))]
    pub(crate) fn send_all(&mut self, from: u32, clock: u64, sent: &[SentTo]) -> Result<(), Memory>
        requires { All (λ (x : TheSentTo). x.to < length self.old) sent.now }
        ensures added { OnOk result ((a b : ℕ) → clocks_on self.new a b ≡ clocks_on self.old a b ++ sent_with from clock (receivers_of sent.now) a b) }
        ensures long { length self.new ≡ length self.old }
    {
        for message in sent {
            self.add(from, message.to, clock)?;
        }
        Ok(())
    }
}
