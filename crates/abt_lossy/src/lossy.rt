//! The agents over the medium, as callers see them.

ghost use Rattle.std.specs.Prelude.{◌≡◌, ◌<◌, ◌≤◌, ◌+◌, ◌^◌, ℕ, List, [], ◌∷◌, ◌++◌, IfOk, IsErr, OnErr, OnOk, false, true, length};
ghost use Rattle.dcsp_defs.specs.Csp.{HasNoSolution};
ghost use Rattle.dcsp_rule.specs.Problems.{csp_of};
ghost use Rattle.abt_network.specs.Standing.{standing_in, state_at};
ghost use Rattle.abt_lossy.specs.InWorld.{reached, standing_of, Begins, CanHappen, Happens, IsAfter, IsOrderly, IsSolvedAfter};

use crate::parts::{Happened, Parts};
use abt_network::{Begun, Standing};
use dcsp_common::Memory;
use dcsp_problem::Problem;
use std::alloc::Global;
use std::marker::Model;

/// All agents of a problem over a medium that loses, repeats and reorders packets.
///
/// The world has, for each ordered pair of agents, the list of all messages that were sent, numbered
/// from 1; how many of them the receiver has handed up; how many the sender knows to be acknowledged;
/// and a pool of packets, each of which is numbered data or an acknowledgement. An event is a word
/// `w`, with the number `k = w / 4` and a kind, `w % 4`:
///
/// - 0 sends: among the pairs with messages that are not acknowledged, by sender and then by receiver,
///   number `k` modulo their number puts its first such message last in the pool.
/// - 1 delivers: packet `k` modulo the pool's length arrives, and leaves the pool, which closes up.
/// - 2 repeats: it arrives and stays. 3 loses: it leaves.
///
/// Data that is next on its pair is handed up: the agent makes its step. It is acknowledged then, and
/// when it comes again; no data is acknowledged once the run is refuted. Later data is dropped.
///
/// After want of memory it is spent: it meets the conditions of `start` and `event`, and these answer
/// `Memory` from then on; what its other calls tell is then open.
#[derive(Drop)]
pub struct Lossy<'p> {
    problem: &'p Problem,
    parts: Parts<'p>,
    /// How many events were made.
    events: u64,
    spent: bool,
}

impl<'p> Model for Lossy<'p> {
    ghost use Rattle.abt_lossy.specs.InWorld.{LossyState};
    ghost use Rattle.abt_lossy.specs.Kept.{shown, IsSound};

    ghost Value = { LossyState };

    ghost view = { λ l. shown l.problem.now l.parts l.events l.spent };

    ghost invariant = { λ l. IsSound l.problem.now l.parts l.events l.spent };
}

impl<'p> Lossy<'p> {
    /// Fresh agents, and no packet on its way.
    pub fn new(alloc: Global, problem: &'p Problem) -> Result<Lossy<'p>, Memory>
        ensures problem { IfOk result (λ l. l.problem ≡ problem.now) }
        ensures begun { IfOk result (λ l. l.begun ≡ false) }
        ensures spent { IfOk result (λ l. l.spent ≡ false) }
    {
        let parts = Parts::new(alloc, problem)?;
        Ok(Lossy {
            problem,
            parts,
            events: 0,
            spent: false,
        })
    }

    /// Starts the agents as over reliable links: the first false rule without variables refutes; else
    /// they settle in order until one makes a step, whose nogood is empty. The answer says the step.
    /// No packet is on its way then. What refused, for want of memory, refuses from then on, and how it stands is
    /// left open.
    pub fn start(&mut self) -> Result<Begun, Memory>
        requires { self.old.spent ≡ false → self.old.begun ≡ false }
        ensures begins { IfOk result (λ told. Begins self.old self.new told) }
        ensures after { OnOk result (IsAfter self.new []) }
        ensures begun { OnOk result (self.new.begun ≡ true) }
        ensures problem { self.new.problem ≡ self.old.problem }
        ensures sound { OnOk result (self.new.spent ≡ false) }
        ensures spends { OnErr result (self.new.spent ≡ true) }
        ensures spent { self.old.spent ≡ true → IsErr result }
    {
        if self.spent {
            return Err(Memory);
        }
        match self.parts.start() {
            Ok(begun) => Ok(begun),
            Err(memory) => {
                self.spent = true;
                Err(memory)
            }
        }
    }

    /// Makes the event of this word, and tells what was handed up and the step that was made. Over
    /// every list of events each link is in order and the world is a run over reliable links, in which
    /// each handing up is one delivery: at most as many as the message bound, and a quiet world that
    /// is not refuted has a solution. What refused, for want of memory, refuses from then on, and how it stands
    /// is left open.
    pub fn event(&mut self, word: u32) -> Result<Happened, Memory>
        requires { self.old.spent ≡ false → CanHappen self.old }
        ensures happens { (words : List ℕ) → IsAfter self.old words → IfOk result (λ happened. Happens self.old self.new words word happened) }
        ensures orderly { (words : List ℕ) → IsAfter self.old words → OnOk result (IsOrderly (csp_of self.new.problem) (words ++ word ∷ []) (reached self.new (words ++ word ∷ []))) }
        ensures counts { OnOk result (self.new.events ≡ self.old.events + 1) }
        ensures begun { OnOk result (self.new.begun ≡ true) }
        ensures problem { self.new.problem ≡ self.old.problem }
        ensures sound { OnOk result (self.new.spent ≡ false) }
        ensures spends { OnErr result (self.new.spent ≡ true) }
        ensures spent { self.old.spent ≡ true → IsErr result }
    {
        if self.spent {
            return Err(Memory);
        }
        self.problem.denotes_csp();
        match self.parts.event(word) {
            Ok(happened) => {
                self.events += 1;
                Ok(happened)
            }
            Err(memory) => {
                self.spent = true;
                Err(memory)
            }
        }
    }

    /// Refuted exactly where the run is refuted, else quiet exactly where every message that was sent
    /// was handed up, else open. A refuted problem has no solution; in a quiet world no agent waits,
    /// and the values are a solution.
    pub fn state(&self) -> Standing
        ensures standing { result ≡ standing_in self.now.network }
        ensures world { (words : List ℕ) → IsAfter self.now words → self.now.spent ≡ false → result ≡ standing_of (csp_of self.now.problem) (reached self.now words) }
        ensures solved { (words : List ℕ) → IsAfter self.now words → self.now.spent ≡ false → result ≡ Standing.Quiet → IsSolvedAfter self.now words }
        ensures refuted { (words : List ℕ) → IsAfter self.now words → self.now.spent ≡ false → result ≡ Standing.Refuted → HasNoSolution (csp_of self.now.problem) }
    {
        self.problem.denotes_csp();
        self.parts.network.state()
    }

    /// How many packets are on their way.
    pub fn pool(&self) -> u64
        ensures pool { result ≡ length self.now.carrier.pool }
        ensures world { (words : List ℕ) → IsAfter self.now words → result ≡ length (reached self.now words).pool }
    {
        self.parts.carrier.pool.len() as u64
    }

    /// An agent's value, if it has one.
    pub fn value(&self, agent: u32) -> Option<i64>
        requires { agent < length self.now.problem.domains }
        ensures value { result ≡ (state_at self.now.network.agents agent).value }
        ensures world { (words : List ℕ) → IsAfter self.now words → result ≡ ((reached self.now words).network.agents agent).value }
    {
        self.parts.network.value(agent)
    }

    /// How many events were made.
    pub fn events(&self) -> u64
        ensures { result ≡ self.now.events }
    {
        self.events
    }
}
