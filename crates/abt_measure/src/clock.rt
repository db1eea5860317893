//! The clock of a run.

ghost use Rattle.std.specs.Prelude.{◌≡◌, ◌<◌, ◌*◌, ◌+◌, [], All, length, max, IfOk, OnOk, slice_index};
ghost use Rattle.abt_defs.specs.Clocks.{no_clocks, reached, tick};
ghost use Rattle.abt_parts.specs.declared.message.SentTo.{SentTo as TheSentTo};
ghost use Rattle.abt_measure.specs.Carrying.{event_with};
ghost use Rattle.abt_measure.specs.Clocks.{clocks_of, IsTaken};

use crate::ways::Ways;
use abt_parts::SentTo;
use dcsp_common::Memory;
use std::alloc::Global;
use std::marker::Model;

/// How much a check of a constraint, one of a nogood and the way of a message count.
#[derive(Clone, Copy, Debug, PartialEq, Eq)]
pub struct Weights {
    pub constraint: u64,
    pub nogood: u64,
    pub latency: u64,
}

impl Weights {
    /// How much work so many checks are. A number past its width counts as want of memory.
    pub fn work(self, constraints: u64, nogoods: u64) -> Result<u64, Memory>
        ensures { IfOk result (λ work. work ≡ self.constraint * constraints + self.nogood * nogoods) }
    {
        let Some(first) = self.constraint.checked_mul(constraints) else {
            return Err(Memory);
        };
        let Some(second) = self.nogood.checked_mul(nogoods) else {
            return Err(Memory);
        };
        plus(first, second)
    }
}

/// The clocks of a run's agents, and those that the messages in transit carry.
///
/// After want of memory nothing is known of it.
#[derive(Drop)]
pub struct RunClock {
    weights: Weights,
    agents: Vec<u64>,
    ways: Ways,
    greatest: u64,
}

impl Model for RunClock {
    ghost use Rattle.std.specs.Prelude.{◌≡◌, length};
    ghost use Rattle.abt_measure.specs.Clocks.{ClockState};

    ghost Value = { ClockState };

    ghost view = { λ c. record { weights = c.weights; agents = c.agents.items; lists = c.ways; greatest = c.greatest } };

    ghost invariant = { λ c. length c.ways ≡ length c.agents.items };
}

impl RunClock {
    /// The clock of a run of so many agents before it starts, with these weights.
    pub fn new(alloc: Global, agents: u32, weights: Weights) -> Result<RunClock, Memory>
        ensures clocks { IfOk result (λ c. clocks_of c ≡ no_clocks) }
        ensures long { IfOk result (λ c. length c.agents ≡ agents) }
        ensures weights { IfOk result (λ c. c.weights ≡ weights) }
    {
        let ways = Ways::new(alloc, agents)?;
        let Ok(agents) = vec![in alloc; 0u64; agents as usize] else {
            return Err(Memory);
        };
        Ok(RunClock {
            weights,
            agents,
            ways,
            greatest: 0,
        })
    }

    /// An agent receives the oldest message from another one, if there is a sender, does so much work, and sends. A clock
    /// past its width counts as want of memory.
    pub fn act(
        &mut self,
        agent: u32,
        sender: Option<u32>,
        work: u64,
        sent: &[SentTo],
    ) -> Result<(), Memory>
        requires exists { agent < length self.old.agents }
        requires receivers { All (λ (x : TheSentTo). x.to < length self.old.agents) sent.now }
        ensures ticks { OnOk result (clocks_of self.new ≡ tick self.old.weights.latency (event_with agent sender work sent.now) (clocks_of self.old)) }
        ensures long { length self.new.agents ≡ length self.old.agents }
        ensures weights { OnOk result (self.new.weights ≡ self.old.weights) }
    {
        let reached = self.reach(agent, sender)?;
        let clock = plus(reached, work)?;
        self.agents[agent as usize] = clock;
        self.greatest = greater(self.greatest, clock);
        self.ways.send_all(agent, clock, sent)
    }

    /// The agent's clock, or the one that comes with the message and the way of it, if this is greater. The message is taken.
    fn reach(&mut self, agent: u32, sender: Option<u32>) -> Result<u64, Memory>
        requires { agent < length self.old.agents }
        ensures reached { IfOk result (λ clock. clock ≡ reached self.old.weights.latency agent sender (clocks_of self.old)) }
        ensures taken { OnOk result (IsTaken sender agent self.old self.new) }
        ensures long { length self.new.agents ≡ length self.old.agents }
    {
        let own = self.agents[agent as usize];
        let Some(sender) = sender else {
            return Ok(own);
        };
        let came = plus(self.ways.take(sender, agent), self.weights.latency)?;
        Ok(greater(own, came))
    }

    /// How much work so many checks are by its weights.
    pub fn work(&self, constraints: u64, nogoods: u64) -> Result<u64, Memory>
        ensures { IfOk result (λ work. work ≡ self.now.weights.constraint * constraints + self.now.weights.nogood * nogoods) }
    {
        self.weights.work(constraints, nogoods)
    }

    /// The greatest clock of an agent.
    pub fn greatest(&self) -> u64
        ensures { result ≡ (clocks_of self.now).greatest }
    {
        self.greatest
    }
}

/// The greater of two clocks.
pub(crate) fn greater(a: u64, b: u64) -> u64
    ensures { result ≡ max a b }
{
    if a < b { b } else { a }
}

/// The sum. One past its width counts as want of memory.
pub(crate) fn plus(a: u64, b: u64) -> Result<u64, Memory>
    ensures { IfOk result (λ sum. sum ≡ a + b) }
{
    match a.checked_add(b) {
        Some(sum) => Ok(sum),
        None => Err(Memory),
    }
}
