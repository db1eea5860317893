//! An agent that is handed messages, and what it does with them.

ghost use Rattle.std.specs.Prelude.{◌≡◌, ◌+◌, ◌<◌, IfSome, length, true};
ghost use Rattle.dcsp_defs.specs.Words.{In};
ghost use Rattle.dcsp_defs.specs.Csp.{domain};
ghost use Rattle.dcsp_rule.specs.Problems.{csp_of};
ghost use Rattle.abt_agent.specs.States.{IsFit};

use crate::problem::{AGENT, VARIABLES};
use abt_agent::{Agent, Turn};
use abt_parts::{Message, Outbox, StampList};
use dcsp_defs::{Nogood, Pair};
use dcsp_problem::Problem;
use std::alloc::Global;

/// How many values the agent may take.
const MOST_STAMPS: u64 = 4_294_967_296;

/// The counts of a run.
#[derive(Drop)]
pub struct Counts {
    pub received: u64,
    /// The values that the agent took.
    pub taken: u64,
    pub steps: u64,
    pub sent: u64,
}

/// The agent, what it sends, and the counts.
#[derive(Drop)]
pub struct Driver<'p> {
    alloc: Global,
    problem: &'p Problem,
    agent: Agent<'p>,
    out: Outbox,
    counts: Counts,
    ghost variables: { length problem.now.domains ≡ 52 },
    ghost same: { agent.problem ≡ problem.now },
    ghost number: { agent.me ≡ 50 },
}

/// Whether the pair's value is one of its variable's.
fn is_value(problem: &Problem, pair: Pair) -> bool
    requires { pair.var < length problem.now.domains }
    ensures { result ≡ true → In pair.value (domain (csp_of problem.now) pair.var) }
{
    match problem.domain(pair.var).place_of(pair.value) {
        Some(_) => true,
        None => false,
    }
}

/// Takes all messages out, and counts them.
fn emptied(out: &mut Outbox) -> u64 {
    let count = out.len();
    for _message in 0..count {
        out.take_first();
    }
    count as u64
}

impl<'p> Driver<'p> {
    /// The agent after its start.
    pub fn new(alloc: Global, problem: &'p Problem) -> Option<Driver<'p>>
        requires { length problem.now.domains ≡ VARIABLES }
    {
        let mut out = Outbox::new(alloc);
        let mut agent = Agent::new(alloc, problem, AGENT).ok()?;
        agent.start(&mut out).ok()?;
        let counts = Counts {
            received: 0,
            taken: agent.stamp(),
            steps: 0,
            sent: emptied(&mut out),
        };
        Some(Driver {
            alloc,
            problem,
            agent,
            out,
            counts,
        })
    }

    /// The counts so far.
    pub fn counts(self) -> Counts {
        let mut counts = self.counts;
        counts.taken = self.agent.stamp();
        counts
    }

    /// The agent's value.
    pub fn value(&self) -> Option<i64> {
        self.agent.value()
    }

    /// Hands the agent a message, and empties what it sends. `None` is want of memory, or too many values taken.
    fn receive(&mut self, from: u32, message: Message, step: u64) -> Option<()>
        requires { IsFit self.old.problem.now 50 step from message }
    {
        if self.agent.stamp() >= MOST_STAMPS {
            return None;
        }
        let turn = self.agent.receive(from, message, step, &mut self.out).ok()?;
        self.count(turn);
        Some(())
    }

    /// Counts what came of a message, and empties what the agent sends.
    fn count(&mut self, turn: Turn) {
        self.counts.received = self.counts.received.saturating_add(1);
        self.counts.steps = self.counts.steps.saturating_add(steps_in(&turn));
        self.counts.sent = self.counts.sent.saturating_add(emptied(&mut self.out));
    }

    /// Tells the agent the value of a higher one. `None` is also a pair that is no such value, and a stamp of 0.
    pub fn tell(&mut self, pair: Pair, stamp: u64, step: u64) -> Option<()> {
        if pair.var >= AGENT || stamp == 0 || !is_value(self.problem, pair) {
            return None;
        }
        let message = Message::Tell {
            value: pair.value,
            stamp,
        };
        self.receive(pair.var, message, step)
    }

    /// Hands the agent the nogood of the step before this one, of a higher agent's value and its own. `None`
    /// is also pairs that are no such values, and a stamp or a step of 0.
    pub fn refuse(&mut self, pair: Pair, stamp: u64, own: i64, step: u64) -> Option<()> {
        let own = Pair {
            var: AGENT,
            value: own,
        };
        if pair.var >= AGENT || !is_value(self.problem, pair) || !is_value(self.problem, own) {
            return None;
        }
        if stamp == 0 || step == 0 {
            return None;
        }
        let message = self.refusal(pair, stamp, own, step - 1)?;
        self.receive(AGENT + 1, message, step)
    }

    /// The nogood of two values.
    fn refusal(&self, higher: Pair, stamp: u64, own: Pair, step: u64) -> Option<Message>
        requires higher { In higher.value (domain (csp_of self.now.problem.now) higher.var) }
        requires own { In own.value (domain (csp_of self.now.problem.now) own.var) }
        requires agent { own.var ≡ 50 }
        requires stamped { 0 < stamp }
        ensures { IfSome result (IsFit self.now.problem.now 50 (step + 1) 51) }
    {
        let _variables = self.problem.vars();
        let nogood = Nogood::from_pairs(self.alloc, &[higher, own]).ok()?;
        let stamps = StampList::from_vec(vec![in self.alloc; stamp, 1].ok()?);
        Some(Message::Refuse {
            nogood,
            stamps,
            step,
        })
    }
}

/// How many steps the agent made in the turn.
fn steps_in(turn: &Turn) -> u64 {
    match turn {
        Turn::Derived(_) => 1,
        Turn::Empty(_) => 1,
        _ => 0,
    }
}
