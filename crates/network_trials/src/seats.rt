//! Agents in their places, which are handed only messages that they can take.

ghost use Rattle.std.specs.Prelude.{◌≡◌, ◌-◌, ◌<◌, Some, length, slice_get, true};
ghost use Rattle.std.specs.Option.{option_map};
ghost use Rattle.dcsp_defs.specs.declared.nogood.Pair.{Pair as ThePair};
ghost use Rattle.dcsp_defs.specs.Words.{In};
ghost use Rattle.dcsp_defs.specs.Csp.{domain};
ghost use Rattle.dcsp_rule.specs.Problems.{csp_of};
ghost use Rattle.abt_parts.specs.Outgoing.{ArePositive};
ghost use Rattle.abt_agent.specs.States.{IsFit, IsNogoodFor, IsToldBy};

use abt_agent::{Agent, Turn};
use abt_parts::{Message, Outbox};
use dcsp_defs::Pair;
use dcsp_problem::Problem;
use std::alloc::Global;
use std::process::Abort;

/// An agent of a problem.
#[derive(Drop)]
pub struct Seat<'p> {
    problem: &'p Problem,
    me: u32,
    agent: Agent<'p>,
    ghost same: { agent.problem ≡ problem.now },
    ghost number: { agent.me ≡ me },
}

/// A message on its way.
#[derive(Debug, Drop)]
pub struct Letter {
    pub from: u32,
    pub to: u32,
    pub message: Message,
}

impl<'p> Seat<'p> {
    /// The agent of a variable, which has started and taken a value. What it tells is put out.
    pub fn started(
        rt: &impl Abort,
        alloc: Global,
        problem: &'p Problem,
        me: u32,
        out: &mut Outbox,
    ) -> Seat<'p>
        requires { me < length problem.now.domains }
    {
        let mut agent = Agent::new(alloc, problem, me).expect(rt, "memory");
        let turn = agent.start(out).expect(rt, "memory");
        expect_announced(rt, turn);
        Seat { problem, me, agent }
    }

    /// Hands the agent a message, before a step with this number.
    pub fn receive(
        &mut self,
        rt: &impl Abort,
        letter: Letter,
        next_step: u64,
        out: &mut Outbox,
    ) -> Turn {
        let Letter { from, to, message } = letter;
        assert_eq!(rt; to, self.me);
        assert!(rt; self.agent.stamp() < 1_000_000);
        assert!(rt; is_fit(self.problem, self.me, next_step, from, &message));
        self.agent
            .receive(from, message, next_step, out)
            .expect(rt, "memory")
    }

    /// The agent's value.
    pub fn value(&self) -> Option<i64> {
        self.agent.value()
    }
}

/// The agent took a value.
fn expect_announced(rt: &impl Abort, turn: Turn) {
    assert!(rt; matches!(&turn, Turn::Announced));
}

/// Whether the agent can take the message from this one, before a step with this number.
fn is_fit(problem: &Problem, me: u32, next_step: u64, from: u32, message: &Message) -> bool
    ensures { result ≡ true → IsFit problem.now me next_step from message.now }
{
    match message {
        Message::Tell { value, stamp } => is_told_by(problem, me, from, *value, *stamp),
        Message::Refuse {
            nogood,
            stamps,
            step,
        } => *step < next_step && is_nogood_for(problem, me, nogood.pairs(), stamps.items()),
        Message::AddLink => me < from && from < problem.vars(),
    }
}

/// Whether it is a value of a higher agent, with a stamp above 0.
fn is_told_by(problem: &Problem, me: u32, from: u32, value: i64, stamp: u64) -> bool
    ensures { result ≡ true → IsToldBy problem.now me from value stamp }
{
    from < me && 0 < stamp && is_value(problem, Pair { var: from, value })
}

/// Whether it is a nogood whose lowest variable is the agent's, with as many stamps above 0.
fn is_nogood_for(problem: &Problem, me: u32, pairs: &[Pair], stamps: &[u64]) -> bool
    ensures { result ≡ true → IsNogoodFor problem.now me pairs.now stamps.now }
{
    is_lowest(me, pairs)
        && pairs.len() == stamps.len()
        && are_values(problem, pairs)
        && are_positive(stamps)
}

/// Whether the last pair is of this variable.
fn is_lowest(var: u32, pairs: &[Pair]) -> bool
    ensures { result ≡ true → option_map (λ (pair : ThePair). pair.var) (slice_get pairs.now (length pairs.now - 1)) ≡ Some var }
{
    match pairs.last() {
        Some(pair) => pair.var == var,
        None => false,
    }
}

/// Whether each pair has a value of its variable's domain.
fn are_values(problem: &Problem, pairs: &[Pair]) -> bool
    ensures { result ≡ true → (pair : ThePair) → In pair pairs.now → In pair.value (domain (csp_of problem.now) pair.var) }
{
    for pair in pairs {
        if !is_value(problem, *pair) {
            return false;
        }
    }
    true
}

/// Whether the pair has a value of its variable's domain.
fn is_value(problem: &Problem, pair: Pair) -> bool
    ensures { result ≡ true → In pair.value (domain (csp_of problem.now) pair.var) }
{
    if pair.var >= problem.vars() {
        return false;
    }
    match problem.domain(pair.var).place_of(pair.value) {
        Some(_) => true,
        None => false,
    }
}

/// Whether each number is above 0.
fn are_positive(stamps: &[u64]) -> bool
    ensures { result ≡ true → ArePositive stamps.now }
{
    for stamp in stamps {
        if *stamp == 0 {
            return false;
        }
    }
    true
}
