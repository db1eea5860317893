//! Agents of the smallest problem without a solution.

ghost use Rattle.std.specs.Prelude.{◌≡◌, ◌<◌, ◌∷◌, [], length, true};
ghost use Rattle.dcsp_defs.specs.Words.{In};
ghost use Rattle.dcsp_defs.specs.Csp.{domain};
ghost use Rattle.dcsp_rule.specs.Problems.{csp_of};
ghost use Rattle.abt_agent.specs.States.{IsFit};

use crate::given::{add_between, add_variable, let_go};
use abt_agent::{Agent, Turn};
use abt_parts::{Message, Outbox, Sent, StampList};
use dcsp_defs::{Nogood, Pair, Reason};
use dcsp_problem::{ConstraintKind, Problem, ProblemBuilder};
use std::alloc::Global;
use std::process::Abort;

/// Two variables with the values 0 and 1, which differ and are equal.
fn smallest(rt: &impl Abort, alloc: Global) -> Problem
    ensures { length result.domains ≡ 2 }
{
    let mut builder = ProblemBuilder::new(alloc);
    add_variable(rt, alloc, &mut builder, 1);
    add_variable(rt, alloc, &mut builder, 1);
    add_between(rt, alloc, &mut builder, ConstraintKind::IntNe, 0, 1);
    add_between(rt, alloc, &mut builder, ConstraintKind::IntEq, 0, 1);
    builder.finish().expect(rt, "memory")
}

/// The agent took a value.
fn expect_announced(rt: &impl Abort, turn: Turn) {
    assert!(rt; matches!(&turn, Turn::Announced));
}

/// Lets the agent and its messages go.
fn end(_agent: Agent<'_>, _out: Outbox) {}

/// The agent of a variable, which has started.
fn started<'p>(
    rt: &impl Abort,
    alloc: Global,
    problem: &'p Problem,
    agent: u32,
    out: &mut Outbox,
) -> Agent<'p>
    requires { agent < length problem.now.domains }
    ensures problem { result.problem ≡ problem.now }
    ensures me { result.me ≡ agent }
{
    let mut agent = Agent::new(alloc, problem, agent).expect(rt, "memory");
    let turn = agent.start(out).expect(rt, "memory");
    expect_announced(rt, turn);
    agent
}

/// A message from another agent, and the number of the step that is made next.
#[derive(Debug, Drop)]
struct Incoming {
    from: u32,
    message: Message,
    next_step: u64,
}

/// Hands the agent a message, from an agent of the problem.
fn handed(
    rt: &impl Abort,
    problem: &Problem,
    agent: &mut Agent,
    incoming: Incoming,
    out: &mut Outbox,
) -> Turn
    requires problem { agent.old.problem ≡ problem.now }
    requires fit { IsFit problem.now agent.old.me incoming.next_step incoming.from incoming.message }
    ensures problem { agent.new.problem ≡ problem.now }
    ensures me { agent.new.me ≡ agent.old.me }
{
    assert!(rt; agent.stamp() < 100);
    let Incoming {
        from,
        message,
        next_step,
    } = incoming;
    agent
        .receive(from, message, next_step, out)
        .expect(rt, "memory")
}

/// Whether the domain of a variable has the value.
fn has_value(problem: &Problem, var: u32, value: i64) -> bool
    requires { var < length problem.now.domains }
    ensures { result ≡ true → In value (domain (csp_of problem.now) var) }
{
    match problem.domain(var).place_of(value) {
        Some(_) => true,
        None => false,
    }
}

/// A nogood of one pair, whose value has the stamp 1.
fn own_nogood(rt: &impl Abort, alloc: Global, var: u32, value: i64) -> Message
    ensures { result ≡ Message.Refuse (record { var = var; value = value } ∷ []) (1 ∷ []) 1 }
{
    let nogood = Nogood::from_pairs(alloc, &[Pair { var, value }]).expect(rt, "memory");
    let mut stamps = StampList::new(alloc);
    assert!(rt; stamps.push(1).is_ok());
    Message::Refuse {
        nogood,
        stamps,
        step: 1,
    }
}

fn expect_pairs(rt: &impl Abort, nogood: &Nogood, pairs: &[Pair]) {
    assert_eq!(rt; nogood.pairs(), pairs);
}

fn expect_reasons(rt: &impl Abort, found: &[Reason], reasons: &[Reason]) {
    assert_eq!(rt; found, reasons);
}

/// The turn derived that the first variable has not the value 0, by both rules.
fn expect_derived(rt: &impl Abort, turn: Turn) {
    match &turn {
        Turn::Derived(step) => {
            assert!(rt; step.variable == Some(1));
            expect_pairs(rt, &step.nogood, &[Pair { var: 0, value: 0 }]);
            let reasons = [Reason::Rule(0), Reason::Rule(1)];
            expect_reasons(rt, step.reasons.items(), &reasons);
        }
        _ => panic!(rt; "no step"),
    }
}

/// The one message refuses the value 0 of the first variable, by the first step.
fn expect_refused(rt: &impl Abort, out: &mut Outbox) {
    match out.take_first() {
        Some(
            Sent {
                to: 0,
                message: Message::Refuse {
                    nogood,
                    stamps,
                    step: 1,
                },
            },
        ) => {
            expect_pairs(rt, &nogood, &[Pair { var: 0, value: 0 }]);
            assert_eq!(rt; stamps.items(), [1].as_slice());
        }
        _ => panic!(rt; "no nogood"),
    }
    assert!(rt; out.is_empty());
}

/// The one message tells the second variable's agent the value 0.
fn expect_told(rt: &impl Abort, out: &mut Outbox) {
    match out.take_first() {
        Some(
            Sent {
                to: 1,
                message: Message::Tell { value: 0, stamp: 1 },
            },
        ) => {}
        _ => panic!(rt; "no value"),
    }
    assert!(rt; out.is_empty());
}

/// The agent did nothing in the turn.
fn expect_quiet(rt: &impl Abort, turn: Turn) {
    assert!(rt; matches!(&turn, Turn::Quiet));
}

/// Hands the second variable's agent the value 0 of the first variable.
fn hand_value(rt: &impl Abort, problem: &Problem, agent: &mut Agent, out: &mut Outbox) -> Turn
    requires two { length problem.now.domains ≡ 2 }
    requires problem { agent.old.problem ≡ problem.now }
    requires me { agent.old.me ≡ 1 }
    ensures problem { agent.new.problem ≡ problem.now }
    ensures me { agent.new.me ≡ agent.old.me }
{
    assert!(rt; has_value(problem, 0, 0));
    let told = Incoming {
        from: 0,
        message: Message::Tell { value: 0, stamp: 1 },
        next_step: 1,
    };
    handed(rt, problem, agent, told, out)
}

/// Hands the second variable's agent a nogood of its value 1.
fn hand_nogood(
    rt: &impl Abort,
    alloc: Global,
    problem: &Problem,
    agent: &mut Agent,
    out: &mut Outbox,
) -> Turn
    requires two { length problem.now.domains ≡ 2 }
    requires problem { agent.old.problem ≡ problem.now }
    requires me { agent.old.me ≡ 1 }
{
    assert!(rt; has_value(problem, 1, 1));
    let own = Incoming {
        from: 0,
        message: own_nogood(rt, alloc, 1, 1),
        next_step: 2,
    };
    handed(rt, problem, agent, own, out)
}

/// The second variable's agent derives a nogood of the first one's value, and waits.
fn expect_waits(
    rt: &impl Abort,
    alloc: Global,
    problem: &Problem,
    agent: &mut Agent,
    out: &mut Outbox,
)
    requires two { length problem.now.domains ≡ 2 }
    requires problem { agent.old.problem ≡ problem.now }
    requires me { agent.old.me ≡ 1 }
{
    let derived = hand_value(rt, problem, agent, out);
    expect_derived(rt, derived);
    assert!(rt; agent.waits());
    expect_refused(rt, out);
    let quiet = hand_nogood(rt, alloc, problem, agent, out);
    expect_quiet(rt, quiet);
    assert!(rt; out.is_empty());
}

#[test]
fn derives_and_waits(rt: HostRuntime) {
    let alloc = rt.alloc();
    let problem = smallest(&rt, alloc);
    let mut out = Outbox::new(alloc);
    let mut agent = started(&rt, alloc, &problem, 1, &mut out);
    assert!(rt; out.is_empty());
    assert_eq!(rt; agent.value(), Some(0));
    expect_waits(&rt, alloc, &problem, &mut agent, &mut out);
    end(agent, out);
    let_go(problem);
}

/// Hands the first variable's agent the second one's wish for a link.
fn hand_request(rt: &impl Abort, problem: &Problem, agent: &mut Agent, out: &mut Outbox) -> Turn
    requires two { length problem.now.domains ≡ 2 }
    requires problem { agent.old.problem ≡ problem.now }
    requires me { agent.old.me ≡ 0 }
{
    let request = Incoming {
        from: 1,
        message: Message::AddLink,
        next_step: 1,
    };
    handed(rt, problem, agent, request, out)
}

/// The one message is taken out.
fn expect_one(rt: &impl Abort, out: &mut Outbox) {
    assert!(rt; out.take_first().is_some());
    assert!(rt; out.is_empty());
}

#[test]
fn answers_a_link_request(rt: HostRuntime) {
    let alloc = rt.alloc();
    let problem = smallest(&rt, alloc);
    let mut out = Outbox::new(alloc);
    let mut agent = started(&rt, alloc, &problem, 0, &mut out);
    expect_one(&rt, &mut out);
    let quiet = hand_request(&rt, &problem, &mut agent, &mut out);
    expect_quiet(&rt, quiet);
    expect_told(&rt, &mut out);
    end(agent, out);
    let_go(problem);
}
