//! Drawn problems under drawn choices, beside a network whose messages stand in plain lists.

ghost use Rattle.std.specs.Prelude.{◌≡◌, ◌<◌, length, true};

use crate::given::{add_comparison, add_variable, let_go};
use crate::networks::{delivered, end, started};
use crate::plain::{Delivered, Plain};
use abt_network::{Delivery, Network, Standing, Step};
use abt_schedule::{Choices, Seeded};
use dcsp_problem::{ConstraintKind, Problem, ProblemBuilder};
use std::alloc::Global;
use std::process::Abort;

/// A number below `below`.
fn number(words: &mut Seeded, below: u32) -> u32
    requires { 0 < below }
    ensures { result < below }
{
    words.next().unwrap_or(0) % below
}

/// So many variables, each with one to three values.
fn variables(rt: &impl Abort, alloc: Global, count: u32, words: &mut Seeded) -> ProblemBuilder
    ensures { length result.domains ≡ count }
{
    let mut builder = ProblemBuilder::new(alloc);
    for _variable in 0..count {
        let greatest = i64::from(number(words, 3));
        add_variable(rt, alloc, &mut builder, 0, greatest);
    }
    builder
}

/// Compares two variables as a number below 8 says: most often they differ, and for one number nothing is said.
fn compare(
    rt: &impl Abort,
    alloc: Global,
    builder: &mut ProblemBuilder,
    first: u32,
    second: u32,
    drawn: u32,
)
    requires first { first < length builder.old.domains }
    requires second { second < length builder.old.domains }
    ensures { builder.new.domains ≡ builder.old.domains }
{
    match drawn {
        0 => add_comparison(rt, alloc, builder, ConstraintKind::IntEq, first, second),
        1 => add_comparison(rt, alloc, builder, ConstraintKind::IntLe, first, second),
        2 => add_comparison(rt, alloc, builder, ConstraintKind::IntLt, first, second),
        3 => {}
        _ => add_comparison(rt, alloc, builder, ConstraintKind::IntNe, first, second),
    }
}

/// Compares the variable with those before it.
fn compare_with_higher(
    rt: &impl Abort,
    alloc: Global,
    builder: &mut ProblemBuilder,
    var: u32,
    words: &mut Seeded,
)
    requires { var < length builder.old.domains }
    ensures { builder.new.domains ≡ builder.old.domains }
{
    for higher in 0..var {
        compare(rt, alloc, builder, higher, var, number(words, 8));
    }
}

/// A problem of two to five variables, with comparisons between them.
fn problem(rt: &impl Abort, alloc: Global, words: &mut Seeded) -> Problem {
    let count = 2 + number(words, 4);
    let mut builder = variables(rt, alloc, count, words);
    for var in 0..count {
        compare_with_higher(rt, alloc, &mut builder, var, words);
    }
    builder.finish().expect(rt, "memory")
}

/// Both made the same step, or none.
fn expect_same_step(rt: &impl Abort, made: &Option<Step>, plain: &Option<Step>) {
    match (made, plain) {
        (Some(made), Some(plain)) => {
            assert_eq!(rt; made.variable, plain.variable);
            assert_eq!(rt; made.nogood.pairs(), plain.nogood.pairs());
            assert_eq!(rt; made.reasons.items(), plain.reasons.items());
        }
        (None, None) => {}
        _ => panic!(rt; "a step"),
    }
}

/// Both made the same delivery.
fn expect_same(rt: &impl Abort, made: Delivery, plain: Delivered) {
    assert_eq!(rt; made.from, plain.from);
    assert_eq!(rt; made.to, plain.to);
    assert!(rt; made.cargo == plain.cargo);
    expect_same_step(rt, &made.step, &plain.step);
}

/// Both make one delivery, under this choice.
fn deliver(rt: &impl Abort, network: &mut Network<'_>, plain: &mut Plain<'_>, choice: u32)
    requires { network.old.begun ≡ true }
    ensures begun { network.new.begun ≡ true }
    ensures problem { network.new.problem ≡ network.old.problem }
{
    assert_eq!(rt; network.ready() as usize, plain.ready());
    let made = delivered(rt, network, choice);
    expect_same(rt, made, plain.deliver(rt, choice));
}

/// Both stand alike, and no message is in transit unless a step refuted the problem.
fn expect_same_end(rt: &impl Abort, vars: u32, network: &Network<'_>, plain: &Plain<'_>)
    requires { length network.now.problem.domains ≡ vars }
{
    assert_eq!(rt; network.state() == Standing::Refuted, plain.is_refuted);
    assert_eq!(rt; network.ready() as usize, plain.ready());
    assert_eq!(rt; network.steps(), plain.steps);
    for agent in 0..vars {
        assert_eq!(rt; network.value(agent), plain.value(rt, agent));
    }
}

/// Both make deliveries under drawn choices, as long as a message is in transit.
fn deliver_all(
    rt: &impl Abort,
    network: &mut Network<'_>,
    plain: &mut Plain<'_>,
    words: &mut Seeded,
)
    requires { network.old.begun ≡ true }
    ensures { network.new.problem ≡ network.old.problem }
{
    for _made in 0..10_000 {
        if network.state() != Standing::Open {
            break;
        }
        deliver(rt, network, plain, words.next().unwrap_or(0));
    }
    assert!(rt; network.state() != Standing::Open);
}

/// Whether a run that ended here was refuted.
fn is_refuted(plain: Plain<'_>) -> bool {
    plain.is_refuted
}

/// Runs the problem under drawn choices to its end, and tells whether it was refuted.
fn run(rt: &impl Abort, alloc: Global, problem: &Problem, words: &mut Seeded) -> bool {
    let mut network = started(rt, alloc, problem);
    let mut plain = Plain::started(rt, alloc, problem);
    deliver_all(rt, &mut network, &mut plain, words);
    expect_same_end(rt, problem.vars(), &network, &plain);
    end(network);
    is_refuted(plain)
}

/// Draws a problem and its choices from a seed, and tells whether the run was refuted.
fn drawn(rt: &impl Abort, alloc: Global, seed: u32) -> bool {
    let mut words = Seeded::new(u64::from(seed));
    let problem = problem(rt, alloc, &mut words);
    let refuted = run(rt, alloc, &problem, &mut words);
    let_go(problem);
    refuted
}

/// Whatever is delivered when, the network does what one with plain lists does. Of the runs some are
/// refuted and some are not.
#[test]
fn plain_lists_do_the_same(rt: HostRuntime) {
    let mut refuted: u32 = 0;
    for seed in 0..300 {
        if drawn(&rt, rt.alloc(), seed) {
            refuted = refuted.saturating_add(1);
        }
    }
    assert!(rt; 50 < refuted && refuted < 250);
}
