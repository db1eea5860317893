//! The cores of some refutations.

use crate::given::{add_between, add_variable, derivation_of, let_go, let_steps_go, smallest};
use dcsp_problem::{ConstraintKind, Problem, ProblemBuilder};
use ngd_check::{Checker, Finding, KeptSteps, check};
use ngd_log::{Derivation, Lent, LentStep, Step};
use ngd_rewrite::{Core, Trimmed, core_of};
use std::alloc::Global;
use std::process::Abort;

/// Three variables, of which the first alone has the value 1, and each differs from the next.
fn chain(rt: &impl Abort, alloc: Global) -> Problem {
    let mut builder = ProblemBuilder::new(alloc);
    add_variable(rt, alloc, &mut builder, 0, 1);
    add_variable(rt, alloc, &mut builder, 0, 0);
    add_variable(rt, alloc, &mut builder, 0, 0);
    add_between(rt, alloc, &mut builder, ConstraintKind::IntNe, 0, 1);
    add_between(rt, alloc, &mut builder, ConstraintKind::IntNe, 1, 2);
    builder.finish().expect(rt, "memory")
}

/// A variable without values.
fn empty(rt: &impl Abort, alloc: Global) -> Problem {
    let mut builder = ProblemBuilder::new(alloc);
    add_variable(rt, alloc, &mut builder, 5, 3);
    builder.finish().expect(rt, "memory")
}

fn is_same(step: &Step, other: &Step) -> bool {
    step.variable == other.variable
        && step.nogood.pairs() == other.nogood.pairs()
        && step.reasons.items() == other.reasons.items()
}

/// Whether the trimmed steps are those of the derivation.
fn are_same(rt: &impl Abort, steps: &Trimmed<'_, '_>, others: &Derivation) -> bool {
    for (place, other) in others.steps().iter().enumerate() {
        if place >= steps.len() {
            return false;
        }
        let step = steps.step(place).expect(rt, "memory");
        if !is_same(&step, other) {
            return false;
        }
    }
    steps.len() as u64 == others.len()
}

/// The steps of the derivation, as a check keeps them.
fn kept<'p>(
    rt: &impl Abort,
    alloc: Global,
    problem: &'p Problem,
    derivation: Derivation,
) -> KeptSteps<'p> {
    let mut checker = Checker::new(alloc, problem, true);
    for step in derivation.steps() {
        checker
            .take(&Lent::Step(LentStep::of(step)))
            .expect(rt, "memory");
    }
    checker.into_steps(alloc)
}

/// The core has these rules and these steps.
fn expect_parts(rt: &impl Abort, core: Core<'_, '_>, rules: &[u32], steps: Derivation) {
    assert_eq!(rt; core.rules.items(), rules);
    assert!(rt; are_same(rt, &core.steps, &steps));
}

/// The core of the steps has these rules and these steps.
fn expect_core(
    rt: &impl Abort,
    alloc: Global,
    problem: &Problem,
    steps: &str,
    rules: &[u32],
    trimmed: &str,
) {
    let kept = kept(rt, alloc, problem, derivation_of(rt, alloc, steps));
    let copy = kept.derivation(alloc).expect(rt, "memory");
    let finding = check(problem, &copy);
    match finding {
        Finding::Verified => {
            let core = core_of(alloc, problem, &kept).expect(rt, "memory");
            expect_parts(rt, core, rules, derivation_of(rt, alloc, trimmed));
        }
        finding => panic!(rt; "{finding:?}"),
    }
    let_steps_go(copy);
}

const TWO: &str = "1 v2 [v1=0] <- c1 c2\n2 v2 [v1=1] <- c2 c1\n3 v1 [] <- n1 n2\n";

#[test]
fn trims(rt: HostRuntime) {
    let problem = smallest(&rt, rt.alloc());
    expect_core(&rt, rt.alloc(), &problem, TWO, &[0, 1], TWO);
    let steps =
        "1 v1 [v2=0] <- c1 c2\n2 v2 [v1=0] <- c1 c2\n3 v2 [v1=0] <- c1 c2\n4 v2 [v1=1] <- c2 c1\n5 v1 [] <- n3 n4\n";
    expect_core(&rt, rt.alloc(), &problem, steps, &[0, 1], TWO);
    let_go(problem);
}

#[test]
fn trims_a_rule(rt: HostRuntime) {
    let problem = chain(&rt, rt.alloc());
    let steps = "1 v2 [v1=0] <- c1\n2 v3 [v2=0] <- c2\n3 v2 [] <- n2\n";
    let trimmed = "1 v3 [v2=0] <- c2\n2 v2 [] <- n1\n";
    expect_core(&rt, rt.alloc(), &problem, steps, &[1], trimmed);
    let_go(problem);
}

#[test]
fn keeps_a_step_without_reasons(rt: HostRuntime) {
    let problem = empty(&rt, rt.alloc());
    let steps = "1 v1 [] <-\n";
    expect_core(&rt, rt.alloc(), &problem, steps, &[], steps);
    let_go(problem);
}
