//! The smallest problem, and derivations for it.

use crate::given::{derivation_of, let_go, let_steps_go, smallest};
use dcsp_problem::Problem;
use ngd_check::{Checker, Finding, check};
use ngd_log::{Derivation, Lent, LentStep, Step};
use std::alloc::Global;
use std::process::Abort;

/// What the check of the derivation finds.
fn found(problem: &Problem, derivation: &Derivation) -> Finding {
    check(problem, derivation)
}

/// The check of these steps finds this.
fn expect_finding(
    rt: &impl Abort,
    alloc: Global,
    problem: &Problem,
    steps: &str,
    finding: Finding,
) {
    let derivation = derivation_of(rt, alloc, steps);
    assert_eq!(rt; found(problem, &derivation), finding, "{steps}");
    let_steps_go(derivation);
}

const FINDINGS: [(&str, Finding); 8] = [
    (
        "1 v2 [v1=0] <- c1 c2\n2 v2 [v1=1] <- c2 c1\n3 v1 [] <- n1 n2\n",
        Finding::Verified,
    ),
    (
        "1 v2 [v1=0] <- c1 c2\n2 v2 [v1=1] <- c2 c1\n",
        Finding::NotEmpty,
    ),
    ("", Finding::NotEmpty),
    (
        "1 v2 [v1=0] <- c1\n2 v2 [v1=1] <- c2 c1\n3 v1 [] <- n1 n2\n",
        Finding::BadStep { step: 1 },
    ),
    (
        "1 v2 [v1=0] <- c1 c2\n2 v2 [v1=0] <- c2 c1\n3 v1 [] <- n1 n2\n",
        Finding::BadStep { step: 2 },
    ),
    (
        "1 v2 [v1=0] <- c1 c2\n2 v2 [v1=1] <- c2 c1\n3 v1 [] <- n1\n",
        Finding::BadStep { step: 3 },
    ),
    ("1 v1 [] <- n1 n1\n", Finding::BadStep { step: 1 }),
    ("1 - [] <- c1\n", Finding::BadStep { step: 1 }),
];

#[test]
fn finds(rt: HostRuntime) {
    let problem = smallest(&rt, rt.alloc());
    for (steps, finding) in &FINDINGS {
        expect_finding(&rt, rt.alloc(), &problem, steps, *finding);
    }
    let_go(problem);
}

/// What comes next in a list of entries.
#[derive(Clone, Copy, Debug)]
enum Next {
    /// The step at this place.
    Take(usize),
    Delete(u64),
}

use Next::{Delete, Take};

/// The checker takes what comes next.
fn take(rt: &impl Abort, checker: &mut Checker<'_>, steps: &[Step], next: Next) {
    match next {
        Take(place) => {
            let step = steps.get(place).expect(rt, "a step");
            assert!(rt; checker.take(&Lent::Step(LentStep::of(step))).is_ok());
        }
        Delete(number) => assert!(rt; checker.take(&Lent::Delete(&[number])).is_ok()),
    }
}

/// What the checker finds.
fn ended(checker: Checker<'_>) -> Finding {
    checker.finding()
}

/// A checker that takes these entries finds this.
fn expect_of_entries(
    rt: &impl Abort,
    alloc: Global,
    problem: &Problem,
    steps: &[Step],
    list: &[Next],
    finding: Finding,
) {
    let mut checker = Checker::new(alloc, problem, false);
    for next in list {
        take(rt, &mut checker, steps, *next);
    }
    assert_eq!(rt; ended(checker), finding, "{list:?}");
}

const STEPS: &str = "1 v2 [v1=0] <- c1 c2
2 v2 [v1=1] <- c2 c1
3 v1 [] <- n1 n2
4 v1 [] <- n2 n3
";

const LISTS: [(&[Next], Finding); 9] = [
    (&[Take(0), Take(1), Take(2)], Finding::Verified),
    (
        &[Take(0), Take(0), Delete(1), Take(1), Take(3)],
        Finding::Verified,
    ),
    (&[Take(0), Take(1), Take(2), Delete(3)], Finding::Verified),
    (&[], Finding::NotEmpty),
    (&[Take(0), Take(1), Delete(2)], Finding::NotEmpty),
    (
        &[Take(0), Take(1), Delete(1), Take(2), Delete(9)],
        Finding::BadStep { step: 3 },
    ),
    (
        &[Take(0), Delete(1), Delete(1), Take(2)],
        Finding::BadDeletion { after: 1 },
    ),
    (
        &[Take(0), Take(1), Delete(3), Take(2)],
        Finding::BadDeletion { after: 2 },
    ),
    (&[Delete(1), Take(0)], Finding::BadDeletion { after: 0 }),
];

#[test]
fn finds_of_entries(rt: HostRuntime) {
    let problem = smallest(&rt, rt.alloc());
    let derivation = derivation_of(&rt, rt.alloc(), STEPS);
    for (list, finding) in &LISTS {
        expect_of_entries(
            &rt,
            rt.alloc(),
            &problem,
            derivation.steps(),
            list,
            *finding,
        );
    }
    let_steps_go(derivation);
    let_go(problem);
}
