//! Searches, told round by round.

ghost use Rattle.std.specs.Prelude.{◌≡◌, ℕ, ℤ, pos, [], ◌∷◌};
ghost use Rattle.dcsp_rule.specs.Rules.{IsAimOf};

use crate::problems::let_go;
use abt_optimum::{Best, BestEnd, End, IntList, Search};
use dcsp_problem::{Aim, Domain, Problem, ProblemBuilder, Term};
use std::alloc::Global;
use std::process::Abort;

/// One variable, from 1 to 2, of which this is wanted.
fn problem(rt: &impl Abort, alloc: Global, aim: Aim) -> Problem
    requires { IsAimOf 1 aim }
    ensures { result ≡ record { domains = (pos 1 ∷ pos 2 ∷ []) ∷ []; rules = []; outputs = []; aim = aim } }
{
    let mut builder = ProblemBuilder::new(alloc);
    let domain = Domain::range(alloc, 1, 2).expect(rt, "a range");
    builder.add_var(domain).expect(rt, "within the limits");
    builder.set_aim(aim);
    builder.finish().expect(rt, "memory")
}

/// A round in which the variable had this value.
fn solved(rt: &impl Abort, alloc: Global, value: i64) -> End<IntList>
    ensures { result ≡ End.Solved (value ∷ []) }
{
    let values = vec![in alloc; value].expect(rt, "memory");
    End::Solved(IntList::from_vec(values))
}

/// The value of the variable, if these are the best values.
fn optimal_value(best: &Best) -> Option<i64> {
    match &best.end {
        BestEnd::Optimal(values) => values.items().first().copied(),
        BestEnd::NoSolution | BestEnd::Open(_) => None,
    }
}

/// After so many rounds this is the best value.
fn expect_best(rt: &impl Abort, best: Best, rounds: u64, value: i64) {
    assert_eq!(rt; best.rounds, rounds);
    assert!(rt; optimal_value(&best) == Some(value));
}

#[test]
fn finds_the_least(rt: HostRuntime) {
    let alloc = rt.alloc();
    let problem = problem(&rt, alloc, Aim::Least(Term::Var(0)));
    let mut search = Search::new(alloc, &problem, false).expect(&rt, "memory");
    assert!(rt; search.better().is_none());
    search.ended(solved(&rt, alloc, 2));
    assert!(rt; search.better() == Some(2));
    search.ended(solved(&rt, alloc, 1));
    assert!(rt; search.better() == Some(1));
    search.ended(End::Refuted);
    assert!(rt; search.done());
    expect_best(&rt, search.outcome(), 3, 1);
    let_go(problem);
}

#[test]
fn ends_at_a_constant(rt: HostRuntime) {
    let alloc = rt.alloc();
    let problem = problem(&rt, alloc, Aim::Greatest(Term::Const(7)));
    let mut search = Search::new(alloc, &problem, false).expect(&rt, "memory");
    search.ended(solved(&rt, alloc, 2));
    assert!(rt; search.done());
    expect_best(&rt, search.outcome(), 1, 2);
    let_go(problem);
}

/// The search ended without a value, and may have left a better one.
fn expect_open(rt: &impl Abort, best: Best) {
    assert!(rt; matches!(&best.end, BestEnd::Open(None)));
}

#[test]
fn ends_where_a_round_is_capped(rt: HostRuntime) {
    let alloc = rt.alloc();
    let problem = problem(&rt, alloc, Aim::Greatest(Term::Var(0)));
    let mut search = Search::new(alloc, &problem, false).expect(&rt, "memory");
    assert!(rt; !search.done());
    search.ended(End::Capped);
    assert!(rt; search.done());
    expect_open(&rt, search.outcome());
    let_go(problem);
}
