//! Bounds of small problems, and of some around 2^128.

ghost use Rattle.std.specs.Prelude.{◌≡◌, ◌<◌, ◌+◌, [], ◌∷◌, length};

use dcsp_problem::{
    ConstraintKind, Domain, IntList, Members, Problem, ProblemBuilder, Rule, Term, TermList,
};
use line_model::message_bound;
use std::alloc::Global;
use std::process::Abort;

/// That two variables differ.
fn apart(rt: &impl Abort, alloc: Global, left: u32, right: u32) -> Rule
    ensures { result ≡ Rule.Plain ConstraintKind.IntNe (Term.Var left ∷ Term.Var right ∷ []) [] [] (Members.Listed []) }
{
    let terms = vec![in alloc; Term::Var(left), Term::Var(right)];
    Rule::Plain {
        kind: ConstraintKind::IntNe,
        scalars: TermList::from_vec(terms.expect(rt, "memory")),
        first: TermList::new(alloc),
        second: TermList::new(alloc),
        members: Members::Listed(IntList::new(alloc)),
    }
}

/// Adds that two variables differ.
fn add_apart(rt: &impl Abort, alloc: Global, builder: &mut ProblemBuilder, left: u32, right: u32)
    requires left { left < length builder.old.domains }
    requires right { right < length builder.old.domains }
    ensures { builder.new.domains ≡ builder.old.domains }
{
    let rule = apart(rt, alloc, left, right);
    builder.add_rule(rule).expect(rt, "within the limits");
}

/// Adds a variable with so many values, and gives its number.
fn add_variable(rt: &impl Abort, alloc: Global, builder: &mut ProblemBuilder, size: i64) -> u32
    ensures number { result ≡ length builder.old.domains }
    ensures added { length builder.new.domains ≡ length builder.old.domains + 1 }
{
    let domain = Domain::range(alloc, 1, size).expect(rt, "a range");
    builder.add_var(domain).expect(rt, "within the limits")
}

/// A problem whose variables have so many values each, and in which the variables of each pair differ.
fn problem(rt: &impl Abort, alloc: Global, sizes: &[i64], pairs: &[(u32, u32)]) -> Problem {
    let mut builder = ProblemBuilder::new(alloc);
    let mut vars = 0;
    for size in sizes {
        vars = u64::from(add_variable(rt, alloc, &mut builder, *size)) + 1;
    }
    for pair in pairs {
        let (left, right) = *pair;
        assert!(rt; u64::from(left) < vars);
        assert!(rt; u64::from(right) < vars);
        add_apart(rt, alloc, &mut builder, left, right);
    }
    builder.finish().expect(rt, "memory")
}

/// The bound of the problem.
fn bound_of(problem: Problem) -> Option<u128> {
    message_bound(&problem)
}

/// The number of values of each variable, the pairs of variables that differ, and the bound.
type Row = (&'static [i64], &'static [(u32, u32)], u128);

const ROWS: [Row; 8] = [
    (&[], &[], 0),
    (&[0], &[], 0),
    (&[2, 2], &[(0, 1), (1, 0)], 4),
    (&[100, 100], &[(0, 1)], 200),
    (&[2, 1, 2], &[(0, 2), (1, 2)], 15),
    (&[2, 2, 1], &[(0, 2), (1, 2)], 21),
    (&[2, 1, 1], &[(0, 1), (1, 2)], 15),
    (&[2, 2, 2], &[(0, 1), (0, 2), (1, 2)], 20),
];

/// The problem has this bound.
fn expect_bound(
    rt: &impl Abort,
    alloc: Global,
    sizes: &[i64],
    pairs: &[(u32, u32)],
    bound: Option<u128>,
) {
    assert!(rt; bound_of(problem(rt, alloc, sizes, pairs)) == bound);
}

#[test]
fn tells_bounds(rt: HostRuntime) {
    for (sizes, pairs, bound) in &ROWS {
        expect_bound(&rt, rt.alloc(), sizes, pairs, Some(*bound));
    }
}

/// The pairs of different numbers below 127.
fn all_pairs(rt: &impl Abort, alloc: Global) -> Vec<(u32, u32)> {
    let mut pairs = Vec::new(alloc);
    for right in 0..127 {
        for left in 0..right {
            pairs.push((left, right)).expect(rt, "memory");
        }
    }
    pairs
}

#[test]
fn tells_bounds_beyond_128_bits(rt: HostRuntime) {
    let alloc = rt.alloc();
    expect_bound(&rt, alloc, &[2; 128], &[], None);
    let pairs = all_pairs(&rt, alloc);
    assert!(rt; pairs.len() > 256);
    let sizes = [1; 127];
    expect_bound(&rt, alloc, &sizes, &pairs[255..], Some(u128::MAX));
    expect_bound(&rt, alloc, &sizes, &pairs[256..], None);
}
