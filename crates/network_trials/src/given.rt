//! Small problems.

ghost use Rattle.std.specs.Prelude.{◌≡◌, ◌<◌, ◌+◌, ◌∷◌, [], length, IsTrue};
ghost use Rattle.dcsp_rule.specs.Rules.{has_shape};

use dcsp_problem::{
    ConstraintKind, Domain, IntList, Members, Problem, ProblemBuilder, Rule, Term, TermList,
};
use std::alloc::Global;
use std::process::Abort;

/// Lets a problem go. A value is let go in a function of its own, where nothing else is known: its proof is long
/// where much is.
pub fn let_go(_problem: Problem) {}

/// A comparison of two variables.
fn comparison(rt: &impl Abort, alloc: Global, kind: ConstraintKind, first: u32, second: u32) -> Rule
    ensures { result ≡ Rule.Plain kind (Term.Var first ∷ Term.Var second ∷ []) [] [] (Members.Listed []) }
{
    let terms = vec![in alloc; Term::Var(first), Term::Var(second)];
    Rule::Plain {
        kind,
        scalars: TermList::from_vec(terms.expect(rt, "memory")),
        first: TermList::new(alloc),
        second: TermList::new(alloc),
        members: Members::Listed(IntList::new(alloc)),
    }
}

/// Adds the comparison of two variables.
pub fn add_comparison(
    rt: &impl Abort,
    alloc: Global,
    builder: &mut ProblemBuilder,
    kind: ConstraintKind,
    first: u32,
    second: u32,
)
    requires first { first < length builder.old.domains }
    requires second { second < length builder.old.domains }
    requires shape { IsTrue (has_shape (Rule.Plain kind (Term.Var first ∷ Term.Var second ∷ []) [] [] (Members.Listed []))) }
    ensures { builder.new.domains ≡ builder.old.domains }
{
    let rule = comparison(rt, alloc, kind, first, second);
    builder.add_rule(rule).expect(rt, "within the limits");
}

/// Adds a variable with these values.
pub fn add_variable(
    rt: &impl Abort,
    alloc: Global,
    builder: &mut ProblemBuilder,
    least: i64,
    greatest: i64,
)
    ensures { length builder.new.domains ≡ length builder.old.domains + 1 }
{
    let domain = Domain::range(alloc, least, greatest).expect(rt, "a range");
    builder.add_var(domain).expect(rt, "within the limits");
}

/// Two variables that are equal and differ.
pub fn torn(rt: &impl Abort, alloc: Global) -> Problem
    ensures { length result.domains ≡ 2 }
{
    let mut builder = ProblemBuilder::new(alloc);
    add_variable(rt, alloc, &mut builder, 0, 1);
    add_variable(rt, alloc, &mut builder, 0, 1);
    add_comparison(rt, alloc, &mut builder, ConstraintKind::IntNe, 0, 1);
    add_comparison(rt, alloc, &mut builder, ConstraintKind::IntEq, 0, 1);
    builder.finish().expect(rt, "memory")
}

/// Three variables, with these least and greatest values.
fn three(rt: &impl Abort, alloc: Global, least: [i64; 3], greatest: [i64; 3]) -> ProblemBuilder
    ensures { length result.domains ≡ 3 }
{
    let mut builder = ProblemBuilder::new(alloc);
    add_variable(rt, alloc, &mut builder, least[0], greatest[0]);
    add_variable(rt, alloc, &mut builder, least[1], greatest[1]);
    add_variable(rt, alloc, &mut builder, least[2], greatest[2]);
    builder
}

/// Three variables, with these least and greatest values, of which those of each pair differ.
pub fn apart(
    rt: &impl Abort,
    alloc: Global,
    least: [i64; 3],
    greatest: [i64; 3],
    pairs: &[(u32, u32)],
) -> Problem
    ensures { length result.domains ≡ 3 }
{
    let mut builder = three(rt, alloc, least, greatest);
    for pair in pairs {
        let (first, second) = *pair;
        assert!(rt; first < 3);
        assert!(rt; second < 3);
        add_comparison(
            rt,
            alloc,
            &mut builder,
            ConstraintKind::IntNe,
            first,
            second,
        );
    }
    builder.finish().expect(rt, "memory")
}

/// The third variable differs from both others.
pub const THIRD: &[(u32, u32)] = &[(0, 2), (1, 2)];
