//! Problems and rules over two variables, and values that are let go.

ghost use Rattle.std.specs.Prelude.{◌≡◌, ◌<◌, ◌+◌, ◌∷◌, [], length, IsTrue};
ghost use Rattle.dcsp_rule.specs.Rules.{has_shape};

use abt_parts::Store;
use dcsp_problem::{
    ConstraintKind, Domain, IntList, Members, Problem, ProblemBuilder, Rule, Term, TermList,
};
use std::alloc::Global;
use std::process::Abort;

/// Lets a problem go. A value is let go in a function of its own, where nothing else is known: its proof is long
/// where much is.
pub fn let_go(_problem: Problem) {}

/// Lets a store go.
pub fn let_store_go(_store: Store) {}

/// A constraint between two variables.
fn between(rt: &impl Abort, alloc: Global, kind: ConstraintKind, first: u32, second: u32) -> Rule
    ensures { result ≡ Rule.Plain kind (Term.Var first ∷ Term.Var second ∷ []) [] [] (Members.Listed []) }
{
    let terms = vec![in alloc; Term::Var(first), Term::Var(second)];
    Rule::Plain {
        kind,
        scalars: TermList::from_vec(terms.expect(rt, "memory")),
        first: TermList::new(alloc),
        second: TermList::new(alloc),
        members: Members::Listed(IntList::new(alloc)),
    }
}

/// Adds a constraint between two variables.
pub fn add_between(
    rt: &impl Abort,
    alloc: Global,
    builder: &mut ProblemBuilder,
    kind: ConstraintKind,
    first: u32,
    second: u32,
)
    requires first { first < length builder.old.domains }
    requires second { second < length builder.old.domains }
    requires shape { IsTrue (has_shape (Rule.Plain kind (Term.Var first ∷ Term.Var second ∷ []) [] [] (Members.Listed []))) }
    ensures { builder.new.domains ≡ builder.old.domains }
{
    let rule = between(rt, alloc, kind, first, second);
    builder.add_rule(rule).expect(rt, "within the limits");
}

/// Adds a variable with the values from 0 to this one.
pub fn add_variable(rt: &impl Abort, alloc: Global, builder: &mut ProblemBuilder, greatest: i64)
    ensures { length builder.new.domains ≡ length builder.old.domains + 1 }
{
    let domain = Domain::range(alloc, 0, greatest).expect(rt, "a range");
    builder.add_var(domain).expect(rt, "within the limits");
}
