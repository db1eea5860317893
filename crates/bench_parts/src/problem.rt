//! The problem of the agent that is driven.

ghost use Rattle.std.specs.Prelude.{◌≡◌, ◌<◌, ◌∷◌, [], IfSome, OnSome, length};

use dcsp_problem::{
    ConstraintKind, Domain, IntList, Members, Problem, ProblemBuilder, Rule, Term, TermList,
};
use std::alloc::Global;

/// The agent that is driven. It has as many higher agents.
pub const AGENT: u32 = 50;

/// The agent, the higher ones, and a lower one that nogoods come from.
pub const VARIABLES: u32 = 52;

/// The values of each variable are the numbers below this one.
pub const VALUES: u32 = 1000;

/// Two variables that differ.
fn differ(alloc: Global, first: u32, second: u32) -> Option<Rule>
    ensures { IfSome result (λ rule. rule ≡ Rule.Plain ConstraintKind.IntNe (Term.Var first ∷ Term.Var second ∷ []) [] [] (Members.Listed [])) }
{
    let terms = vec![in alloc; Term::Var(first), Term::Var(second)].ok()?;
    Some(Rule::Plain {
        kind: ConstraintKind::IntNe,
        scalars: TermList::from_vec(terms),
        first: TermList::new(alloc),
        second: TermList::new(alloc),
        members: Members::Listed(IntList::new(alloc)),
    })
}

/// Adds the variables.
fn add_variables(alloc: Global, builder: &mut ProblemBuilder) -> Option<()>
    requires { builder.old.domains ≡ [] }
    ensures { OnSome result (length builder.new.domains ≡ VARIABLES) }
{
    for _variable in 0..VARIABLES {
        let domain = Domain::range(alloc, 0, i64::from(VALUES) - 1).ok()?;
        builder.add_var(domain).ok()?;
    }
    Some(())
}

/// Adds a rule between two variables.
fn add_rule(alloc: Global, builder: &mut ProblemBuilder, first: u32, second: u32) -> Option<()>
    requires variables { length builder.old.domains ≡ VARIABLES }
    requires first { first < VARIABLES }
    requires second { second < VARIABLES }
    ensures { OnSome result (length builder.new.domains ≡ VARIABLES) }
{
    let rule = differ(alloc, first, second)?;
    builder.add_rule(rule).ok()?;
    Some(())
}

/// Adds that the agent's variable differs from each other one.
fn add_rules(alloc: Global, builder: &mut ProblemBuilder) -> Option<()>
    requires { length builder.old.domains ≡ VARIABLES }
    ensures { OnSome result (length builder.new.domains ≡ VARIABLES) }
{
    for higher in 0..AGENT {
        add_rule(alloc, builder, higher, AGENT)?;
    }
    add_rule(alloc, builder, AGENT, AGENT + 1)
}

/// Adds the variables and the rules.
fn add_all(alloc: Global, builder: &mut ProblemBuilder) -> Option<()>
    requires { builder.old.domains ≡ [] }
    ensures { OnSome result (length builder.new.domains ≡ VARIABLES) }
{
    add_variables(alloc, builder)?;
    add_rules(alloc, builder)
}

/// The variables, of which the agent's differs from each other one.
pub fn built(alloc: Global) -> Option<Problem>
    ensures { IfSome result (λ problem. length problem.domains ≡ VARIABLES) }
{
    let mut builder = ProblemBuilder::new(alloc);
    add_all(alloc, &mut builder)?;
    builder.finish().ok()
}

/// Lets the problem go. It is let go in a function of its own, where nothing else is known: its proof is long
/// where much is.
pub fn let_go(_problem: Problem) {}
