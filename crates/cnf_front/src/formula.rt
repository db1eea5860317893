//! A problem's rules as clauses.
ghost use Rattle.std.specs.Prelude.{◌≡◌, ℕ, ℤ, ◌+◌, ◌≤◌, ◌<◌, ◌^◌, List, [], ◌∷◌, ◌++◌, map, length, OnOk, OnErr, All, neg_ℤ};
ghost use Rattle.dcsp_common.specs.Limits.{most};
ghost use Rattle.dcsp_common.specs.declared.limits.Which.TheVariants.{Variables};
ghost use Rattle.rup_check.specs.Literals.{IsLiteral};
ghost use Rattle.cnf_front.specs.Clauses.{literal_of, negation_of, rule_clause, IsVariable, IsClauseRule, AddsSome};
ghost use Rattle.dcsp_rule.specs.Rules.{IsTermOf, IsRuleOf};
ghost use Rattle.dcsp_rule.specs.Lent.{lent_rule};

use dcsp_common::Memory;
use dcsp_problem::{Problem, RuleRef, Term};
use rup_check::ClauseList;
use std::alloc::Global;

/// Appends each rule's clause: its positive literals in their order, and then its negated ones. After `Memory` the
/// first of them were appended.
///
/// Each rule is `bool_clause` over variables, and the clauses and the rules together are at most 2^32.
pub fn formula_of(alloc: Global, problem: &Problem, into: &mut ClauseList) -> Result<(), Memory>
    requires rules { All IsClauseRule problem.now.rules }
    requires room { length into.old + length problem.now.rules ≤ 2 ^ 32 }
    ensures ok { OnOk result (into.new ≡ into.old ++ map rule_clause problem.now.rules) }
    ensures err { OnErr result (AddsSome (map rule_clause problem.now.rules) into.old into.new) }
{
    let variables = problem.vars();
    let mut clause = Vec::new(alloc);
    for number in 0..problem.rules() {
        clause.clear();
        read_rule(problem.rule(number), variables, &mut clause)?;
        into.push(&clause)?;
    }
    Ok(())
}

/// The rule's clause, put into an empty list.
fn read_rule(rule: RuleRef<'_>, variables: u32, clause: &mut Vec<i32>) -> Result<(), Memory>
    requires form { IsClauseRule (lent_rule rule) }
    requires known { IsRuleOf variables (lent_rule rule) }
    requires few { variables ≤ most Variables }
    requires empty { clause.old.items ≡ [] }
    ensures clause { OnOk result (clause.new.items ≡ rule_clause (lent_rule rule.entry)) }
    ensures literals { OnOk result (All IsLiteral clause.new.items) }
{
    match rule {
        RuleRef::Plain { first, second, .. } => {
            add_variables(clause, first, variables)?;
            add_negations(clause, second, variables)
        }
        RuleRef::Sum { .. } => Ok(()),
    }
}

/// Appends the literals that the terms are.
fn add_variables(clause: &mut Vec<i32>, terms: &[Term], variables: u32) -> Result<(), Memory>
    requires known { All (IsTermOf variables) terms.now }
    requires few { variables ≤ most Variables }
    ensures { OnOk result (clause.new.items ≡ clause.old.items ++ map literal_of terms.now) }
{
    for term in terms {
        let variable = number_of(*term, variables);
        add_literal(clause, variable)?;
    }
    Ok(())
}

/// Appends the negations of the literals that the terms are.
fn add_negations(clause: &mut Vec<i32>, terms: &[Term], variables: u32) -> Result<(), Memory>
    requires known { All (IsTermOf variables) terms.now }
    requires few { variables ≤ most Variables }
    ensures { OnOk result (clause.new.items ≡ clause.old.items ++ map negation_of terms.now) }
{
    for term in terms {
        let variable = number_of(*term, variables);
        add_literal(clause, -variable)?;
    }
    Ok(())
}

/// The number of a variable, counted from 1; 0 for a constant.
fn number_of(term: Term, variables: u32) -> i32
    requires known { IsTermOf variables term }
    requires few { variables ≤ most Variables }
    ensures number { result ≡ literal_of term }
    ensures negation { neg_ℤ result ≡ negation_of term }
{
    let _variables = variables;
    match term {
        Term::Var(variable) => variable as i32 + 1,
        Term::Const(_) => 0,
    }
}

fn add_literal(clause: &mut Vec<i32>, literal: i32) -> Result<(), Memory>
    ensures { OnOk result (clause.new.items ≡ clause.old.items ++ literal ∷ []) }
{
    clause.push(literal)?;
    Ok(())
}
