//! The scope of a rule, and the rules that each variable owns.

ghost use Rattle.std.specs.Prelude.{◌≡◌, ◌≤◌, ◌<◌, ◌↔◌, ◌^◌, ◌++◌, ◌∷◌, ℕ, List, [], map, length, All, OnOk, IfOk, IfSome, vec_len};
ghost use Rattle.std.specs.List.{filter_map};
ghost use Rattle.std.specs.Option.{option_to_list};
ghost use Rattle.dcsp_defs.specs.Words.{below, In, IsRising};
ghost use Rattle.dcsp_rule.specs.Lent.{lent_rule};
ghost use Rattle.dcsp_rule.specs.Rules.{IsRuleOf, scope_of, variable_of, variables_of};
ghost use Rattle.dcsp_problem.specs.Owners.{owned_among, with_owned};

use crate::table::NumberTable;
use dcsp_common::Memory;
use dcsp_rule::{NumberList, RuleRef, Term};
use std::alloc::{AllocError, Global};

/// Puts the variables among the rule's terms into the list, rising, in place of what it holds.
pub fn put_scope(scope: &mut Vec<u32>, rule: RuleRef<'_>) -> Result<(), Memory>
    ensures { OnOk result ((variables : ℕ) → IsRuleOf variables (lent_rule rule.entry) → scope.new.items ≡ scope_of variables (lent_rule rule.entry)) }
{
    scope.clear();
    push_rule(scope, rule)?;
    make_set(scope);
    Ok(())
}

/// Leaves the numbers rising and without repeats. Many lists are of two numbers, which are not sorted by a call.
#[inline(always)]
pub fn make_set(numbers: &mut Vec<u32>)
    ensures rising { IsRising numbers.new.items }
    ensures same { (number : ℕ) → In number numbers.new.items ↔ In number numbers.old.items }
{
    if numbers.len() != 2 {
        numbers.sort_unstable();
        numbers.dedup();
        return;
    }
    let (first, second) = (numbers[0], numbers[1]);
    if first == second {
        numbers.truncate(1);
    } else if second < first {
        numbers[0] = second;
        numbers[1] = first;
    }
}

/// Puts the variables among the rule's terms into an empty list, as they stand there.
fn push_rule(variables: &mut Vec<u32>, rule: RuleRef<'_>) -> Result<(), Memory>
    requires { variables.old.items ≡ [] }
    ensures { OnOk result (variables.new.items ≡ variables_of (lent_rule rule.entry)) }
{
    match rule {
        RuleRef::Plain {
            scalars,
            first,
            second,
            ..
        } => push_three(variables, scalars, first, second),
        RuleRef::Sum {
            terms,
            total,
            truth,
            ..
        } => push_sum(variables, terms, total, truth),
    }
}

/// Puts the variables among the terms of three lists into an empty one, one list after another.
fn push_three(
    variables: &mut Vec<u32>,
    scalars: &[Term],
    first: &[Term],
    second: &[Term],
) -> Result<(), Memory>
    requires { variables.old.items ≡ [] }
    ensures { OnOk result (variables.new.items ≡ filter_map variable_of (scalars.now ++ first.now ++ second.now)) }
{
    push_variables(variables, scalars)?;
    push_variables(variables, first)?;
    push_variables(variables, second)?;
    Ok(())
}

/// Puts the variables among the terms of a sum, its total, and the term of its truth into an empty list.
fn push_sum(
    variables: &mut Vec<u32>,
    terms: &[Term],
    total: Term,
    truth: Option<Term>,
) -> Result<(), Memory>
    requires { variables.old.items ≡ [] }
    ensures { OnOk result (variables.new.items ≡ filter_map variable_of (terms.now ++ total ∷ option_to_list truth)) }
{
    push_variables(variables, terms)?;
    push_variable(variables, total)?;
    match truth {
        None => Ok(()),
        Some(truth) => {
            push_variable(variables, truth)?;
            Ok(())
        }
    }
}

/// Adds the variables among the terms.
fn push_variables(variables: &mut Vec<u32>, terms: &[Term]) -> Result<(), AllocError>
    ensures { OnOk result (variables.new.items ≡ variables.old.items ++ filter_map variable_of terms.now) }
{
    for term in terms {
        push_variable(variables, *term)?;
    }
    Ok(())
}

/// Adds the variable that the term is, if it is one.
fn push_variable(variables: &mut Vec<u32>, term: Term) -> Result<(), AllocError>
    ensures { OnOk result (variables.new.items ≡ variables.old.items ++ option_to_list (variable_of term)) }
{
    match term {
        Term::Const(_) => Ok(()),
        Term::Var(variable) => {
            variables.push(variable)?;
            Ok(())
        }
    }
}

/// For each of so many variables the rules that it owns, where these are the rules' scopes.
pub fn owned_lists(
    alloc: Global,
    scopes: &NumberTable,
    variables: usize,
) -> Result<Vec<NumberList>, Memory>
    requires few { length scopes.now ≤ 2 ^ 32 }
    requires inside { All (λ scope. All (λ v. v < variables) scope) scopes.now }
    ensures { IfOk result (λ owned. owned.items ≡ map (owned_among scopes.now) (below variables)) }
{
    let mut owned = empty_lists(alloc, variables, room_for(scopes.len(), variables))?;
    for rule in 0..scopes.len() {
        let owner = scopes.list(rule).last().copied();
        push_owned(&mut owned, owner, rule as u32)?;
    }
    Ok(owned)
}

/// The room that each of some lists gets for numbers, so that few of them grow: twice what all have on average.
pub fn room_for(numbers: usize, lists: usize) -> usize {
    if lists == 0 {
        0
    } else {
        (numbers / lists).saturating_mul(2)
    }
}

/// So many empty lists, each with room for so many numbers.
pub fn empty_lists(alloc: Global, count: usize, room: usize) -> Result<Vec<NumberList>, AllocError>
    ensures { IfOk result (λ lists. lists.items ≡ map (owned_among []) (below count)) }
{
    let mut lists = Vec::with_capacity(alloc, count)?;
    for _place in 0..count {
        lists.push(NumberList::from_vec(Vec::with_capacity(alloc, room)?))?;
    }
    Ok(lists)
}

/// Adds the rule to those of its owner, if it has one.
fn push_owned(owned: &mut Vec<NumberList>, owner: Option<u32>, rule: u32) -> Result<(), Memory>
    requires { IfSome owner (λ v. v < vec_len owned.old) }
    ensures { OnOk result (owned.new.items ≡ with_owned owner rule owned.old.items) }
{
    let Some(owner) = owner else {
        return Ok(());
    };
    match owned[owner as usize].push(rule) {
        Ok(()) => Ok(()),
        Err(_) => Err(Memory),
    }
}
