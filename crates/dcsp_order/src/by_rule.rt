//! Orders by a rule.

ghost use Rattle.std.specs.Prelude.{◌≡◌, ◌+◌, ◌*◌, ◌<◌, ◌≤◌, ◌^◌, ℕ, Bool, true, false, cond, not, ◌&&◌, ◌==◌, length, IfOk, slice_index, vec_len, Some, None};
ghost use Rattle.std.specs.List.{count_by};
ghost use Rattle.dcsp_common.specs.Limits.{most};
ghost use Rattle.dcsp_common.specs.declared.limits.Which.TheVariants.{Variables};
ghost use Rattle.dcsp_defs.specs.Words.{below};
ghost use Rattle.dcsp_rule.specs.Problems.{csp_of};
ghost use Rattle.dcsp_order.specs.ByRule.{degree, IsOrderBy, OneOrderByRule};
ghost use Rattle.dcsp_order.specs.Shared.{AreShared};
ghost use Rattle.dcsp_order.specs.Taken.{flag_at};
ghost use Rattle.dcsp_order.specs.Turns.{is_greater, weight_of, AreWeights, GainsLinks, IsNext};

use crate::order::Order;
use crate::shared::shared_scopes;
use dcsp_common::Memory;
use dcsp_problem::Problem;
use std::alloc::Global;

/// A rule by which variables are put in order. Two variables are neighbours where some rule of the problem has both in
/// its scope.
#[derive(Clone, Copy, Debug, PartialEq, Eq)]
pub enum OrderRule {
    /// More neighbours first, and then the order of the problem.
    Degree,
    /// Each time the one with most neighbours among those placed; of several the one that `Degree` takes first.
    Links,
    /// The order of the problem backwards.
    Reverse,
}

impl Order {
    /// The order of the problem's variables by the rule.
    pub fn by_rule(alloc: Global, problem: &Problem, rule: OrderRule) -> Result<Order, Memory>
        ensures { IfOk result (λ order. IsOrderBy rule (csp_of problem.now) order) }
    {
        problem.denotes_csp();
        let shared = shared_scopes(alloc, problem)?;
        let weights = weights_of(alloc, problem, rule, &shared)?;
        let numbers = placed_in_turn(alloc, problem, rule, &shared, &weights)?;
        Order::of_numbers(alloc, numbers)
    }
}

/// The weight of each variable.
fn weights_of(
    alloc: Global,
    problem: &Problem,
    rule: OrderRule,
    shared: &[bool],
) -> Result<Vec<u32>, Memory>
    requires { AreShared (csp_of problem.now) shared.now }
    ensures { IfOk result (λ weights. AreWeights rule (csp_of problem.now) weights.items) }
{
    problem.denotes_csp();
    let vars = problem.vars();
    let mut weights = Vec::new(alloc);
    for var in 0..vars {
        weights.push(weight_of(problem, rule, shared, var))?;
    }
    Ok(weights)
}

/// The weight of a variable.
fn weight_of(problem: &Problem, rule: OrderRule, shared: &[bool], var: u32) -> u32
    requires var { var < length problem.now.domains }
    requires shared { AreShared (csp_of problem.now) shared.now }
    ensures { result ≡ weight_of rule (csp_of problem.now) var }
{
    match rule {
        OrderRule::Degree | OrderRule::Links => neighbours_of(shared, var, problem.vars()),
        OrderRule::Reverse => var,
    }
}

/// How many of so many variables share a scope with this one, which is not counted.
fn neighbours_of(shared: &[bool], var: u32, vars: u32) -> u32
    requires var { var < vars }
    requires few { vars ≤ most Variables }
    requires as_many { length shared.now ≡ vars * vars }
    ensures { result ≡ count_by (λ k. not (var == k) && flag_at shared.now (var * vars + k)) (below vars) }
{
    let from = var as usize * vars as usize;
    let mut count = 0;
    for other in 0..vars {
        count += link(shared, var, other, from + other as usize);
    }
    count
}

/// One link, where the variables differ and the flag at this place is set, or none.
fn link(shared: &[bool], var: u32, other: u32, place: usize) -> u32
    requires { place < length shared.now }
    ensures { result ≡ cond (not (var == other) && flag_at shared.now place) 1 0 }
{
    if var == other {
        return 0;
    }
    if shared[place] { 1 } else { 0 }
}

/// The variables in the order in which the rule takes them.
fn placed_in_turn(
    alloc: Global,
    problem: &Problem,
    rule: OrderRule,
    shared: &[bool],
    weights: &[u32],
) -> Result<Vec<u32>, Memory>
    requires shared { AreShared (csp_of problem.now) shared.now }
    requires weights { AreWeights rule (csp_of problem.now) weights.now }
    ensures { IfOk result (λ numbers. IsOrderBy rule (csp_of problem.now) numbers.items) }
{
    problem.denotes_csp();
    let vars = problem.vars();
    let mut left = vec![in alloc; true; vars as usize]?;
    let mut linked = vec![in alloc; 0u32; vars as usize]?;
    let mut numbers = Vec::new(alloc);
    for _place in 0..vars {
        let Some(number) = next_of(&left, &linked, weights) else {
            unreachable!();
        };
        numbers.push(number)?;
        left[number as usize] = false;
        count_links(rule, &mut linked, shared, number);
    }
    Ok(numbers)
}

/// Of the variables that are left, the one that goes before all others.
fn next_of(left: &[bool], linked: &[u32], weights: &[u32]) -> Option<u32>
    requires few { length left.now ≤ most Variables }
    requires linked { length linked.now ≡ length left.now }
    requires weights { length weights.now ≡ length left.now }
    ensures { IsNext left.now linked.now weights.now (length left.now) result }
{
    let mut next = None;
    for var in 0..left.len() as u32 {
        next = next_with(left, linked, weights, var, next);
    }
    next
}

/// The same of one variable more, where this one is next of those before it.
fn next_with(
    left: &[bool],
    linked: &[u32],
    weights: &[u32],
    var: u32,
    next: Option<u32>,
) -> Option<u32>
    requires var { var < length left.now }
    requires linked { length linked.now ≡ length left.now }
    requires weights { length weights.now ≡ length left.now }
    requires next { IsNext left.now linked.now weights.now var next }
    ensures { IsNext left.now linked.now weights.now (var + 1) result }
{
    if !left[var as usize] {
        return next;
    }
    let Some(first) = next else {
        return Some(var);
    };
    if is_greater(linked, weights, var, first) {
        return Some(var);
    }
    next
}

/// Whether the variable has more links than the other, or as many and more weight.
fn is_greater(linked: &[u32], weights: &[u32], var: u32, other: u32) -> bool
    requires var { var < length linked.now }
    requires other { other < length linked.now }
    requires weights { length weights.now ≡ length linked.now }
    ensures { result ≡ is_greater linked.now weights.now var other }
{
    let (first, second) = (var as usize, other as usize);
    linked[second] < linked[first]
        || (linked[second] == linked[first] && weights[second] < weights[first])
}

/// Counts one link more for each neighbour of the variable, where the rule asks for links.
fn count_links(rule: OrderRule, linked: &mut Vec<u32>, shared: &[bool], number: u32)
    requires number { number < vec_len linked.old }
    requires few { vec_len linked.old ≤ most Variables }
    requires as_many { length shared.now ≡ vec_len linked.old * vec_len linked.old }
    requires small { (k : ℕ) → k < vec_len linked.old → slice_index linked.old.items k < most Variables }
    ensures { GainsLinks rule number shared.now linked.old.items linked.new.items }
{
    match rule {
        OrderRule::Links => add_links(linked, shared, number),
        OrderRule::Degree | OrderRule::Reverse => {}
    }
}

/// Counts one link more for each neighbour of the variable.
fn add_links(linked: &mut Vec<u32>, shared: &[bool], number: u32)
    requires number { number < vec_len linked.old }
    requires few { vec_len linked.old ≤ most Variables }
    requires as_many { length shared.now ≡ vec_len linked.old * vec_len linked.old }
    requires small { (k : ℕ) → k < vec_len linked.old → slice_index linked.old.items k < most Variables }
    ensures { GainsLinks OrderRule.Links number shared.now linked.old.items linked.new.items }
{
    let vars = linked.len();
    let from = number as usize * vars;
    for var in 0..vars {
        linked[var] += link(shared, number, var as u32, from + var);
    }
}

/// There is one order by a rule at most.
pub fn one_order_by_rule()
    ensures { OneOrderByRule }
{}
