//! For each variable the places of the rules that name it.

ghost use Rattle.std.specs.Prelude.{◌≡◌, ◌≤◌, ◌<◌, ◌^◌, ◌∷◌, [], ◌++◌, ℕ, All, Contains, IfOk, OnOk, IsPermutation, length, map, slice_index_or};
ghost use Rattle.abt_reason.specs.Named.{naming, only_other, others_of, AreStarts, ListsScopes, RisesByVariable};

use dcsp_common::Memory;
use dcsp_problem::Problem;
use std::alloc::Global;
use std::marker::Model;

/// It is kept where variables begin if there are no more than so many for each naming.
const STARTS_BY_NAMING: usize = 4;

/// So few namings are gone over one by one.
const FEW_NAMINGS: usize = 8;

/// A variable of the scope of a rule.
#[derive(Clone, Copy)]
pub struct Naming {
    pub var: u32,
    /// The rule's place, counted from 0.
    pub place: u32,
}

/// Where the namings of a variable stand in a list.
#[derive(Clone, Copy)]
struct Part {
    start: usize,
    end: usize,
}

/// The variables of the scopes of some rules, in one list that rises by variable.
#[derive(Drop)]
pub struct NamedIn {
    namings: Vec<Naming>,
    /// Where each of the first variables begins in the list, or would; empty where many of them are not named.
    starts: Vec<usize>,
}

impl Model for NamedIn {
    ghost use Rattle.std.specs.Prelude.{List};
    ghost use Rattle.abt_reason.specs.declared.named.Naming.{Naming};
    ghost use Rattle.abt_reason.specs.Named.{AreStarts};

    ghost Value = { List Naming };

    ghost view = { λ named. named.namings.items };

    ghost invariant = { λ named. AreStarts named.namings.items named.starts.items };
}

impl NamedIn {
    /// For the rules with these numbers.
    pub fn new(alloc: Global, problem: &Problem, rules: &[u32]) -> Result<NamedIn, Memory>
        requires rules { All (λ rule. rule < length problem.now.rules) rules.now }
        requires few { length rules.now < 2 ^ 32 }
        ensures lists { IfOk result (λ named. ListsScopes problem.now rules.now named (length rules.now)) }
        ensures rising { IfOk result (λ named. RisesByVariable named) }
    {
        let namings = namings_of(alloc, problem, rules)?;
        let namings = by_variable(namings);
        let starts = starts_of(alloc, &namings)?;
        Ok(NamedIn { namings, starts })
    }

    /// The places of the rules that name the variable.
    pub fn of(&self, var: u32) -> &[Naming]
        requires { RisesByVariable self.now }
        ensures part { All (Contains self.now) result.now }
        ensures complete { (place : ℕ) → Contains self.now (naming place var) → Contains result.now (naming place var) }
    {
        let namings = self.namings.as_slice();
        let part = part_of(namings, &self.starts, var);
        &namings[part.start..part.end]
    }
}

/// For each of the rules the one variable that it names beside the agent's own; `None` where it names none, or more.
pub fn others_of(
    alloc: Global,
    problem: &Problem,
    rules: &[u32],
    agent: u32,
) -> Result<Vec<Option<u32>>, Memory>
    requires { All (λ rule. rule < length problem.now.rules) rules.now }
    ensures { IfOk result (λ others. others.items ≡ others_of problem.now agent rules.now) }
{
    let Ok(mut others) = Vec::with_capacity(alloc, rules.len()) else {
        return Err(Memory);
    };
    for rule in rules {
        let Ok(()) = others.push(only_other(problem.scope(*rule), agent)) else {
            return Err(Memory);
        };
    }
    Ok(others)
}

/// The one variable of a scope that stands before the agent's own.
fn only_other(scope: &[u32], agent: u32) -> Option<u32>
    ensures { result ≡ only_other agent scope.now }
{
    match scope {
        [other, own] if *own == agent => Some(*other),
        _ => None,
    }
}

/// The variables of the scopes of these rules, rule by rule.
fn namings_of(alloc: Global, problem: &Problem, rules: &[u32]) -> Result<Vec<Naming>, Memory>
    requires rules { All (λ rule. rule < length problem.now.rules) rules.now }
    requires few { length rules.now < 2 ^ 32 }
    ensures { IfOk result (λ namings. ListsScopes problem.now rules.now namings.items (length rules.now)) }
{
    let mut namings = Vec::new(alloc);
    for place in 0..rules.len() {
        add_scope(&mut namings, problem.scope(rules[place]), place as u32)?;
    }
    Ok(namings)
}

/// Adds the variables of the scope of the rule at this place.
fn add_scope(namings: &mut Vec<Naming>, scope: &[u32], place: u32) -> Result<(), Memory>
    ensures { OnOk result (namings.new.items ≡ namings.old.items ++ map (naming place) scope.now) }
{
    for var in scope {
        let Ok(()) = namings.push(Naming { var: *var, place }) else {
            return Err(Memory);
        };
    }
    Ok(())
}

/// The same in order of variables.
fn by_variable(mut namings: Vec<Naming>) -> Vec<Naming>
    ensures same { IsPermutation namings.items result.items }
    ensures rising { RisesByVariable result.items }
{
    namings.sort_unstable_by_key(|naming| naming.var);
    namings
}

/// Where each variable up to the last that is named begins, or would; of none where there are many for each naming.
fn starts_of(alloc: Global, namings: &[Naming]) -> Result<Vec<usize>, Memory>
    requires { RisesByVariable namings.now }
    ensures { IfOk result (λ starts. AreStarts namings.now starts.items) }
{
    let count = variables_with_start(namings);
    let Ok(mut starts) = Vec::with_capacity(alloc, count) else {
        return Err(Memory);
    };
    let mut start = 0;
    for var in 0..count {
        let Ok(()) = starts.push(start) else {
            return Err(Memory);
        };
        start = end_of(namings, var as u32, start);
    }
    Ok(starts)
}

/// Of how many variables it is kept where they begin.
fn variables_with_start(namings: &[Naming]) -> usize
    ensures { result ≤ 2 ^ 32 }
{
    let Some(last) = namings.last() else {
        return 0;
    };
    let count = last.var as usize + 1;
    if count / STARTS_BY_NAMING <= namings.len() {
        count
    } else {
        0
    }
}

/// Where the variable stands in the list, which is looked up if it is kept.
#[inline(always)]
fn part_of(namings: &[Naming], starts: &[usize], var: u32) -> Part
    requires rising { RisesByVariable namings.now }
    requires starts { AreStarts namings.now starts.now }
    ensures from { result.start ≤ result.end }
    ensures within { result.end ≤ length namings.now }
    ensures before { (k : ℕ) (d : Naming) → k < result.start → (slice_index_or namings.now k d).var < var }
    ensures after { (k : ℕ) (d : Naming) → result.end ≤ k → k < length namings.now → var < (slice_index_or namings.now k d).var }
{
    let var_at = var as usize;
    if var_at + 1 < starts.len() {
        return Part {
            start: starts[var_at],
            end: starts[var_at + 1],
        };
    }
    let start = if namings.len() <= FEW_NAMINGS {
        start_in_few(namings, var)
    } else {
        start_of(namings, var)
    };
    Part {
        start,
        end: end_of(namings, var, start),
    }
}

/// Where the variable begins in a short list, or would: each naming is looked at.
fn start_in_few(namings: &[Naming], var: u32) -> usize
    requires { RisesByVariable namings.now }
    ensures within { result ≤ length namings.now }
    ensures before { (k : ℕ) (d : Naming) → k < result → (slice_index_or namings.now k d).var < var }
    ensures after { (k : ℕ) (d : Naming) → result ≤ k → k < length namings.now → var ≤ (slice_index_or namings.now k d).var }
{
    for start in 0..namings.len() {
        if namings[start].var >= var {
            return start;
        }
    }
    namings.len()
}

/// Where the variable begins, or would.
fn start_of(namings: &[Naming], var: u32) -> usize
    requires { RisesByVariable namings.now }
    ensures within { result ≤ length namings.now }
    ensures before { (k : ℕ) (d : Naming) → k < result → (slice_index_or namings.now k d).var < var }
    ensures after { (k : ℕ) (d : Naming) → result ≤ k → k < length namings.now → var ≤ (slice_index_or namings.now k d).var }
{
    namings.partition_point(|naming| naming.var < var)
}

/// Where the variables after this one begin, or would, sought from where this one begins: few rules name a
/// variable.
fn end_of(namings: &[Naming], var: u32, start: usize) -> usize
    requires rising { RisesByVariable namings.now }
    requires start { start ≤ length namings.now }
    requires before { (k : ℕ) (d : Naming) → k < start → (slice_index_or namings.now k d).var ≤ var }
    ensures from { start ≤ result }
    ensures within { result ≤ length namings.now }
    ensures before { (k : ℕ) (d : Naming) → k < result → (slice_index_or namings.now k d).var ≤ var }
    ensures after { (k : ℕ) (d : Naming) → result ≤ k → k < length namings.now → var < (slice_index_or namings.now k d).var }
{
    for end in start..namings.len() {
        if namings[end].var > var {
            return end;
        }
    }
    namings.len()
}
