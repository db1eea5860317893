//! Rows of marks: which agents, counted from 0, are marked.

ghost use Rattle.std.specs.Prelude.{◌≡◌, ◌<◌, ◌&&◌, ◌||◌, ◌==◌, ℕ, All, IfOk, OnOk, false, length, nat_lt, true};
ghost use Rattle.abt_defs.specs.Agents.{is_among};
ghost use Rattle.abt_defs.specs.Steps.{is_named};
ghost use Rattle.abt_marks.specs.Marks.{has_mark, names_any};

use dcsp_common::Memory;
use dcsp_defs::Pair;
use dcsp_problem::Problem;
use dcsp_row::{Row, Span};
use std::alloc::Global;

/// Marks the variable, if there is a place for it.
#[inline(always)]
pub fn mark(marks: &mut Row, var: u32)
    ensures size { length marks.new ≡ length marks.old }
    ensures marks { (k : ℕ) → has_mark marks.new k ≡ (has_mark marks.old k || (nat_lt k (length marks.old) && (k == var))) }
{
    if (var as usize) < marks.len() {
        marks.put(var as usize, true);
    }
}

/// Marks each of the variables for which there is a place.
pub fn mark_variables(marks: &mut Row, variables: &[u32])
    ensures size { length marks.new ≡ length marks.old }
    ensures marks { (k : ℕ) → has_mark marks.new k ≡ (has_mark marks.old k || (nat_lt k (length marks.old) && is_among k variables.now)) }
{
    for var in variables {
        mark(marks, *var);
    }
}

/// Marks each variable that the pairs name and for which there is a place.
pub fn mark_pairs(marks: &mut Row, pairs: &[Pair])
    ensures size { length marks.new ≡ length marks.old }
    ensures marks { (k : ℕ) → has_mark marks.new k ≡ (has_mark marks.old k || (nat_lt k (length marks.old) && is_named k pairs.now)) }
{
    for pair in pairs {
        mark(marks, pair.var);
    }
}

/// Gives the row so many places, none of them marked. It takes memory only where it had another number of
/// places.
pub fn make_blank(alloc: Global, marks: &mut Row, size: usize) -> Result<(), Memory>
    ensures size { OnOk result (length marks.new ≡ size) }
    ensures none { OnOk result ((k : ℕ) → has_mark marks.new k ≡ false) }
{
    if marks.len() != size {
        *marks = Row::new(alloc, size)?;
        return Ok(());
    }
    marks.mark_span(Span::whole(false));
    Ok(())
}

/// For each of so many variables whether one of the rules names it.
pub fn named_by(alloc: Global, problem: &Problem, rules: &[u32], count: u32) -> Result<Row, Memory>
    requires { All (λ r. r < length problem.now.rules) rules.now }
    ensures size { IfOk result (λ marks. length marks ≡ count) }
    ensures marks { IfOk result (λ marks. (k : ℕ) → k < count → has_mark marks k ≡ names_any problem.now k rules.now) }
{
    let mut marks = Row::new(alloc, count as usize)?;
    mark_scopes(&mut marks, problem, rules);
    Ok(marks)
}

/// Marks each variable that one of the rules names, and for which there is a place.
fn mark_scopes(marks: &mut Row, problem: &Problem, rules: &[u32])
    requires { All (λ r. r < length problem.now.rules) rules.now }
    ensures size { length marks.new ≡ length marks.old }
    ensures marks { (k : ℕ) → has_mark marks.new k ≡ (has_mark marks.old k || (nat_lt k (length marks.old) && names_any problem.now k rules.now)) }
{
    for rule in rules {
        mark_variables(marks, problem.scope(*rule));
    }
}
