//! Whether a step is right, where reasons may cite the nogoods at hand.

ghost use Rattle.std.specs.Prelude.{All, ◌≡◌, ◌<◌, ◌≤◌, ◌↔◌, ℕ, ℤ, length, IsTrue, IfOk, Some, slice_get};
ghost use Rattle.dcsp_defs.specs.declared.nogood.Pair.{Pair};
ghost use Rattle.dcsp_defs.specs.Pairs.{value_at};
ghost use Rattle.dcsp_defs.specs.Words.{In};
ghost use Rattle.dcsp_defs.specs.Csp.{with_value};
ghost use Rattle.dcsp_defs.specs.Derivation.{IsKnownPair, IsFalseAlone, IsRightNowhere};
ghost use Rattle.dcsp_rule.specs.Problems.{csp_of, AreInDomains};
ghost use Rattle.ngd_check.specs.Tables.{IsClear};
ghost use Rattle.ngd_check.specs.Citing.{IsReasonUnder, AreReasonsUnder, IsRightAtCiting, IsRightCiting};

use crate::cites::Cites;
use crate::given::{Given, Nothing, Searched};
use crate::present::Present;
use dcsp_common::Memory;
use dcsp_defs::Pair;
use dcsp_problem::{Lookup, Problem};
use ngd_log::{LentStep, Reason, Step};

/// Whether the step is right. The problem has so many variables.
pub fn is_right<C: Cites>(problem: &Problem, vars: u32, nogoods: &C, step: &Step) -> bool
    requires { vars ≡ length problem.now.domains }
    ensures { IsTrue result ↔ IsRightCiting (csp_of problem.now) (C.cited nogoods.now) step.now }
{
    if !are_known(problem, vars, step.nogood.pairs()) {
        return false;
    }
    let known = Searched {
        nogood: &step.nogood,
    };
    is_right_known(problem, nogoods, &known, &LentStep::of(step))
}

/// The same of a step whose pairs are those of variables of the problem and values of their domains, and are
/// at hand.
pub fn is_right_known<C: Cites, L: Lookup>(
    problem: &Problem,
    nogoods: &C,
    known: &L,
    step: &LentStep<'_>,
) -> bool
    requires pairs { All (IsKnownPair (csp_of problem.now)) step.now.nogood }
    requires known { L.values known.now ≡ value_at step.now.nogood }
    ensures { IsTrue result ↔ IsRightCiting (csp_of problem.now) (C.cited nogoods.now) step.now }
{
    match step.variable() {
        Some(var) => is_right_at(problem, nogoods, known, var, step),
        None => is_right_nowhere(problem, step),
    }
}

/// The same by a table that has no values, and again has none.
pub fn is_right_by<C: Cites>(
    problem: &Problem,
    nogoods: &C,
    present: &mut Present,
    step: &LentStep<'_>,
) -> Result<bool, Memory>
    requires pairs { All (IsKnownPair (csp_of problem.now)) step.now.nogood }
    requires clear { IsClear present.old }
    ensures right { IfOk result (λ right. IsTrue right ↔ IsRightCiting (csp_of problem.now) (C.cited nogoods.now) step.now) }
    ensures clear { IsClear present.new }
{
    let vars = problem.vars();
    present.make_ready(vars)?;
    present.take_in(step.pairs());
    let right = is_right_known(problem, nogoods, present, step);
    present.clear(step.pairs());
    Ok(right)
}

fn is_right_at<C: Cites, L: Lookup>(
    problem: &Problem,
    nogoods: &C,
    known: &L,
    var: u32,
    step: &LentStep<'_>,
) -> bool
    requires pairs { All (IsKnownPair (csp_of problem.now)) step.now.nogood }
    requires known { L.values known.now ≡ value_at step.now.nogood }
    ensures { IsTrue result ↔ IsRightAtCiting (csp_of problem.now) (C.cited nogoods.now) var step.now }
{
    // The pairs of a nogood rise, whatever is asked of them.
    let _pairs = step.pairs();
    if var >= problem.vars() {
        return false;
    }
    if known.value_of(var).is_some() {
        return false;
    }
    are_reasons(problem, nogoods, known, var, step.reasons())
}

/// Whether each pair names a variable of the problem and a value of its domain.
fn are_known(problem: &Problem, vars: u32, pairs: &[Pair]) -> bool
    requires { vars ≡ length problem.now.domains }
    ensures { IsTrue result ↔ All (IsKnownPair (csp_of problem.now)) pairs.now }
{
    for pair in pairs {
        if !is_known(problem, vars, *pair) {
            return false;
        }
    }
    true
}

fn is_known(problem: &Problem, vars: u32, pair: Pair) -> bool
    requires { vars ≡ length problem.now.domains }
    ensures { IsTrue result ↔ IsKnownPair (csp_of problem.now) pair }
{
    if pair.var >= vars {
        return false;
    }
    problem.domain(pair.var).place_of(pair.value).is_some()
}

/// Whether there is a reason for each value of the variable, at its place.
fn are_reasons<C: Cites, L: Lookup>(
    problem: &Problem,
    nogoods: &C,
    known: &L,
    var: u32,
    reasons: &[Reason],
) -> bool
    requires variable { var < length problem.now.domains }
    requires known { AreInDomains (csp_of problem.now) (L.values known.now) }
    ensures { IsTrue result ↔ AreReasonsUnder (csp_of problem.now) (C.cited nogoods.now) var (L.values known.now) reasons.now }
{
    let values = problem.domain(var);
    if reasons.len() != values.len() {
        return false;
    }
    for (place, reason) in reasons.iter().enumerate() {
        let given = Given {
            known,
            var,
            value: values.value(place),
        };
        if !is_reason(problem, nogoods, &given, *reason) {
            return false;
        }
    }
    true
}

/// Whether this reason rules the value out.
fn is_reason<C: Cites, L: Lookup>(
    problem: &Problem,
    nogoods: &C,
    given: &Given<L>,
    reason: Reason,
) -> bool
    requires { AreInDomains (csp_of problem.now) (with_value given.now.var given.now.value (L.values given.now.known.now)) }
    ensures { IsTrue result ↔ IsReasonUnder (csp_of problem.now) (C.cited nogoods.now) (with_value given.now.var given.now.value (L.values given.now.known.now)) reason }
{
    match reason {
        Reason::Rule(number) => number < problem.rules() && problem.violated_within(number, given),
        Reason::Earlier(number) => nogoods.agrees(number, given),
    }
}

/// Whether the step has no variable and rests on a rule without variables that is false.
fn is_right_nowhere(problem: &Problem, step: &LentStep<'_>) -> bool
    ensures { IsTrue result ↔ IsRightNowhere (csp_of problem.now) step.now }
{
    match step.reasons() {
        [Reason::Rule(number)] => step.pairs().is_empty() && is_false_alone(problem, *number),
        _ => false,
    }
}

/// Whether this is a rule without variables that is false.
fn is_false_alone(problem: &Problem, number: u32) -> bool
    ensures { IsTrue result ↔ IsFalseAlone (csp_of problem.now) number }
{
    number < problem.rules() && problem.violated_by(number, &Nothing)
}
