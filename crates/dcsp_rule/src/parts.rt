//! How rules over one or two variables are made ready.

ghost use Rattle.std.specs.Prelude.{◌≡◌, ◌+◌, ◌<◌, ◌≤◌, ◌^◌, ◌-ℤ◌, ℕ, ℤ, true, Bool, List, IfSome, IsSome, IsTrue, is_some, length, unsigned_abs};
ghost use Rattle.dcsp_meaning.specs.Sums.{stands};
ghost use Rattle.dcsp_meaning.specs.Table.{is_shape, truth};
ghost use Rattle.dcsp_meaning.specs.Words.{argument};
ghost use Rattle.dcsp_rule.specs.Rules.{has_shape};
ghost use Rattle.dcsp_rule.specs.Lent.{lent_rule};
ghost use Rattle.dcsp_rule.specs.declared.rule.Term.{Term};
ghost use Rattle.dcsp_rule.specs.Pairs.{compares_variable, is_comparison, IsPairOf, IsSmallSum};
ghost use Rattle.dcsp_rule.specs.Parts.{coefs_size, is_free_for, part_size, AddsPart, AddsTerm, AreOfSum, ComparesTerms, IsPairFrom, StaySmall, StaysSmall};

use crate::lent::RuleRef;
use crate::pair::BinaryRule;
use crate::rule::Term;
use dcsp_meaning::{ConstraintKind, Rel, product};

/// A coefficient and its variable.
#[derive(Clone, Copy)]
pub struct Part {
    pub coef: i64,
    pub var: u32,
}

/// Coefficients times at most two variables, and a number, added up.
#[derive(Clone, Copy)]
pub struct Parts {
    pub first: Option<Part>,
    pub second: Option<Part>,
    /// The number, with its sign turned.
    pub total: i128,
}

/// How the difference of two numbers stands to a third.
#[derive(Clone, Copy)]
pub struct Comparison {
    pub rel: Rel,
    pub total: i64,
}

/// The pair that the rule is, if it is one: a comparison, or a sum that nothing tells, over one or two variables.
///
/// Of a sum whose numbers are great, added up, there may be none.
pub fn pair_of(rule: RuleRef<'_>) -> Option<BinaryRule>
    requires { IsTrue (has_shape (lent_rule rule)) }
    ensures pair { IfSome result (λ pair. IsPairOf pair (lent_rule rule.entry)) }
    ensures compared { IsTrue (compares_variable (lent_rule rule.entry)) → IsSome result }
    ensures summed { (v w : ℕ) → IsSmallSum v w (lent_rule rule.entry) → IsSome result }
{
    match rule {
        RuleRef::Plain { kind, scalars, .. } => {
            let compared = compared_by(kind)?;
            let [first, second] = scalars else {
                return None;
            };
            pair_of_terms(compared, *first, *second)
        }
        RuleRef::Sum {
            rel,
            coefs,
            terms,
            total,
            truth,
        } => {
            if truth.is_some() {
                return None;
            }
            let parts = parts_of(coefs, terms)?;
            let parts = with_term(parts, -1, total)?;
            pair_of_parts(rel, parts)
        }
    }
}

/// How a constraint of this kind compares the difference of its numbers, if it is a comparison.
fn compared_by(kind: ConstraintKind) -> Option<Comparison>
    ensures some { is_some result ≡ is_comparison kind }
    ensures shape { is_some result ≡ true → (scalars first second : ℕ) → IsTrue (is_shape kind scalars first second) → (scalars ≡ 2) × ((first ≡ 0) × (second ≡ 0)) }
    ensures compares { IfSome result (λ compared. (scalars first second : List ℤ) → (member : ℤ → Bool) → truth kind scalars first second member ≡ stands compared.rel (argument scalars 0 -ℤ argument scalars 1) compared.total) }
{
    let (rel, total) = match kind {
        ConstraintKind::IntEq => (Rel::Equal, 0),
        ConstraintKind::IntNe => (Rel::Differ, 0),
        ConstraintKind::IntLe => (Rel::AtMost, 0),
        ConstraintKind::IntLt => (Rel::AtMost, -1),
        _ => return None,
    };
    Some(Comparison { rel, total })
}

/// The pair of a comparison, if one of its terms is a variable.
fn pair_of_terms(compared: Comparison, first: Term, second: Term) -> Option<BinaryRule>
    ensures { ComparesTerms compared first second result }
{
    let total = i128::from(compared.total);
    match first {
        Term::Var(var) => match second {
            Term::Var(other) => Some(BinaryRule {
                rel: compared.rel,
                first: var,
                second: other,
                first_coef: 1,
                second_coef: -1,
                total,
            }),
            Term::Const(value) => Some(BinaryRule {
                rel: compared.rel,
                first: var,
                second: var,
                first_coef: 1,
                second_coef: 0,
                total: total + i128::from(value),
            }),
        },
        Term::Const(value) => match second {
            Term::Var(var) => Some(BinaryRule {
                rel: compared.rel,
                first: var,
                second: var,
                first_coef: -1,
                second_coef: 0,
                total: total - i128::from(value),
            }),
            Term::Const(_) => None,
        },
    }
}

/// The terms of a sum, added up, if they have two variables at most.
fn parts_of(coefs: &[i64], terms: &[Term]) -> Option<Parts>
    requires { length coefs.now ≡ length terms.now }
    ensures sum { IfSome result (AreOfSum coefs.now terms.now) }
    ensures small { StaySmall coefs.now terms.now result }
{
    let mut parts = Parts {
        first: None,
        second: None,
        total: 0,
    };
    for place in 0..coefs.len() {
        let Some(next) = with_term(parts, coefs[place], terms[place]) else {
            return None;
        };
        parts = next;
    }
    Some(parts)
}

/// One term more.
fn with_term(parts: Parts, coef: i64, term: Term) -> Option<Parts>
    ensures adds { IfSome result (AddsTerm parts coef term) }
    ensures small { StaysSmall parts coef term result }
{
    match term {
        Term::Const(value) => {
            let total = parts.total.checked_sub(product(coef, value))?;
            Some(Parts {
                first: parts.first,
                second: parts.second,
                total,
            })
        }
        Term::Var(var) => with_var(parts, coef, var),
    }
}

/// A coefficient times a variable more.
fn with_var(parts: Parts, coef: i64, var: u32) -> Option<Parts>
    ensures adds { IfSome result (AddsTerm parts coef (Term.Var var)) }
    ensures small { StaysSmall parts coef (Term.Var var) result }
{
    match with_part(parts.first, coef, var) {
        Some(first) => Some(Parts {
            first: Some(first),
            second: parts.second,
            total: parts.total,
        }),
        None => {
            let second = with_part(parts.second, coef, var)?;
            Some(Parts {
                first: parts.first,
                second: Some(second),
                total: parts.total,
            })
        }
    }
}

/// The same where no other variable is.
fn with_part(part: Option<Part>, coef: i64, var: u32) -> Option<Part>
    ensures adds { IfSome result (AddsPart part coef var) }
    ensures small { IfSome result (λ next. unsigned_abs next.coef ≤ part_size part + unsigned_abs coef) }
    ensures free { IfSome result (λ next. (next.var ≡ var) × (is_free_for part var ≡ true)) }
    ensures some { part_size part + unsigned_abs coef < 2 ^ 62 → is_some result ≡ is_free_for part var }
{
    match part {
        None => Some(Part { coef, var }),
        Some(part) => {
            if part.var != var {
                return None;
            }
            let coef = part.coef.checked_add(coef)?;
            Some(Part { coef, var })
        }
    }
}

/// The pair that says how the parts stand to 0, if there is a variable and all numbers fit.
fn pair_of_parts(rel: Rel, parts: Parts) -> Option<BinaryRule>
    ensures pair { IfSome result (IsPairFrom rel parts) }
    ensures some { is_some parts.first ≡ true → coefs_size parts < 2 ^ 62 → unsigned_abs parts.total ≤ 2 ^ 65 → IsSome result }
{
    let first = parts.first?;
    let second = parts.second.unwrap_or(Part {
        coef: 0,
        var: first.var,
    });
    let pair = BinaryRule {
        rel,
        first: first.var,
        second: second.var,
        first_coef: first.coef,
        second_coef: second.coef,
        total: parts.total,
    };
    if pair.is_small() { Some(pair) } else { None }
}
