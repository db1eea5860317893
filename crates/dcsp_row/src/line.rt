//! Sums in which one variable is left open.

ghost use Rattle.std.specs.Prelude.{◌≡◌, ◌+◌, ◌*◌, ◌<◌, ◌≤◌, ◌^◌, ◌+ℤ◌, ◌*ℤ◌, ◌++◌, ℤ, IfSome, IsNone, is_some, length, option_to_list, unsigned_abs};
ghost use Rattle.dcsp_meaning.specs.Sums.{widest};
ghost use Rattle.dcsp_defs.specs.Csp.{with_value};
ghost use Rattle.dcsp_rule.specs.Pairs.{IsSmall};
ghost use Rattle.dcsp_row.specs.Rows.{FitAtEach};
ghost use Rattle.dcsp_row.specs.Easy.{own_coefs};
ghost use Rattle.dcsp_row.specs.Lines.{knows_both, line_at, line_size, open_coef, pair_sum_under, size_with, sum_with, value_or_open_at, AddsTerm};

use crate::known::{OpenVariable, ValueOrOpen, known_value, value_or_open};
use dcsp_domain::Domain;
use dcsp_meaning::{plus_product, product};
use dcsp_problem::{BinaryRule, Lookup, Term};

/// A sum: its known part, and the coefficient of the open variable, if that is among its terms.
#[derive(Clone, Copy)]
pub struct LinearSum {
    pub base: i128,
    pub own: Option<i64>,
}

/// The sum of each coefficient times its term, where one variable is open; `None` where that is more than one term.
pub fn line_of<L: Lookup>(
    coefs: &[i64],
    terms: &[Term],
    domain: &Domain,
    open_var: &OpenVariable<'_, L>,
) -> Option<LinearSum>
    requires shape { length coefs.now ≡ length terms.now }
    requires some { 0 < length domain.now }
    requires narrow { FitAtEach (size_with open_var.now.var (L.values open_var.now.lookup.now) coefs.now terms.now) widest domain.now }
    ensures sum { IfSome result (λ line. (x : ℤ) → line_at line x ≡ sum_with open_var.now.var (L.values open_var.now.lookup.now) coefs.now terms.now x) }
    ensures size { IfSome result (λ line. FitAtEach (line_size line) widest domain.now) }
    ensures own { IfSome result (λ line. option_to_list line.own ≡ own_coefs open_var.now.var coefs.now terms.now) }
    ensures many { IsNone result → 1 < length (own_coefs open_var.now.var coefs.now terms.now) }
{
    let mut line = LinearSum { base: 0, own: None };
    for place in 0..coefs.len() {
        let value = known_value(terms[place], open_var);
        let Some(next) = with_term(line, coefs[place], value) else {
            return None;
        };
        line = next;
    }
    Some(line)
}

/// The line with one term more.
fn with_term(line: LinearSum, coef: i64, value: Option<i64>) -> Option<LinearSum>
    requires { IfSome value (λ v. unsigned_abs line.base + unsigned_abs coef * unsigned_abs v ≤ widest) }
    ensures adds { IfSome result (λ next. (x : ℤ) → AddsTerm line next coef value x) }
    ensures own { IfSome result (λ next. option_to_list next.own ≡ option_to_list line.own ++ open_coef coef value) }
    ensures many { IsNone result → 1 < length (option_to_list line.own ++ open_coef coef value) }
{
    match value {
        Some(value) => Some(LinearSum {
            base: plus_product(line.base, coef, value),
            own: line.own,
        }),
        None => match line.own {
            Some(_) => None,
            None => Some(LinearSum {
                base: line.base,
                own: Some(coef),
            }),
        },
    }
}

/// The sum where the open variable has this value.
pub fn sum_at(line: LinearSum, value: i64) -> i128
    requires { line_size line value ≤ widest }
    ensures { result ≡ line_at line value }
{
    match line.own {
        Some(coef) => plus_product(line.base, coef, value),
        None => line.base,
    }
}

/// A pair's products, added up, where one variable is open; `None` where another has no value.
#[inline(always)]
pub fn line_of_pair<L: Lookup>(
    pair: BinaryRule,
    open_var: &OpenVariable<'_, L>,
) -> Option<LinearSum>
    requires { IsSmall pair }
    ensures known { (x : ℤ) → is_some result ≡ knows_both pair (with_value open_var.now.var x (L.values open_var.now.lookup.now)) }
    ensures sum { IfSome result (λ line. (x : ℤ) → line_at line x ≡ pair_sum_under pair (with_value open_var.now.var x (L.values open_var.now.lookup.now))) }
    ensures base { IfSome result (λ line. unsigned_abs line.base ≤ widest) }
{
    let Some(first) = value_or_open(pair.first, open_var) else {
        return None;
    };
    let Some(second) = value_or_open(pair.second, open_var) else {
        return None;
    };
    let (base, own) = product_of(pair.first_coef, first);
    let (more, other) = product_of(pair.second_coef, second);
    Some(LinearSum {
        base: base + more,
        own: Some(own + other),
    })
}

/// The product of a coefficient and a value; where the value is open, 0 and the coefficient.
#[inline(always)]
fn product_of(coef: i64, found: ValueOrOpen) -> (i128, i64)
    ensures product { (x : ℤ) → result.0 +ℤ (result.1 *ℤ x) ≡ coef *ℤ value_or_open_at found x }
    ensures size { unsigned_abs coef < 2 ^ 62 → (unsigned_abs result.0 ≤ 2 ^ 125) × (unsigned_abs result.1 < 2 ^ 62) }
{
    match found {
        ValueOrOpen::Value(value) => (product(coef, value), 0),
        ValueOrOpen::Open => (0, coef),
    }
}
