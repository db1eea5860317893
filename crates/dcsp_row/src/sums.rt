//! Rows of sums.

ghost use Rattle.std.specs.Prelude.{◌≡◌, ◌+ℤ◌, ◌*ℤ◌, ◌<◌, ◌≤◌, ◌^◌, ℤ, Some, IfSome, IsTrue, is_some, length, not, unsigned_abs, unwrap_or};
ghost use Rattle.std.specs.Option.{option_map};
ghost use Rattle.dcsp_meaning.specs.Sums.{stands, widest};
ghost use Rattle.dcsp_defs.specs.Csp.{filled, with_value};
ghost use Rattle.dcsp_rule.specs.Rules.{is_told, value_under};
ghost use Rattle.dcsp_row.specs.Rows.{own_at, MarksWhere, FitAtEach};
ghost use Rattle.dcsp_row.specs.Easy.{is_truth};
ghost use Rattle.dcsp_row.specs.Lines.{is_known, is_line, is_off, is_on, line_at, line_size, told_at};
ghost use Rattle.dcsp_row.specs.Spans.{SpansWhere};

use crate::cut::{missed_after, missed_before, product_span};
use crate::known::{OpenVariable, known_value};
use crate::line::{LinearSum, sum_at};
use crate::row::Row;
use crate::span::Span;
use dcsp_domain::Domain;
use dcsp_meaning::Rel;
use dcsp_problem::{Lookup, Term};

/// Whether a sum's truth is told, and by what.
#[derive(Clone, Copy)]
pub enum SumTruth {
    /// It is not: the sum has to hold.
    HasToHold,
    /// By this value.
    By(i64),
    /// By the open variable.
    ByOpen,
}

/// A sum with one variable open.
#[derive(Clone, Copy)]
pub struct OpenSum {
    pub rel: Rel,
    pub line: LinearSum,
    /// `None` where it is the open variable.
    pub total: Option<i64>,
    pub told: SumTruth,
}

/// What tells the truth of a sum, where one variable is open.
pub fn told_by<L: Lookup>(truth: Option<Term>, open_var: &OpenVariable<'_, L>) -> SumTruth
    ensures told { (x : ℤ) → option_map (value_under (filled (with_value open_var.now.var x (L.values open_var.now.lookup.now)))) truth ≡ told_at result x }
    ensures known { is_known result ≡ not (is_truth open_var.now.var truth) }
{
    match truth {
        None => SumTruth::HasToHold,
        Some(term) => match known_value(term, open_var) {
            Some(value) => SumTruth::By(value),
            None => SumTruth::ByOpen,
        },
    }
}

/// The places of those of these values at which the sum is false, where the open variable tells neither total
/// nor truth.
pub fn off_span(opened: OpenSum, domain: &Domain) -> Option<Span>
    requires { unsigned_abs opened.line.base ≤ widest }
    ensures off { IfSome result (SpansWhere (is_off opened) domain.now) }
    ensures some { IsTrue (is_line (Some opened)) → IsTrue (is_some result) }
{
    let total = opened.total?;
    let missed = missed_line(opened.rel, opened.line, i128::from(total), domain);
    match opened.told {
        SumTruth::HasToHold => Some(missed),
        SumTruth::By(truth) => Some(if truth == 1 { missed } else { missed.others() }),
        SumTruth::ByOpen => None,
    }
}

/// The places of those of these values at which the sum does not stand so to the total.
#[inline(always)]
pub fn missed_line(rel: Rel, line: LinearSum, total: i128, domain: &Domain) -> Span
    requires base { unsigned_abs line.base ≤ widest }
    requires total { unsigned_abs total ≤ 2 ^ 65 }
    ensures { SpansWhere (λ x. not (stands rel (line_at line x) total)) domain.now result }
{
    let coef = line.own.unwrap_or(0);
    match rel {
        Rel::Differ => missed_apart(line.base, coef, total, domain),
        _ => missed_with(rel, line.base, coef, total, domain),
    }
}

/// The same where the sum has to differ from the total. Most coefficients are 1 or -1: the rest is then compiled for these.
#[inline(always)]
fn missed_apart(base: i128, coef: i64, total: i128, domain: &Domain) -> Span
    requires base { unsigned_abs base ≤ widest }
    requires total { unsigned_abs total ≤ 2 ^ 65 }
    ensures { SpansWhere (λ x. not (stands Rel.Differ (base +ℤ (coef *ℤ x)) total)) domain.now result }
{
    if coef == 1 {
        return missed_with(Rel::Differ, base, 1, total, domain);
    }
    if coef == -1 {
        return missed_with(Rel::Differ, base, -1, total, domain);
    }
    missed_with(Rel::Differ, base, coef, total, domain)
}

/// The places of those of these values whose product with the coefficient, added to the base, does not stand so to the
/// total.
#[inline(always)]
fn missed_with(rel: Rel, base: i128, coef: i64, total: i128, domain: &Domain) -> Span
    requires base { unsigned_abs base ≤ widest }
    requires total { unsigned_abs total ≤ 2 ^ 65 }
    ensures { SpansWhere (λ x. not (stands rel (base +ℤ (coef *ℤ x)) total)) domain.now result }
{
    let factor = coef.unsigned_abs();
    if coef > 0 {
        product_span(missed_before(rel, total - base), factor, domain)
    } else if coef < 0 {
        product_span(missed_after(rel, base - total), factor, domain)
    } else {
        Span::whole(!rel.holds(base, total))
    }
}

/// For each of these values whether the sum is false.
pub fn fill_sum(opened: OpenSum, domain: &Domain, row: &mut Row)
    requires size { length row.old ≡ length domain.now }
    requires narrow { FitAtEach (line_size opened.line) widest domain.now }
    ensures { MarksWhere (is_off opened) domain.now row.new }
{
    for place in 0..domain.len() {
        let holds = holds_at(opened, domain, place);
        row.put(place, !holds);
    }
}

/// Whether the sum is true at the value at a place.
fn holds_at(opened: OpenSum, domain: &Domain, place: usize) -> bool
    requires place { place < length domain.now }
    requires narrow { line_size opened.line (own_at domain.now place) ≤ widest }
    ensures { result ≡ is_on opened (own_at domain.now place) }
{
    let value = domain.value(place);
    let sum = sum_at(opened.line, value);
    let total = opened.total.unwrap_or(value);
    is_told(opened.told, value, opened.rel.holds(sum, i128::from(total)))
}

/// The truth itself, or whether it is told rightly where the open variable has this value.
fn is_told(told: SumTruth, value: i64, holds: bool) -> bool
    ensures { result ≡ is_told (told_at told value) holds }
{
    match told {
        SumTruth::HasToHold => holds,
        SumTruth::By(truth) => holds == (truth == 1),
        SumTruth::ByOpen => holds == (value == 1),
    }
}
