//! Sets of numbers that are one number, or all below one, or all others than these.

ghost use Rattle.std.specs.Prelude.{◌≡◌, ◌<◌, ◌≤◌, ◌*ℤ◌, ℕ, ℤ, pos, IfSome, int_lt, length, nat_lt, not, unsigned_abs};
ghost use Rattle.std.specs.Ordering.{int_eq};
ghost use Rattle.dcsp_meaning.specs.Sums.{stands};
ghost use Rattle.dcsp_row.specs.Cuts.{is_in, is_of, number_of, farthest};
ghost use Rattle.dcsp_row.specs.Rows.{own_at};
ghost use Rattle.dcsp_row.specs.Spans.{SpansWhere};

use crate::span::Span;
use dcsp_domain::Domain;
use dcsp_meaning::Rel;

/// One number, or all numbers below one.
#[derive(Clone, Copy)]
pub enum Part {
    Only(i128),
    Below(i128),
}

/// The numbers of a part, or those outside it.
#[derive(Clone, Copy)]
pub struct Cut {
    pub part: Part,
    pub outside: bool,
}

/// The numbers that do not stand so to the total.
pub fn missed_before(rel: Rel, total: i128) -> Cut
    requires { unsigned_abs total < farthest }
    ensures cut { (x : ℤ) → is_in result x ≡ not (stands rel x total) }
    ensures number { unsigned_abs (number_of result.part) ≤ farthest }
{
    let (part, outside) = match rel {
        Rel::Equal => (Part::Only(total), true),
        Rel::Differ => (Part::Only(total), false),
        Rel::AtMost => (Part::Below(total + 1), true),
    };
    Cut { part, outside }
}

/// The numbers to which the sum does not stand so.
pub fn missed_after(rel: Rel, sum: i128) -> Cut
    requires { unsigned_abs sum < farthest }
    ensures cut { (x : ℤ) → is_in result x ≡ not (stands rel sum x) }
    ensures number { unsigned_abs (number_of result.part) ≤ farthest }
{
    let (part, outside) = match rel {
        Rel::Equal => (Part::Only(sum), true),
        Rel::Differ => (Part::Only(sum), false),
        Rel::AtMost => (Part::Below(sum), false),
    };
    Cut { part, outside }
}

/// The places of those of these values whose products with the factor are in the cut.
#[inline(always)]
pub fn product_span(cut: Cut, factor: u64, domain: &Domain) -> Span
    requires number { unsigned_abs (number_of cut.part) ≤ farthest }
    requires factor { 0 < factor }
    ensures { SpansWhere (λ x. is_in cut (pos factor *ℤ x)) domain.now result }
{
    let span = span_of(cut.part, factor, domain);
    if cut.outside { span.others() } else { span }
}

/// The places of those of these values whose products with the factor are of the part.
#[inline(always)]
fn span_of(part: Part, factor: u64, domain: &Domain) -> Span
    requires { 0 < factor }
    ensures { SpansWhere (λ x. is_of part (pos factor *ℤ x)) domain.now result }
{
    match part {
        Part::Only(number) => span_of_number(number, factor, domain),
        Part::Below(bound) => Span {
            from: 0,
            to: count_below(domain, factor, bound),
            outside: 0,
        },
    }
}

/// The place of the value whose product with the factor is this number, if there is one.
#[inline(always)]
fn span_of_number(number: i128, factor: u64, domain: &Domain) -> Span
    requires { 0 < factor }
    ensures { SpansWhere (λ x. int_eq (pos factor *ℤ x) number) domain.now result }
{
    if factor == 1 {
        if let Ok(value) = i64::try_from(number) {
            return span_of_value(value, domain);
        }
    }
    let from = count_below(domain, factor, number);
    if from >= domain.len() {
        return Span::whole(false);
    }
    if product(factor, domain.value(from)) != number {
        return Span::whole(false);
    }
    Span {
        from,
        to: from + 1,
        outside: 0,
    }
}

/// The place of the value, if it is one of these.
#[inline(always)]
fn span_of_value(value: i64, domain: &Domain) -> Span
    ensures { SpansWhere (λ x. int_eq x value) domain.now result }
{
    let values = domain.len();
    if values > 0 {
        // Where no value is missing below it, its place is its distance from the first.
        let place = value.abs_diff(domain.value(0)) as usize;
        if place < values && domain.value(place) == value {
            return Span::one(place);
        }
    }
    match domain.place_of(value) {
        Some(place) => Span::one(place),
        None => Span::whole(false),
    }
}

/// How many of these values have a product with the factor below the bound. They are the first ones.
#[inline(always)]
fn count_below(domain: &Domain, factor: u64, bound: i128) -> usize
    requires { 0 < factor }
    ensures { (k : ℕ) → k < length domain.now → int_lt (pos factor *ℤ own_at domain.now k) bound ≡ nat_lt k result }
{
    if factor == 1 {
        if let Some(count) = count_without_gap(domain, bound) {
            return count;
        }
    }
    count_by_halves(domain, factor, bound)
}

/// How many of these values are below the bound, where all or none are, or no value is missing below it.
#[inline(always)]
fn count_without_gap(domain: &Domain, bound: i128) -> Option<usize>
    ensures { IfSome result (λ count. (k : ℕ) → k < length domain.now → int_lt (own_at domain.now k) bound ≡ nat_lt k count) }
{
    let len = domain.len();
    if len == 0 {
        return Some(0);
    }
    if bound <= i128::from(domain.value(0)) {
        return Some(0);
    }
    if i128::from(domain.value(len - 1)) < bound {
        return Some(len);
    }
    let count = usize::try_from(bound - i128::from(domain.value(0))).ok()?;
    if count < len && i128::from(domain.value(count)) == bound {
        Some(count)
    } else {
        None
    }
}

/// How many of these values have a product with the factor below the bound, by binary search.
#[inline(never)]
fn count_by_halves(domain: &Domain, factor: u64, bound: i128) -> usize
    requires { 0 < factor }
    ensures { (k : ℕ) → k < length domain.now → int_lt (pos factor *ℤ own_at domain.now k) bound ≡ nat_lt k result }
{
    let mut low = 0;
    let mut high = domain.len();
    while low < high {
        let middle = low + (high - low) / 2;
        if product(factor, domain.value(middle)) < bound {
            low = middle + 1;
        } else {
            high = middle;
        }
    }
    low
}

/// The product of the factor and a value.
fn product(factor: u64, value: i64) -> i128
    ensures { result ≡ pos factor *ℤ value }
{
    i128::from(factor) * i128::from(value)
}
