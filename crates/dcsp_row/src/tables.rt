//! Tables of integers in which one variable is open: what each row of a table asks of it, in one pass over the rows.

ghost use Rattle.std.specs.Prelude.{◌≡◌, ◌+◌, ◌<◌, ◌≤◌, ◌&&◌, ℤ, length, unwrap_or};
ghost use Rattle.std.specs.Ordering.{int_eq};
ghost use Rattle.dcsp_defs.specs.Csp.{with_value};
ghost use Rattle.dcsp_row.specs.Rows.{MarksWhere};
ghost use Rattle.dcsp_row.specs.Tables.{are_equal_under, fits, is_off_table, stands_open, MarksFit};

use crate::known::{OpenVariable, known_value};
use crate::row::Row;
use crate::span::Span;
use dcsp_domain::Domain;
use dcsp_problem::{Lookup, Term};

/// At which values of the open variable an entry or a row of a table fits.
#[derive(Clone, Copy)]
pub enum Fit {
    /// At each.
    Always,
    /// At this one alone.
    At(i64),
    /// At none.
    Never,
}

/// Where two numbers are equal, each of which may be the open variable: then it is `None`.
fn fit_of(x: Option<i64>, y: Option<i64>) -> Fit
    ensures { (value : ℤ) → fits result value ≡ int_eq (unwrap_or x value) (unwrap_or y value) }
{
    match (x, y) {
        (None, None) => Fit::Always,
        (None, Some(value)) | (Some(value), None) => Fit::At(value),
        (Some(x), Some(y)) => { if x == y { Fit::Always } else { Fit::Never } }
    }
}

/// Where both fit.
fn both(a: Fit, b: Fit) -> Fit
    ensures { (value : ℤ) → fits result value ≡ (fits a value && fits b value) }
{
    match (a, b) {
        (Fit::Always, fit) | (fit, Fit::Always) => fit,
        (Fit::Never, _) | (_, Fit::Never) => Fit::Never,
        (Fit::At(x), Fit::At(y)) => { if x == y { a } else { Fit::Never } }
    }
}

/// Where two terms have equal values.
fn terms_fit<L: Lookup>(x: Term, y: Term, open_var: &OpenVariable<'_, L>) -> Fit
    ensures { (value : ℤ) → fits result value ≡ are_equal_under (with_value open_var.now.var value (L.values open_var.now.lookup.now)) x y }
{
    fit_of(known_value(x, open_var), known_value(y, open_var))
}

/// Where the row stands in the table from an entry on. It stops at the first entry that differs.
fn row_fits<L: Lookup>(
    row: &[Term],
    table: &[Term],
    entry: usize,
    open_var: &OpenVariable<'_, L>,
) -> Fit
    requires { entry + length row.now ≤ length table.now }
    ensures { (value : ℤ) → fits result value ≡ stands_open open_var.now.var (L.values open_var.now.lookup.now) row.now table.now entry value }
{
    let mut fit = Fit::Always;
    for place in 0..row.len() {
        fit = both(fit, terms_fit(row[place], table[entry + place], open_var));
        if let Fit::Never = fit {
            return Fit::Never;
        }
    }
    fit
}

/// Puts this mark at the values of the open variable at which it fits.
fn put_where(marks: &mut Row, domain: &Domain, fit: Fit, mark: bool)
    requires { length marks.old ≡ length domain.now }
    ensures size { length marks.new ≡ length domain.now }
    ensures marks { MarksFit domain.now fit mark marks.old marks.new }
{
    let _places = domain.len();
    match fit {
        Fit::Always => marks.mark_span(Span::whole(mark)),
        Fit::At(value) => {
            if let Some(place) = domain.place_of(value) {
                marks.put(place, mark);
            }
        }
        Fit::Never => {}
    }
}

/// A table of integers, whose rows are as long as `row`, and whether one of them is told to be `row`, or none.
#[derive(Clone, Copy)]
pub struct IntTable<'a> {
    pub row: &'a [Term],
    pub table: &'a [Term],
    pub told: bool,
}

/// For each value of the open variable whether 'some row of the table is this row' is not as it is told.
pub fn fill_table<L: Lookup>(
    rule: IntTable<'_>,
    domain: &Domain,
    open_var: &OpenVariable<'_, L>,
    marks: &mut Row,
)
    requires some { 0 < length rule.row.now }
    requires size { length marks.old ≡ length domain.now }
    ensures { MarksWhere (is_off_table open_var.now.var (L.values open_var.now.lookup.now) rule.entry.row.now rule.entry.table.now rule.entry.told) domain.now marks.new }
{
    marks.mark_span(Span::whole(rule.told));
    for number in 0..rule.table.len() / rule.row.len() {
        let fit = row_fits(rule.row, rule.table, number * rule.row.len(), open_var);
        put_where(marks, domain, fit, !rule.told);
    }
}
