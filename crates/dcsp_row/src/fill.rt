//! What a rule rules out.
//!
//! What leads from a pair of variables to its span runs for each rule at each change of a view. It is inlined, as
//! is what takes the span in, so that no span is copied through memory from call to call.

ghost use Rattle.std.specs.Prelude.{◌≡◌, ◌≢◌, ◌<◌, ℤ, length, IfSome, IsTrue, is_some, not};
ghost use Rattle.dcsp_rule.specs.Problems.{csp_of, rule_at, AreInDomains};
ghost use Rattle.dcsp_meaning.specs.Sums.{widest};
ghost use Rattle.dcsp_defs.specs.Csp.{domain, filled, with_value};
ghost use Rattle.dcsp_rule.specs.Lent.{lent_rule};
ghost use Rattle.dcsp_rule.specs.Rules.{has_shape};
ghost use Rattle.dcsp_rule.specs.Pairs.{compares_variable, is_missed, IsSmall};
ghost use Rattle.dcsp_rule.specs.Widths.{rule_sizes};
ghost use Rattle.dcsp_row.specs.Easy.{has_span, is_plain};
ghost use Rattle.dcsp_row.specs.Tables.{values_at, IsIntTable, TellsTable};
ghost use Rattle.dcsp_row.specs.Lines.{is_line, is_off, line_size};
ghost use Rattle.dcsp_row.specs.Rows.{is_false, is_ruled_out, IsRow, TellsFalse, FitAtEach};
ghost use Rattle.dcsp_row.specs.Spans.{SpansWhere};

use crate::general::try_each;
use crate::known::{OpenVariable, known_value, knows_others};
use crate::line::{LinearSum, line_of, line_of_pair};
use crate::row::Row;
use crate::span::Span;
use crate::sums::{OpenSum, fill_sum, missed_line, off_span, told_by};
use crate::tables::{IntTable, fill_table};
use dcsp_domain::Domain;
use dcsp_meaning::product;
use dcsp_problem::{BinaryRule, ConstraintKind, Lookup, Problem, RuleRef, Term};

/// The values of the open variable at which the rule is violated under these and the others', as a span of
/// its domain; `None` only where the rule is not one that always has a span.
#[inline(always)]
pub fn span_of<L: Lookup>(
    problem: &Problem,
    rule: u32,
    open_var: &OpenVariable<'_, L>,
) -> Option<Span>
    requires rule { rule < length problem.now.rules }
    requires var { open_var.now.var < length problem.now.domains }
    requires known { AreInDomains (csp_of problem.now) (L.values open_var.now.lookup.now) }
    ensures span { IfSome result (SpansWhere (is_ruled_out problem.now rule open_var.now.var (L.values open_var.now.lookup.now)) (domain (csp_of problem.now) open_var.now.var)) }
    ensures some { IsTrue (has_span open_var.now.var (rule_at problem.now rule)) → IsTrue (is_some result) }
{
    let _variables = problem.vars();
    if let Some(pair) = problem.pair(rule) {
        return Some(span_of_pair(pair, problem.domain(open_var.var), open_var));
    }
    span_of_other(problem, rule, open_var.var, open_var.lookup)
}

/// The same of a rule that is no pair. It takes the open variable by value, so that it stands in no memory where a rule
/// is a pair.
#[inline(never)]
fn span_of_other<L: Lookup>(problem: &Problem, rule: u32, var: u32, lookup: &L) -> Option<Span>
    requires rule { rule < length problem.now.rules }
    requires var { var < length problem.now.domains }
    requires known { AreInDomains (csp_of problem.now) (L.values lookup.now) }
    requires compares { IsTrue (not (compares_variable (rule_at problem.now rule))) }
    ensures span { IfSome result (SpansWhere (is_ruled_out problem.now rule var (L.values lookup.now)) (domain (csp_of problem.now) var)) }
    ensures some { IsTrue (has_span var (rule_at problem.now rule)) → IsTrue (is_some result) }
{
    let _variables = problem.vars();
    let open_var = OpenVariable { var, lookup };
    let scope = problem.scope(rule);
    if !knows_others(scope, &open_var) {
        return Some(Span::whole(false));
    }
    if scope.is_empty() {
        return Some(Span::whole(problem.violated_within(rule, lookup)));
    }
    span_of_sum(problem.rule(rule), problem.domain(var), &open_var)
}

/// The values at which both of the pair's variables are known, and it is false.
#[inline(always)]
fn span_of_pair<L: Lookup>(
    pair: BinaryRule,
    domain: &Domain,
    open_var: &OpenVariable<'_, L>,
) -> Span
    requires { IsSmall pair }
    ensures { SpansWhere (λ x. is_missed pair (with_value open_var.now.var x (L.values open_var.now.lookup.now))) domain.now result }
{
    if pair.second == open_var.var && pair.first != open_var.var {
        return span_of_second(pair, domain, open_var);
    }
    span_of_either(pair, domain, open_var.var, open_var.lookup)
}

/// The same whichever of them is the open one, or both, or neither. It takes the open variable by value, so that it
/// stands in no memory where the second alone is the open one.
#[inline(never)]
fn span_of_either<L: Lookup>(pair: BinaryRule, domain: &Domain, var: u32, lookup: &L) -> Span
    requires { IsSmall pair }
    ensures { SpansWhere (λ x. is_missed pair (with_value var x (L.values lookup.now))) domain.now result }
{
    let open_var = OpenVariable { var, lookup };
    match line_of_pair(pair, &open_var) {
        Some(line) => missed_line(pair.rel, line, pair.total, domain),
        None => Span::whole(false),
    }
}

/// The same where the second variable alone is the open one, as in most rules of agents.
#[inline(always)]
fn span_of_second<L: Lookup>(
    pair: BinaryRule,
    domain: &Domain,
    open_var: &OpenVariable<'_, L>,
) -> Span
    requires small { IsSmall pair }
    requires second { pair.second ≡ open_var.now.var }
    requires first { pair.first ≢ open_var.now.var }
    ensures { SpansWhere (λ x. is_missed pair (with_value open_var.now.var x (L.values open_var.now.lookup.now))) domain.now result }
{
    let Some(value) = open_var.lookup.value_of(pair.first) else {
        return Span::whole(false);
    };
    let line = LinearSum {
        base: product(pair.first_coef, value),
        own: Some(pair.second_coef),
    };
    missed_line(pair.rel, line, pair.total, domain)
}

/// The values at which the rule is false, if it is a sum with the variable in one of its terms at most.
#[inline(never)]
fn span_of_sum<L: Lookup>(
    rule: RuleRef<'_>,
    domain: &Domain,
    open_var: &OpenVariable<'_, L>,
) -> Option<Span>
    requires shape { IsTrue (has_shape (lent_rule rule)) }
    requires narrow { FitAtEach (λ x. rule_sizes (lent_rule rule) (filled (with_value open_var.now.var x (L.values open_var.now.lookup.now)))) widest domain.now }
    ensures span { IfSome result (SpansWhere (is_false (lent_rule rule.entry) open_var.now.var (L.values open_var.now.lookup.now)) domain.now) }
    ensures some { IsTrue (not (is_plain (lent_rule rule.entry))) → IsTrue (has_span open_var.now.var (lent_rule rule.entry)) → IsTrue (is_some result) }
{
    if domain.is_empty() {
        return Some(Span::whole(false));
    }
    let opened = open_sum(rule, domain, open_var)?;
    off_span(opened, domain)
}

/// For each value of the open variable whether the rule is violated under this value and the others'.
pub fn fill_row<L: Lookup>(
    problem: &Problem,
    rule: u32,
    open_var: &OpenVariable<'_, L>,
    row: &mut Row,
)
    requires rule { rule < length problem.now.rules }
    requires var { open_var.now.var < length problem.now.domains }
    requires size { length row.old ≡ length (domain (csp_of problem.now) open_var.now.var) }
    requires known { AreInDomains (csp_of problem.now) (L.values open_var.now.lookup.now) }
    ensures { IsRow problem.now rule open_var.now.var (L.values open_var.now.lookup.now) row.new }
{
    if !knows_others(problem.scope(rule), open_var) {
        row.mark_span(Span::whole(false));
        return;
    }
    let _variables = problem.vars();
    if !fill_known(
        problem.rule(rule),
        problem.domain(open_var.var),
        open_var,
        row,
    ) {
        try_each(problem, rule, open_var, row);
    }
}

/// For each value of the variable whether the rule is false, if it is a sum with the variable in one of its
/// terms at most, or a table of integers whose truth the variable does not tell.
fn fill_known<L: Lookup>(
    rule: RuleRef<'_>,
    domain: &Domain,
    open_var: &OpenVariable<'_, L>,
    row: &mut Row,
) -> bool
    requires size { length row.old ≡ length domain.now }
    requires shape { IsTrue (has_shape (lent_rule rule)) }
    requires narrow { FitAtEach (λ x. rule_sizes (lent_rule rule) (filled (with_value open_var.now.var x (L.values open_var.now.lookup.now)))) widest domain.now }
    ensures size { length row.new ≡ length domain.now }
    ensures tells { IsTrue result → TellsFalse (lent_rule rule.entry) open_var.now.var domain.now (L.values open_var.now.lookup.now) row.new }
{
    match rule {
        RuleRef::Sum { .. } => fill_linear(rule, domain, open_var, row),
        RuleRef::Plain {
            kind,
            scalars,
            first,
            second,
            ..
        } => match told_table(kind, scalars, open_var) {
            None => false,
            Some(told) => {
                let rule = IntTable {
                    row: first,
                    table: second,
                    told,
                };
                fill_table(rule, domain, open_var, row);
                true
            }
        },
    }
}

/// Whether a constraint of this kind is a table of integers that has to hold, or is told to, or not to, by another
/// variable than the open one; `None` where it is anything else.
fn told_table<L: Lookup>(
    kind: ConstraintKind,
    scalars: &[Term],
    open_var: &OpenVariable<'_, L>,
) -> Option<bool>
    ensures table { IfSome result (λ told. IsIntTable kind) }
    ensures told { IfSome result (λ told. (value : ℤ) → TellsTable kind (values_at open_var.now.var (L.values open_var.now.lookup.now) scalars.now value) told) }
{
    match kind {
        ConstraintKind::FznTableInt => Some(true),
        ConstraintKind::FznTableIntReif => {
            let truth = scalars.last()?;
            Some(known_value(*truth, open_var)? == 1)
        }
        _ => None,
    }
}

/// For each value of the variable whether the rule is false, if it is a sum with the variable in one of its
/// terms at most.
fn fill_linear<L: Lookup>(
    rule: RuleRef<'_>,
    domain: &Domain,
    open_var: &OpenVariable<'_, L>,
    row: &mut Row,
) -> bool
    requires size { length row.old ≡ length domain.now }
    requires shape { IsTrue (has_shape (lent_rule rule)) }
    requires narrow { FitAtEach (λ x. rule_sizes (lent_rule rule) (filled (with_value open_var.now.var x (L.values open_var.now.lookup.now)))) widest domain.now }
    ensures size { length row.new ≡ length domain.now }
    ensures tells { IsTrue result → TellsFalse (lent_rule rule.entry) open_var.now.var domain.now (L.values open_var.now.lookup.now) row.new }
{
    if domain.is_empty() {
        return false;
    }
    let Some(opened) = open_sum(rule, domain, open_var) else {
        return false;
    };
    fill_sum(opened, domain, row);
    true
}

/// The sum with the variable open, if the rule is one with the variable in one of its terms at most.
fn open_sum<L: Lookup>(
    rule: RuleRef<'_>,
    domain: &Domain,
    open_var: &OpenVariable<'_, L>,
) -> Option<OpenSum>
    requires shape { IsTrue (has_shape (lent_rule rule)) }
    requires some { 0 < length domain.now }
    requires narrow { FitAtEach (λ x. rule_sizes (lent_rule rule) (filled (with_value open_var.now.var x (L.values open_var.now.lookup.now)))) widest domain.now }
    ensures off { IfSome result (λ opened. (x : ℤ) → is_off opened x ≡ is_false (lent_rule rule.entry) open_var.now.var (L.values open_var.now.lookup.now) x) }
    ensures fits { IfSome result (λ opened. FitAtEach (line_size opened.line) widest domain.now) }
    ensures some { IsTrue (not (is_plain (lent_rule rule.entry))) → IsTrue (has_span open_var.now.var (lent_rule rule.entry)) → IsTrue (is_line result) }
{
    let RuleRef::Sum {
        rel,
        coefs,
        terms,
        total,
        truth,
    } = rule
    else {
        return None;
    };
    let line = line_of(coefs, terms, domain, open_var)?;
    let total = known_value(total, open_var);
    let told = told_by(truth, open_var);
    Some(OpenSum {
        rel,
        line,
        total,
        told,
    })
}
