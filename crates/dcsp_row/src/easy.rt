//! Rules that rule out one run of values, or all values outside one, whatever is known.

ghost use Rattle.std.specs.Prelude.{◌≡◌, ◌<◌, IsTrue, length};
ghost use Rattle.dcsp_rule.specs.Problems.{rule_at};
ghost use Rattle.dcsp_rule.specs.Pairs.{is_comparison};
ghost use Rattle.dcsp_rule.specs.Rules.{has_shape};
ghost use Rattle.dcsp_rule.specs.Lent.{lent_rule};
ghost use Rattle.dcsp_row.specs.Easy.{has_span, is_once, is_truth, is_variable, own_coefs};

use dcsp_problem::{ConstraintKind, Problem, RuleRef, Term};

/// Whether the values of the variable that the rule rules out are always a run of its domain, or all values
/// outside one.
pub fn has_span(problem: &Problem, rule: u32, var: u32) -> bool
    requires { rule < length problem.now.rules }
    ensures { result ≡ has_span var (rule_at problem.now rule) }
{
    let _variables = problem.vars();
    is_easy(problem.rule(rule), var)
}

/// The same of the rule itself.
fn is_easy(rule: RuleRef<'_>, var: u32) -> bool
    requires { IsTrue (has_shape (lent_rule rule)) }
    ensures { result ≡ has_span var (lent_rule rule.entry) }
{
    match rule {
        RuleRef::Plain { kind, .. } => is_comparison(kind),
        RuleRef::Sum {
            coefs,
            terms,
            total,
            truth,
            ..
        } => { is_once_in(coefs, terms, var) && !is_variable(total, var) && !is_truth(truth, var) }
    }
}

/// Whether a constraint of this kind compares two numbers.
fn is_comparison(kind: ConstraintKind) -> bool
    ensures { result ≡ is_comparison kind }
{
    match kind {
        ConstraintKind::IntEq => true,
        ConstraintKind::IntNe => true,
        ConstraintKind::IntLe => true,
        ConstraintKind::IntLt => true,
        _ => false,
    }
}

/// Whether the variable is at most one of the terms.
fn is_once_in(coefs: &[i64], terms: &[Term], var: u32) -> bool
    requires { length coefs.now ≡ length terms.now }
    ensures { result ≡ is_once (own_coefs var coefs.now terms.now) }
{
    let mut found = false;
    for place in 0..coefs.len() {
        if !is_variable(terms[place], var) {
            continue;
        }
        if found {
            return false;
        }
        found = true;
    }
    true
}

/// Whether it is the variable that tells the truth of a sum.
fn is_truth(truth: Option<Term>, var: u32) -> bool
    ensures { result ≡ is_truth var truth }
{
    match truth {
        Some(term) => is_variable(term, var),
        None => false,
    }
}

/// Whether the term is the variable.
pub fn is_variable(term: Term, var: u32) -> bool
    ensures { result ≡ is_variable var term }
{
    match term {
        Term::Const(_) => false,
        Term::Var(other) => other == var,
    }
}
