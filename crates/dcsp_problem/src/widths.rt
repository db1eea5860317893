//! How wide a rule's sum may become.

ghost use Rattle.std.specs.Prelude.{◌≡◌, map, length, All, IsTrue, nat_lt, Some, None, if◌then◌else◌};
ghost use Rattle.dcsp_meaning.specs.Sums.{widest, width_of};
ghost use Rattle.dcsp_rule.specs.Rules.{IsTermOf, terms_of, has_shape};
ghost use Rattle.dcsp_rule.specs.Lent.{lent_rule};
ghost use Rattle.dcsp_rule.specs.Widths.{greatest_among, greatest_of, rule_width};
ghost use Rattle.dcsp_problem.specs.Limits.{Refuses};

use crate::limits::BuildError;
use dcsp_domain::Domain;
use dcsp_meaning::{WIDEST, plus_greatest};
use dcsp_rule::{RuleRef, Term};

/// Refuses a rule whose sum is too wide over these domains.
#[inline(always)]
pub fn within_width(domains: &[Domain], rule: RuleRef<'_>) -> Result<(), BuildError>
    requires known { All (IsTermOf (length domains.now)) (terms_of (lent_rule rule)) }
    requires shape { IsTrue (has_shape (lent_rule rule)) }
    ensures { Refuses (if nat_lt widest (rule_width domains.now (lent_rule rule.entry)) then Some BuildError.WideSum else None) result }
{
    match rule {
        RuleRef::Plain { .. } => Ok(()),
        RuleRef::Sum {
            coefs,
            terms,
            total,
            ..
        } => {
            let total = greatest_of(domains, total);
            if is_wide(domains, coefs, terms, total) {
                return Err(BuildError::WideSum);
            }
            Ok(())
        }
    }
}

/// Whether a sum's width is above the greatest that is allowed.
fn is_wide(domains: &[Domain], coefs: &[i64], terms: &[Term], total: u64) -> bool
    requires known { All (IsTermOf (length domains.now)) terms.now }
    requires shape { length coefs.now ≡ length terms.now }
    ensures { result ≡ nat_lt widest (width_of coefs.now (map (greatest_of domains.now) terms.now) total) }
{
    let mut width = u128::from(total);
    for place in 0..coefs.len() {
        let greatest = greatest_of(domains, terms[place]);
        width = plus_greatest(width, coefs[place], greatest);
        if width > WIDEST {
            return true;
        }
    }
    false
}

/// The greatest absolute value of a term: of a constant its own, of a variable the greatest over its domain.
fn greatest_of(domains: &[Domain], term: Term) -> u64
    requires { IsTermOf (length domains.now) term }
    ensures { result ≡ greatest_of domains.now term }
{
    match term {
        Term::Const(value) => value.unsigned_abs(),
        Term::Var(var) => greatest_in(&domains[var as usize]),
    }
}

/// The greatest absolute value in a domain, 0 if it is empty. It stands at one of the domain's ends.
fn greatest_in(domain: &Domain) -> u64
    ensures { result ≡ greatest_among domain.now }
{
    let count = domain.len();
    if count == 0 {
        return 0;
    }
    let lowest = domain.value(0).unsigned_abs();
    let highest = domain.value(count - 1).unsigned_abs();
    lowest.max(highest)
}
