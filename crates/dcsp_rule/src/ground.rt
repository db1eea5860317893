//! Rules under the values that a look-up gives.

ghost use Rattle.std.specs.Prelude.{◌≡◌, ◌≤◌, map, IsTrue};
ghost use Rattle.std.specs.Option.{option_map};
ghost use Rattle.dcsp_defs.specs.Csp.{filled};
ghost use Rattle.dcsp_meaning.specs.Sums.{widest};
ghost use Rattle.dcsp_rule.specs.Rules.{value_under, has_shape, weighted_values, is_told};
ghost use Rattle.dcsp_rule.specs.Lent.{lent_members, lent_rule};
ghost use Rattle.dcsp_rule.specs.Widths.{rule_sizes};
ghost use Rattle.dcsp_rule.specs.Forms.{form_has, found_truth, is_found_by};

use crate::form::Form;
use crate::lent::{MembersRef, RuleRef};
use crate::lookup::Lookup;
use crate::rule::Term;
use dcsp_meaning::{Ground, Rel, Weighted, holds, sum_holds};

/// A rule's terms, with the values that a look-up gives their variables, and its members.
struct GroundTerms<'a, L> {
    scalars: &'a [Term],
    first: &'a [Term],
    second: &'a [Term],
    members: MembersRef<'a>,
    /// It finds the listed members.
    form: &'a Form,
    lookup: &'a L,
}

impl<L> Drop for GroundTerms<'_, L> {
    fn drop(self) {
        let GroundTerms {
            scalars: _,
            first: _,
            second: _,
            members: _,
            form: _,
            lookup: _,
        } = self;
    }
}

impl<'a, L: Lookup> Ground for GroundTerms<'a, L> {
    ghost scalar_values = { λ g. map (value_under (filled (L.values g.lookup.now))) g.scalars.now };

    ghost first_values = { λ g. map (value_under (filled (L.values g.lookup.now))) g.first.now };

    ghost second_values = { λ g. map (value_under (filled (L.values g.lookup.now))) g.second.now };

    ghost is_member = { λ g. is_found_by (form_has g.form.now) (lent_members g.members) };

    fn scalars(&self) -> usize {
        self.scalars.len()
    }

    fn scalar(&self, place: usize) -> i64 {
        value_of_term(self.scalars[place], self.lookup)
    }

    fn first_len(&self) -> usize {
        self.first.len()
    }

    fn first(&self, place: usize) -> i64 {
        value_of_term(self.first[place], self.lookup)
    }

    fn second_len(&self) -> usize {
        self.second.len()
    }

    fn second(&self, place: usize) -> i64 {
        value_of_term(self.second[place], self.lookup)
    }

    fn member(&self, value: i64) -> bool {
        match self.members {
            MembersRef::Between { low, high } => low <= value && value <= high,
            MembersRef::Listed(_) => self.form.has(value),
        }
    }
}

/// The terms of a sum with their coefficients, and the values that a look-up gives their variables.
struct GroundSum<'a, L> {
    coefs: &'a [i64],
    terms: &'a [Term],
    lookup: &'a L,
}

impl<L> Drop for GroundSum<'_, L> {
    fn drop(self) {
        let GroundSum {
            coefs: _,
            terms: _,
            lookup: _,
        } = self;
    }
}

impl<'a, L: Lookup> Weighted for GroundSum<'a, L> {
    ghost pairs = { λ g. weighted_values (filled (L.values g.lookup.now)) g.coefs.now g.terms.now };

    fn count(&self) -> usize {
        self.coefs.len().min(self.terms.len())
    }

    fn coef(&self, place: usize) -> i64 {
        self.coefs[place]
    }

    fn value(&self, place: usize) -> i64 {
        value_of_term(self.terms[place], self.lookup)
    }
}

/// The term's value; a variable without a value counts as 0.
fn value_of_term<L: Lookup>(term: Term, lookup: &L) -> i64
    ensures { result ≡ value_under (filled (L.values lookup.now)) term }
{
    match term {
        Term::Const(value) => value,
        Term::Var(var) => lookup.value_of(var).unwrap_or(0),
    }
}

/// Whether the rule is true under the values that the look-up gives, where the form finds its listed members; a
/// variable without a value counts as 0.
pub fn is_true_under<L: Lookup>(rule: RuleRef<'_>, form: &Form, lookup: &L) -> bool
    requires shape { IsTrue (has_shape (lent_rule rule)) }
    requires narrow { rule_sizes (lent_rule rule) (filled (L.values lookup.now)) ≤ widest }
    ensures { result ≡ found_truth (form_has form.now) (lent_rule rule.entry) (filled (L.values lookup.now)) }
{
    match rule {
        RuleRef::Plain {
            kind,
            scalars,
            first,
            second,
            members,
        } => {
            let ground = GroundTerms {
                scalars,
                first,
                second,
                members,
                form,
                lookup,
            };
            holds(kind, &ground)
        }
        RuleRef::Sum {
            rel,
            coefs,
            terms,
            total,
            truth,
        } => {
            let ground = GroundSum {
                coefs,
                terms,
                lookup,
            };
            let total = value_of_term(total, lookup);
            is_told(truth, sum_holds(rel, &ground, total), lookup)
        }
    }
}

/// The truth itself; where a term tells it, whether that term's value tells it rightly.
fn is_told<L: Lookup>(truth: Option<Term>, holds: bool, lookup: &L) -> bool
    ensures { result ≡ is_told (option_map (value_under (filled (L.values lookup.now))) truth) holds }
{
    match truth {
        None => holds,
        Some(term) => holds == (value_of_term(term, lookup) == 1),
    }
}
