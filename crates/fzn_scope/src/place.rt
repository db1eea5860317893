//! What expressions mean at the places that ask for them.

ghost use Rattle.std.specs.Prelude.{◌≡◌, ℕ, [], All, IfOk, option_copied};
ghost use Rattle.fzn_item.specs.declared.item.Expr.TheVariants as expr;
ghost use Rattle.dcsp_rule.specs.Rules.{IsTermOf};
ghost use Rattle.fzn_scope.specs.Arguments.{members_in};
ghost use Rattle.fzn_scope.specs.Known.{AreKnown};
ghost use Rattle.fzn_scope.specs.Checks.{Gives, Leaves};
ghost use Rattle.fzn_scope.specs.Names.{declared_as, bytes_at};
ghost use Rattle.fzn_scope.specs.Places.{truth_term, is_constant, wanted_term, term_named, term_of, one_of, terms_named, terms_after, list_of, count_named, count_of, set_named, set_of};

use crate::lists::{SetList, put_terms};
use crate::names::{Declared, Names, bytes_at};
use dcsp_problem::{Members, MembersRef, Term, TermList};
use fzn_item::{Atom, Expr};
use fzn_token::{ModelError, Refusal};
use std::alloc::Global;

/// What a place asks for: integers or Booleans, and whether they must be constants.
#[derive(Clone, Copy, Debug, PartialEq, Eq)]
pub struct Wanted {
    /// Whether it asks for Booleans and not for integers.
    pub boolean: bool,
    /// Whether a variable will not do.
    pub constant: bool,
}

/// A text with the names that it has declared so far.
#[derive(Clone, Copy)]
pub struct Context<'c, 't> {
    /// What lists are taken from.
    pub alloc: Global,
    pub text: &'c [u8],
    pub names: &'c Names<'t>,
}

/// The term of a truth: 1 for `true`, and 0 for `false`.
fn truth_term(value: bool) -> Term
    ensures { result ≡ truth_term value }
{
    if value {
        Term::Const(1)
    } else {
        Term::Const(0)
    }
}

fn is_constant(term: Term) -> bool
    ensures { result ≡ is_constant term }
{
    match term {
        Term::Const(_) => true,
        Term::Var(_) => false,
    }
}

/// The term, of a Boolean or of an integer, where it is what is wanted.
fn wanted_term(wanted: Wanted, at: u32, boolean: bool, term: Term) -> Result<Term, Refusal>
    ensures { result ≡ wanted_term wanted at boolean term }
{
    if boolean == wanted.boolean && (!wanted.constant || is_constant(term)) {
        Ok(term)
    } else {
        Err(Refusal::IllTyped { at })
    }
}

/// The term of a name that stands for this.
fn term_named(wanted: Wanted, at: u32, declared: Option<&Declared>) -> Result<Term, Refusal>
    ensures { result ≡ term_named wanted at (option_copied declared.entry) }
{
    match declared {
        None => Err(Refusal::Undeclared { at }),
        Some(Declared::One { boolean, term }) => wanted_term(wanted, at, *boolean, *term),
        Some(Declared::Set(_)) => Err(Refusal::IllTyped { at }),
        Some(Declared::Many { .. }) => Err(Refusal::IllTyped { at }),
    }
}

fn ill_typed(at: u32) -> ModelError
    ensures { result ≡ ModelError.Refused (Refusal.IllTyped at) }
{
    ModelError::Refused(Refusal::IllTyped { at })
}

/// Puts the terms of a name that stands for this in place of those in a list. An array of variables is none of
/// constants, whatever it holds.
fn put_array_named(
    terms: &mut Vec<Term>,
    wanted: Wanted,
    at: u32,
    declared: Option<&Declared>,
) -> Result<(), ModelError>
    ensures { Leaves terms.new.items result (terms_named wanted at (option_copied declared.entry)) }
{
    match declared {
        None => Err(ModelError::Refused(Refusal::Undeclared { at })),
        Some(
            Declared::Many {
                boolean,
                variable,
                terms: named,
            },
        ) => {
            if *boolean == wanted.boolean && (!wanted.constant || !*variable) {
                Ok(put_terms(terms, named.items())?)
            } else {
                Err(ill_typed(at))
            }
        }
        Some(Declared::One { .. }) => Err(ill_typed(at)),
        Some(Declared::Set(_)) => Err(ill_typed(at)),
    }
}

fn count_named(at: u32, declared: Option<&Declared>) -> Result<usize, Refusal>
    ensures { result ≡ count_named at (option_copied declared.entry) }
{
    match declared {
        None => Err(Refusal::Undeclared { at }),
        Some(Declared::Many { terms, .. }) => Ok(terms.len()),
        Some(Declared::One { .. }) => Err(Refusal::IllTyped { at }),
        Some(Declared::Set(_)) => Err(Refusal::IllTyped { at }),
    }
}

/// Puts the set of a name that stands for this in place of another.
fn put_set_named(set: &mut SetList, at: u32, declared: Option<&Declared>) -> Result<(), ModelError>
    ensures { Leaves (members_in set.new) result (set_named at (option_copied declared.entry)) }
{
    match declared {
        None => Err(ModelError::Refused(Refusal::Undeclared { at })),
        Some(Declared::Set(named)) => Ok(set.put(named.lent())?),
        Some(Declared::One { .. }) => Err(ill_typed(at)),
        Some(Declared::Many { .. }) => Err(ill_typed(at)),
    }
}

impl<'c, 't> Context<'c, 't> {
    /// What the name between these places stands for; `None` where it was not declared.
    #[inline(always)]
    fn named(self, from: u32, to: u32) -> Option<&'c Declared>
        ensures { option_copied result ≡ declared_as self.entry.names.now (bytes_at self.entry.text.now from to) }
    {
        self.names.get(bytes_at(self.text, from, to))
    }

    /// The term of the name between these places.
    #[inline(always)]
    fn term_of_name(self, wanted: Wanted, at: u32, to: u32) -> Result<Term, Refusal>
        ensures { result ≡ term_named wanted at (declared_as self.entry.names.now (bytes_at self.entry.text.now at to)) }
    {
        let name = bytes_at(self.text, at, to);
        match self.names.variable(name) {
            Some((boolean, term)) => wanted_term(wanted, at, boolean, term),
            None => term_named(wanted, at, self.names.get(name)),
        }
    }

    /// The term of an atom: a constant, or what a name stands for.
    ///
    /// `Undeclared` comes for a name that was not declared, and `IllTyped` for anything else that is not wanted,
    /// both at the atom's first byte.
    #[inline(always)]
    pub fn term_of(self, wanted: Wanted, atom: &Atom) -> Result<Term, Refusal>
        ensures { result ≡ term_of self.entry.text.now self.entry.names.now wanted atom.now }
    {
        match atom {
            Atom::Truth { at, value } => wanted_term(wanted, *at, true, truth_term(*value)),
            Atom::Whole { at, value } => wanted_term(wanted, *at, false, Term::Const(*value)),
            Atom::Name { at, to } => self.term_of_name(wanted, *at, *to),
            Atom::Float { at } | Atom::Range { at, .. } | Atom::Listed { at, .. } => {
                Err(Refusal::IllTyped { at: *at })
            }
        }
    }

    /// The term of an expression at a place that asks for one. It is refused as its atom is, and a list is
    /// `IllTyped` at its bracket.
    pub fn one_of(self, wanted: Wanted, expr: &Expr) -> Result<Term, Refusal>
        ensures is { result ≡ one_of self.entry.text.now self.entry.names.now wanted expr.now }
        ensures known { IfOk result (λ term. (variables : ℕ) → AreKnown variables self.entry.names.now →
            IsTermOf variables term) }
    {
        match expr {
            Expr::One(atom) => self.term_of(wanted, atom),
            Expr::List { at, .. } => Err(Refusal::IllTyped { at: *at }),
        }
    }

    /// The terms of atoms, from left to right.
    fn terms_of(self, wanted: Wanted, atoms: &[Atom]) -> Result<TermList, ModelError>
        ensures { Gives result (terms_after self.entry.text.now self.entry.names.now wanted [] atoms.now) }
    {
        let mut terms = Vec::with_capacity(self.alloc, atoms.len())?;
        for atom in atoms {
            terms.push(self.term_of(wanted, atom)?)?;
        }
        Ok(TermList::from_vec(terms))
    }

    /// Puts the terms of an array in place of those in a list, where the atom is the array's name.
    #[inline(always)]
    pub(crate) fn put_array(
        self,
        terms: &mut Vec<Term>,
        wanted: Wanted,
        atom: &Atom,
    ) -> Result<(), ModelError>
        ensures { Leaves terms.new.items result (list_of self.entry.text.now self.entry.names.now wanted (expr.One atom.now)) }
    {
        match atom {
            Atom::Name { at, to } => put_array_named(terms, wanted, *at, self.named(*at, *to)),
            Atom::Truth { at, .. }
            | Atom::Whole { at, .. }
            | Atom::Float { at }
            | Atom::Range { at, .. }
            | Atom::Listed { at, .. } => Err(ill_typed(*at)),
        }
    }

    /// The terms of an array whose name the atom is.
    fn array_of(self, wanted: Wanted, atom: &Atom) -> Result<TermList, ModelError>
        ensures { Gives result (list_of self.entry.text.now self.entry.names.now wanted (expr.One atom.now)) }
    {
        let mut terms = Vec::new(self.alloc);
        self.put_array(&mut terms, wanted, atom)?;
        Ok(TermList::from_vec(terms))
    }

    /// The terms of an expression at a place that asks for a list: a list of atoms, or the name of an array.
    ///
    /// A list is refused as the first of its atoms that is, from left to right. `Undeclared` comes for a name that
    /// was not declared, and `IllTyped` for any other atom and for an array that is not wanted, at the atom's first byte.
    pub fn list_of(self, wanted: Wanted, expr: &Expr) -> Result<TermList, ModelError>
        ensures gives { Gives result (list_of self.entry.text.now self.entry.names.now wanted expr.now) }
        ensures known { IfOk result (λ terms. (variables : ℕ) → AreKnown variables self.entry.names.now →
            All (IsTermOf variables) terms) }
    {
        match expr {
            Expr::List { atoms, .. } => self.terms_of(wanted, atoms.items()),
            Expr::One(atom) => self.array_of(wanted, atom),
        }
    }

    /// How many elements the right side of an array has, which is a list or the name of an array.
    ///
    /// `Undeclared` comes for a name that was not declared, and `IllTyped` for any other atom and for a name of no
    /// array, at the atom's first byte. The elements are not looked at.
    pub fn count_of(self, expr: &Expr) -> Result<usize, Refusal>
        ensures { result ≡ count_of self.entry.text.now self.entry.names.now expr.now }
    {
        let atom = match expr {
            Expr::List { atoms, .. } => return Ok(atoms.len()),
            Expr::One(atom) => atom,
        };
        match atom {
            Atom::Name { at, to } => count_named(*at, self.named(*at, *to)),
            Atom::Truth { at, .. }
            | Atom::Whole { at, .. }
            | Atom::Float { at }
            | Atom::Range { at, .. }
            | Atom::Listed { at, .. } => Err(Refusal::IllTyped { at: *at }),
        }
    }

    /// Puts the set of an atom in place of another: a range, a listed set as it is written, or a set's name.
    #[inline(always)]
    pub(crate) fn put_set(self, set: &mut SetList, atom: &Atom) -> Result<(), ModelError>
        ensures { Leaves (members_in set.new) result (set_of self.entry.text.now self.entry.names.now (expr.One atom.now)) }
    {
        match atom {
            Atom::Range { low, high, .. } => {
                let (low, high) = (*low, *high);
                Ok(set.put(MembersRef::Between { low, high })?)
            }
            Atom::Listed { values, .. } => Ok(set.put(MembersRef::Listed(values.items()))?),
            Atom::Name { at, to } => put_set_named(set, *at, self.named(*at, *to)),
            Atom::Truth { at, .. } | Atom::Whole { at, .. } | Atom::Float { at } => {
                Err(ill_typed(*at))
            }
        }
    }

    /// The set of an expression at a place that asks for one: a range, a listed set as it is written, or a set's name.
    ///
    /// `Undeclared` comes for a name that was not declared, and `IllTyped` for anything else, at the first byte.
    pub fn set_of(self, expr: &Expr) -> Result<Members, ModelError>
        ensures { Gives result (set_of self.entry.text.now self.entry.names.now expr.now) }
    {
        let atom = match expr {
            Expr::List { at, .. } => return Err(ill_typed(*at)),
            Expr::One(atom) => atom,
        };
        let mut set = SetList::new(self.alloc);
        self.put_set(&mut set, atom)?;
        Ok(set.into_members())
    }
}
