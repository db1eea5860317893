//! From a constraint's arguments to its rule.

ghost use Rattle.std.specs.Prelude.{◌≡◌, ℕ, List, All, IfOk, OnOk, IsTrue};
ghost use Rattle.fzn_item.specs.declared.item.Expr.{Expr};
ghost use Rattle.fzn_item.specs.declared.item.Expr.TheVariants as expr;
ghost use Rattle.fzn_item.specs.Lent.{AreArguments, IsLent};
ghost use Rattle.dcsp_meaning.specs.Table.{plain_of};
ghost use Rattle.dcsp_rule.specs.Lent.{lent_rule};
ghost use Rattle.dcsp_rule.specs.Rules.{IsTermOf, has_shape, terms_of};
ghost use Rattle.fzn_scope.specs.Arguments.{arguments_in};
ghost use Rattle.fzn_scope.specs.Known.{AreKnown};
ghost use Rattle.fzn_scope.specs.Lent.{argument_after, GivesRule};
ghost use Rattle.fzn_scope.specs.Checks.{Leaves};
ghost use Rattle.fzn_scope.specs.Rules.{rule_in, scalar_at, truth_of, rule_of, takes_rows, lengths_agree, form_at, constraint_rule};

use crate::form::{Form, Place};
use crate::lists::ArgumentLists;
use crate::place::{Context, Wanted};
use dcsp_common::Memory;
use dcsp_meaning::{ConstraintKind, is_table};
use dcsp_problem::{RuleRef, Term};
use fzn_item::{Atom, LentArguments};
use fzn_token::{ModelError, Refusal};

/// The scalar at a place, counted from 0.
fn scalar_at(lists: &ArgumentLists, place: usize) -> Term
    ensures { result ≡ scalar_at (arguments_in lists.now) place }
{
    match lists.scalars.get(place) {
        Some(term) => *term,
        None => Term::Const(0),
    }
}

/// The truth that a reified sum speaks of.
fn truth_of(reified: bool, lists: &ArgumentLists) -> Option<Term>
    ensures { result ≡ truth_of reified (arguments_in lists.now) }
{
    if reified {
        Some(scalar_at(lists, 1))
    } else {
        None
    }
}

/// The rule that the lists make, whose coefficients stand there.
fn lend(form: Form, lists: &ArgumentLists) -> RuleRef<'_>
    ensures { lent_rule result ≡ rule_in form lists.now }
{
    match form {
        Form::Plain(kind) => RuleRef::Plain {
            kind,
            scalars: &lists.scalars,
            first: &lists.first,
            second: &lists.second,
            members: lists.set.lent(),
        },
        Form::Sum { rel, reified, .. } => RuleRef::Sum {
            rel,
            coefs: &lists.coefs,
            terms: &lists.second,
            total: scalar_at(lists, 0),
            truth: truth_of(reified, lists),
        },
    }
}

/// Puts a sum's coefficients into their list.
fn put_coefs(form: Form, lists: &mut ArgumentLists) -> Result<(), Memory>
    ensures { OnOk result (rule_in form lists.new ≡ rule_of form (arguments_in lists.old)) }
{
    match form {
        Form::Plain(_) => Ok(()),
        Form::Sum { .. } => lists.put_coefs(),
    }
}

/// The rule that these arguments make.
fn rule_of(form: Form, lists: &mut ArgumentLists) -> Result<RuleRef<'_>, Memory>
    ensures { IfOk result (λ rule. lent_rule rule ≡ rule_of form (arguments_in lists.old)) }
{
    put_coefs(form, lists)?;
    Ok(lend(form, lists))
}

/// Whether a constraint of this kind takes a row and a table.
fn takes_rows(kind: ConstraintKind) -> bool
    ensures { result ≡ takes_rows (plain_of kind) }
{
    matches!(
        kind,
        ConstraintKind::FznTableInt
            | ConstraintKind::FznTableIntReif
            | ConstraintKind::FznTableBool
            | ConstraintKind::FznTableBoolReif
    )
}

/// Whether a table has whole rows that are as long as its row, which is not empty, and a sum as many coefficients as terms.
fn lengths_agree(form: Form, lists: &ArgumentLists) -> bool
    ensures { result ≡ lengths_agree form (arguments_in lists.now) }
{
    match form {
        Form::Plain(kind) => !takes_rows(kind) || is_table(lists.first.len(), lists.second.len()),
        Form::Sum { .. } => lists.first.len() == lists.second.len(),
    }
}

fn form_at(at: u32, name: &[u8]) -> Result<Form, Refusal>
    ensures { result ≡ form_at at name.now }
{
    match Form::from_name(name) {
        Some(form) => Ok(form),
        None => Err(Refusal::UnknownConstraint { at }),
    }
}

impl<'c, 't> Context<'c, 't> {
    /// Adds an argument of one atom, at a place that asks for it.
    pub(crate) fn add_atom(
        self,
        done: &mut ArgumentLists,
        place: Place,
        atom: &Atom,
    ) -> Result<(), ModelError>
        ensures { Leaves (arguments_in done.new) result (argument_after self.entry done.old place (expr.One atom.now)) }
    {
        match place {
            Place::Scalar { boolean } => {
                let wanted = Wanted {
                    boolean,
                    constant: false,
                };
                done.scalars.push(self.term_of(wanted, atom)?)?;
                Ok(())
            }
            Place::First(wanted) => self.put_array(&mut done.first, wanted, atom),
            Place::Second(wanted) => self.put_array(&mut done.second, wanted, atom),
            Place::Set => self.put_set(&mut done.set, atom),
        }
    }

    /// The rule of a constraint whose name stands at a place, lent from the lists that its arguments are read into.
    ///
    /// `UnknownConstraint` comes for a name that no constraint has, and `IllTyped` for a wrong number of arguments
    /// and for lists whose lengths do not agree, all three at the name: a sum has as many coefficients as terms, and a
    /// table whole rows that are as long as its row, which is not empty. Between them come the refusals of the
    /// arguments, from left to right. What the lists held before does not count.
    pub fn constraint_rule<'l>(
        self,
        lists: &'l mut ArgumentLists,
        at: u32,
        name: &[u8],
        arguments: LentArguments<'_>,
    ) -> Result<RuleRef<'l>, ModelError>
        requires { IsLent arguments }
        ensures gives { (exprs : List Expr) → AreArguments arguments.entry exprs →
            GivesRule result (constraint_rule self.entry.text.now self.entry.names.now at name.now exprs) }
        ensures shape { IfOk result (λ rule. IsTrue (has_shape (lent_rule rule))) }
        ensures known { IfOk result (λ rule. (variables : ℕ) → AreKnown variables self.entry.names.now →
            All (IsTermOf variables) (terms_of (lent_rule rule))) }
    {
        self.checked_rule(lists, at, name, arguments)
    }

    #[tactic(auto, unfolding(crate::specs::Rules::constraint_rule))]
    fn checked_rule<'l>(
        self,
        lists: &'l mut ArgumentLists,
        at: u32,
        name: &[u8],
        arguments: LentArguments<'_>,
    ) -> Result<RuleRef<'l>, ModelError>
        requires { IsLent arguments }
        ensures { (exprs : List Expr) → AreArguments arguments.entry exprs →
            GivesRule result (constraint_rule self.entry.text.now self.entry.names.now at name.now exprs) }
    {
        let form = form_at(at, name)?;
        let places = form.places(arguments.count);
        if arguments.count != places.len() {
            return Err(ModelError::Refused(Refusal::IllTyped { at }));
        }
        self.put_arguments(lists, places, arguments)?;
        if !lengths_agree(form, lists) {
            return Err(ModelError::Refused(Refusal::IllTyped { at }));
        }
        Ok(rule_of(form, lists)?)
    }
}
