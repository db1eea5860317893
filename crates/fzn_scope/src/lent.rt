//! Arguments that are lent from the tokens of a constraint: each is resolved where it stands, from left to right.

ghost use Rattle.std.specs.Prelude.{◌≡◌, [], length};
ghost use Rattle.fzn_token.specs.declared.token.Mark.TheVariants as mark;
ghost use Rattle.fzn_item.specs.declared.item.Expr.TheVariants as expr;
ghost use Rattle.fzn_item.specs.Productions.{IsListOf};
ghost use Rattle.fzn_item.specs.Readers.{Begins};
ghost use Rattle.fzn_item.specs.Exprs.{IsAtom, IsExpr};
ghost use Rattle.fzn_item.specs.Lent.{IsLent};
ghost use Rattle.fzn_scope.specs.Arguments.{arguments_in};
ghost use Rattle.fzn_scope.specs.Places.{terms_after};
ghost use Rattle.fzn_scope.specs.Rules.{no_arguments, arguments_after};
ghost use Rattle.fzn_scope.specs.Lent.{argument_after, ForAtoms, ForExpr, ForArguments};

use crate::form::Place;
use crate::lists::ArgumentLists;
use crate::place::{Context, Wanted};
use dcsp_problem::Term;
use fzn_item::{LentArguments, LentExpr, after_mark, next_atom, next_expr};
use fzn_token::{Mark, ModelError, Refusal, Token};

impl<'c, 't> Context<'c, 't> {
    /// Puts the terms of a list's atoms, from left to right, in place of those in a list, and gives the tokens behind
    /// its bracket.
    fn put_atoms<'e>(
        self,
        terms: &mut Vec<Term>,
        wanted: Wanted,
        tokens: &'e [Token],
    ) -> Result<&'e [Token], ModelError>
        requires { Begins (IsListOf IsAtom mark.CloseBracket) tokens.now }
        ensures { ForAtoms tokens.now terms.new.items result
            (terms_after self.entry.text.now self.entry.names.now wanted []) }
    {
        terms.clear();
        if let Some(rest) = after_mark(tokens, Mark::CloseBracket) {
            return Ok(rest);
        }
        let mut rest = tokens;
        'atoms: loop {
            let (atom, after) = next_atom(self.alloc, rest)?;
            let term = self.term_of(wanted, &atom)?;
            terms.push(term)?;
            match after_mark(after, Mark::Comma) {
                Some(next) => rest = next,
                None => match after_mark(after, Mark::CloseBracket) {
                    Some(end) => return Ok(end),
                    None => unreachable!(),
                },
            }
        }
    }

    /// Adds an argument that is a list, whose bracket stands at a place, and gives the tokens behind it.
    fn add_list<'e>(
        self,
        done: &mut ArgumentLists,
        place: Place,
        at: u32,
        inside: &'e [Token],
    ) -> Result<&'e [Token], ModelError>
        requires { Begins (IsListOf IsAtom mark.CloseBracket) inside.now }
        ensures { ForAtoms inside.now (arguments_in done.new) result
            (λ atoms. argument_after self.entry done.old place (expr.List at atoms)) }
    {
        match place {
            Place::First(wanted) => self.put_atoms(&mut done.first, wanted, inside),
            Place::Second(wanted) => self.put_atoms(&mut done.second, wanted, inside),
            Place::Scalar { .. } => Err(ModelError::Refused(Refusal::IllTyped { at })),
            Place::Set => Err(ModelError::Refused(Refusal::IllTyped { at })),
        }
    }

    /// Adds the argument that these tokens begin with, and gives the tokens behind it.
    fn argument_at<'e>(
        self,
        done: &mut ArgumentLists,
        place: Place,
        tokens: &'e [Token],
    ) -> Result<&'e [Token], ModelError>
        requires { Begins IsExpr tokens.now }
        ensures { ForExpr tokens.now (arguments_in done.new) result (argument_after self.entry done.old place) }
    {
        let argument = next_expr(self.alloc, tokens)?;
        match argument {
            LentExpr::List { at, inside } => self.add_list(done, place, at, inside),
            LentExpr::One { atom, behind } => {
                self.add_atom(done, place, &atom)?;
                Ok(behind)
            }
        }
    }

    /// Puts the arguments at these places, from left to right, into the lists.
    pub(crate) fn put_arguments(
        self,
        done: &mut ArgumentLists,
        places: &[Place],
        arguments: LentArguments<'_>,
    ) -> Result<(), ModelError>
        requires lent { IsLent arguments }
        requires count { arguments.count ≡ length places.now }
        ensures { ForArguments arguments.entry (arguments_in done.new) result
            (arguments_after self.entry.text.now self.entry.names.now no_arguments places.now) }
    {
        done.clear();
        let mut rest = arguments.tokens;
        for place in places {
            let behind = self.argument_at(done, *place, rest)?;
            rest = match after_mark(behind, Mark::Comma) {
                Some(next) => next,
                None => behind,
            };
        }
        Ok(())
    }
}
