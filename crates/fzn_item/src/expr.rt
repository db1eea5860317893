//! Expressions.

ghost use Rattle.std.specs.Prelude.{◌<◌, length, IfOk};
ghost use Rattle.fzn_item.specs.Readers.{Reads};
ghost use Rattle.fzn_item.specs.Exprs.{IsLastExpr};

use crate::item::{Atom, Expr};
use crate::lists::{Form, list_of, skip_list};
use crate::single::{Stop, one_of};
use fzn_token::{Mark, Token, TokenKind};
use std::alloc::Global;

impl Form for Expr {
    ghost use Rattle.fzn_item.specs.Exprs.{IsExpr};

    ghost form = { IsExpr };

    fn read(alloc: Global, tokens: &[Token]) -> Result<(Expr, &[Token]), Stop> {
        match one_of(tokens, TokenKind::Mark(Mark::OpenBracket)) {
            Some((bracket, rest)) => {
                let (atoms, rest) = list_of::<Atom>(alloc, rest, Mark::CloseBracket)?;
                let at = bracket.from;
                Ok((Expr::List { at, atoms }, rest))
            }
            None => {
                let (one, rest) = Atom::read(alloc, tokens)?;
                Ok((Expr::One(one), rest))
            }
        }
    }

    fn skip(tokens: &[Token]) -> Option<&[Token]> {
        match one_of(tokens, TokenKind::Mark(Mark::OpenBracket)) {
            Some((_, rest)) => match skip_list::<Atom>(rest, Mark::CloseBracket) {
                Some((_, rest)) => Some(rest),
                None => None,
            },
            None => Atom::skip(tokens),
        }
    }
}

/// An expression, and the `;` that ends its item.
pub(crate) fn last_expr(alloc: Global, tokens: &[Token]) -> Result<(Expr, &[Token]), Stop>
    ensures reads { Reads IsLastExpr tokens.now result }
    ensures shorter { IfOk result (λ x. length x.1.now < length tokens.now) }
{
    let (what, rest) = Expr::read(alloc, tokens)?;
    let Some((_, rest)) = one_of(rest, TokenKind::Mark(Mark::Semicolon)) else {
        return Err(Stop::Unread);
    };
    Ok((what, rest))
}
