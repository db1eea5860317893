//! Atoms.
ghost use Rattle.std.specs.Prelude.{◌≢◌, ◌≤◌, length, IfOk, IfSome};
ghost use Rattle.fzn_item.specs.Readers.{Reads, Passes};
ghost use Rattle.fzn_item.specs.Exprs.{AtomAfter};

use crate::item::Atom;
use crate::lists::{Form, list_of, skip_list};
use crate::single::{Stop, integer, one_of};
use fzn_token::{Mark, Token, TokenKind, Word};
use std::alloc::Global;

impl Form for Atom {
    ghost use Rattle.fzn_item.specs.Exprs.{IsAtom};

    ghost form = { IsAtom };

    #[inline(always)]
    fn read(alloc: Global, tokens: &[Token]) -> Result<(Atom, &[Token]), Stop> {
        match tokens.split_first() {
            Some((first, rest)) => atom_after(alloc, *first, rest),
            None => Err(Stop::Unread),
        }
    }

    fn skip(tokens: &[Token]) -> Option<&[Token]> {
        let (first, rest) = tokens.split_first()?;
        skip_after(*first, rest)
    }
}

/// Integers of listed sets.
impl Form for i64 {
    ghost use Rattle.fzn_item.specs.Productions.{IsInteger};

    ghost form = { IsInteger };

    fn read(_alloc: Global, tokens: &[Token]) -> Result<(i64, &[Token]), Stop> {
        integer(tokens).ok_or(Stop::Unread)
    }

    fn skip(tokens: &[Token]) -> Option<&[Token]> {
        let (_, rest) = integer(tokens)?;
        Some(rest)
    }
}

/// An atom whose first token this is. Most are names, which are read without a call.
#[inline(always)]
fn atom_after(alloc: Global, first: Token, tokens: &[Token]) -> Result<(Atom, &[Token]), Stop>
    ensures reads { Reads (AtomAfter first.kind first) tokens.now result }
    ensures shorter { IfOk result (λ x. length x.1.now ≤ length tokens.now) }
{
    match first.kind {
        TokenKind::Name => Ok((
            Atom::Name {
                at: first.from,
                to: first.to,
            },
            tokens,
        )),
        _ => other_after(alloc, first, tokens),
    }
}

/// An atom whose first token this is, which is no name.
fn other_after(alloc: Global, first: Token, tokens: &[Token]) -> Result<(Atom, &[Token]), Stop>
    requires other { first.kind ≢ TokenKind.Name }
    ensures reads { Reads (AtomAfter first.kind first) tokens.now result }
    ensures shorter { IfOk result (λ x. length x.1.now ≤ length tokens.now) }
{
    let at = first.from;
    match first.kind {
        TokenKind::Word(Word::True) => Ok((Atom::Truth { at, value: true }, tokens)),
        TokenKind::Word(Word::False) => Ok((Atom::Truth { at, value: false }, tokens)),
        TokenKind::Whole(low) => match one_of(tokens, TokenKind::Mark(Mark::DotDot)) {
            Some((_, rest)) => match integer(rest) {
                Some((high, rest)) => Ok((Atom::Range { at, low, high }, rest)),
                None => Err(Stop::Unread),
            },
            None => Ok((Atom::Whole { at, value: low }, tokens)),
        },
        TokenKind::Float => Ok((Atom::Float { at }, tokens)),
        TokenKind::Mark(mark) => match mark {
            Mark::OpenBrace => {
                let (values, rest) = list_of::<i64>(alloc, tokens, Mark::CloseBrace)?;
                Ok((Atom::Listed { at, values }, rest))
            }
            _ => Err(Stop::Unread),
        },
        _ => Err(Stop::Unread),
    }
}

/// What follows an atom whose first token this is.
fn skip_after(first: Token, tokens: &[Token]) -> Option<&[Token]>
    ensures passes { Passes (AtomAfter first.kind first) tokens.now result }
    ensures shorter { IfSome result (λ x. length x.now ≤ length tokens.now) }
{
    match first.kind {
        TokenKind::Name => Some(tokens),
        TokenKind::Float => Some(tokens),
        TokenKind::Word(word) => match word {
            Word::True => Some(tokens),
            Word::False => Some(tokens),
            _ => None,
        },
        TokenKind::Whole(_) => match one_of(tokens, TokenKind::Mark(Mark::DotDot)) {
            Some((_, rest)) => match integer(rest) {
                Some((_, rest)) => Some(rest),
                None => None,
            },
            None => Some(tokens),
        },
        TokenKind::Mark(mark) => match mark {
            Mark::OpenBrace => match skip_list::<i64>(tokens, Mark::CloseBrace) {
                Some((_, rest)) => Some(rest),
                None => None,
            },
            _ => None,
        },
        _ => None,
    }
}
