//! Constraints that are lent from their tokens: their arguments are walked there, and no list of them is made.

ghost use Rattle.std.specs.Prelude.{◌<◌, length, IfOk, IfSome, MatchOption};
ghost use Rattle.fzn_token.specs.declared.token.Token.{Token};
ghost use Rattle.fzn_item.specs.Productions.{IsMark, Fails};
ghost use Rattle.fzn_item.specs.Readers.{Begins};
ghost use Rattle.fzn_item.specs.Exprs.{IsAtom, IsExpr};
ghost use Rattle.fzn_item.specs.Items.{IsConstraint, ItemAfter};
ghost use Rattle.fzn_item.specs.Lent.{ReadsAs, IsThatConstraint, StandsFor, GivesLent, GivesConstraint, IsLentExpr};

use crate::item::{Atom, Expr, Item};
use crate::lists::{Form, skip_list};
use crate::marking::annotations;
use crate::reading::item_after;
use crate::single::{Stop, one_of};
use dcsp_common::Memory;
use fzn_token::{Mark, ModelError, Refusal, Token, TokenKind, Word};
use std::alloc::Global;

/// The arguments of a constraint: so many expressions with commas between, and the `)` that closes them.
#[derive(Clone, Copy, Debug)]
pub struct LentArguments<'t> {
    /// The tokens behind the `(`.
    pub tokens: &'t [Token],
    /// How many expressions there are.
    pub count: usize,
}

/// A constraint with the name of its relation.
#[derive(Clone, Copy, Debug)]
pub struct LentConstraint<'t> {
    /// The place of the item's first byte.
    pub at: u32,
    /// The place of the name's first byte.
    pub name_at: u32,
    /// The place after the name's last byte.
    pub name_to: u32,
    pub arguments: LentArguments<'t>,
}

/// An item, where a constraint is lent.
#[derive(Debug, Drop)]
pub enum LentItem<'t> {
    Constraint(LentConstraint<'t>),
    /// Any item that is no constraint.
    Other(Item),
}

/// An expression, where a list is lent.
#[derive(Debug, Drop)]
pub enum LentExpr<'t> {
    /// One atom, and the tokens behind it.
    One { atom: Atom, behind: &'t [Token] },
    /// A list, the place of its bracket and the tokens behind that.
    List { at: u32, inside: &'t [Token] },
}

/// The next item of these tokens and the tokens behind it, as `next_item` gives it, but with a constraint lent.
pub fn next_lent<'t>(
    alloc: Global,
    text: &[u8],
    tokens: &'t [Token],
) -> Result<Option<(LentItem<'t>, &'t [Token])>, ModelError>
    ensures gives { GivesLent text.now tokens.now result }
    ensures shorter { IfOk result (λ next. IfSome next (λ x. length x.1.now < length tokens.now)) }
{
    let Some((first, rest)) = tokens.split_first() else {
        return Ok(None);
    };
    match lent_item(alloc, text, *first, rest) {
        Ok((item, rest)) => Ok(Some((item, rest))),
        Err(Stop::Unread) => Err(ModelError::Refused(Refusal::Syntax { at: first.from })),
        Err(Stop::Memory) => Err(ModelError::Memory),
    }
}

/// The constraint that these tokens begin with; `None` where their first word is another.
///
/// `Syntax` comes as from `next_lent`. Where most items are constraints, it spares each of them to be one of all items.
pub fn next_constraint<'t>(
    alloc: Global,
    text: &[u8],
    tokens: &'t [Token],
) -> Result<Option<LentConstraint<'t>>, ModelError>
    ensures { GivesConstraint text.now tokens.now result }
{
    let Some((first, rest)) = one_of(tokens, TokenKind::Word(Word::Constraint)) else {
        return Ok(None);
    };
    match lent_constraint(alloc, text, first, rest) {
        Ok((constraint, _)) => Ok(Some(constraint)),
        Err(Stop::Unread) => Err(ModelError::Refused(Refusal::Syntax { at: first.from })),
        Err(Stop::Memory) => Err(ModelError::Memory),
    }
}

/// An item, after its first word.
fn lent_item<'t>(
    alloc: Global,
    text: &[u8],
    first: Token,
    tokens: &'t [Token],
) -> Result<(LentItem<'t>, &'t [Token]), Stop>
    ensures reads { ReadsAs StandsFor (ItemAfter text.now first.kind first) tokens.now result }
    ensures shorter { IfOk result (λ x. length x.1.now < length tokens.now) }
{
    if first.kind == TokenKind::Word(Word::Constraint) {
        let (constraint, rest) = lent_constraint(alloc, text, first, tokens)?;
        return Ok((LentItem::Constraint(constraint), rest));
    }
    let (item, rest) = item_after(alloc, text, first, tokens)?;
    Ok((LentItem::Other(item), rest))
}

/// A constraint, after its first word.
#[inline(always)]
pub(crate) fn lent_constraint<'t>(
    alloc: Global,
    text: &[u8],
    first: Token,
    tokens: &'t [Token],
) -> Result<(LentConstraint<'t>, &'t [Token]), Stop>
    ensures reads { ReadsAs IsThatConstraint (IsConstraint text.now first) tokens.now result }
    ensures shorter { IfOk result (λ x. length x.1.now < length tokens.now) }
{
    let Some((name, rest)) = one_of(tokens, TokenKind::Name) else {
        return Err(Stop::Unread);
    };
    let Some((_, inside)) = one_of(rest, TokenKind::Mark(Mark::OpenParen)) else {
        return Err(Stop::Unread);
    };
    let Some((count, rest)) = skip_list::<Expr>(inside, Mark::CloseParen) else {
        return Err(Stop::Unread);
    };
    let (_, rest) = annotations(alloc, text, rest)?;
    let Some((_, rest)) = one_of(rest, TokenKind::Mark(Mark::Semicolon)) else {
        return Err(Stop::Unread);
    };
    let tokens = inside;
    let constraint = LentConstraint {
        at: first.from,
        name_at: name.from,
        name_to: name.to,
        arguments: LentArguments { tokens, count },
    };
    Ok((constraint, rest))
}

/// The expression that these tokens begin with. It is inlined where arguments are resolved: no atom goes through memory.
#[inline(always)]
pub fn next_expr(alloc: Global, tokens: &[Token]) -> Result<LentExpr<'_>, Memory>
    requires { Begins IsExpr tokens.now }
    ensures { IfOk result (IsLentExpr tokens.now) }
{
    match one_of(tokens, TokenKind::Mark(Mark::OpenBracket)) {
        Some((bracket, inside)) => {
            let at = bracket.from;
            Ok(LentExpr::List { at, inside })
        }
        None => {
            let (atom, behind) = next_atom(alloc, tokens)?;
            Ok(LentExpr::One { atom, behind })
        }
    }
}

/// The atom that these tokens begin with, and the tokens behind it.
#[inline(always)]
pub fn next_atom(alloc: Global, tokens: &[Token]) -> Result<(Atom, &[Token]), Memory>
    requires { Begins IsAtom tokens.now }
    ensures reads { IfOk result (λ x. IsAtom tokens.now x.0 x.1.now) }
    ensures shorter { IfOk result (λ x. length x.1.now < length tokens.now) }
{
    match Atom::read(alloc, tokens) {
        Ok((atom, behind)) => Ok((atom, behind)),
        Err(Stop::Memory) => Err(Memory),
        Err(Stop::Unread) => unreachable!(),
    }
}

/// The tokens behind this mark, where they begin with it.
pub fn after_mark(tokens: &[Token], mark: Mark) -> Option<&[Token]>
    ensures reads { MatchOption result (Fails (IsMark mark) tokens.now) (λ rest. (t : Token) × IsMark mark tokens.now t rest.now) }
    ensures shorter { IfSome result (λ rest. length rest.now < length tokens.now) }
{
    let (_, rest) = one_of(tokens, TokenKind::Mark(mark))?;
    Some(rest)
}
