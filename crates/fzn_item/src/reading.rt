//! From tokens to items, in one pass from the left.

ghost use Rattle.std.specs.Prelude.{◌<◌, ◌≤◌, length, IfOk, IfSome};
ghost use Rattle.fzn_item.specs.Readers.{Reads, Skips};
ghost use Rattle.fzn_item.specs.Items.{ToSemicolon, IsConstraint, GoalAfter, IsGoal, IsSolve, ItemAfter, IsItem, GivesNext, Answers, HasOneAnswer, ItemsEndAtSemicolons, ItemsStayRead, RefusalsStay};

use crate::declaration::{array, declaration};
use crate::expr::last_expr;
use crate::item::{Expr, Goal, Item, ItemList};
use crate::lent::lent_constraint;
use crate::lists::list_of;
use crate::marking::annotations;
use crate::single::{Stop, one_of};
use fzn_token::{Mark, ModelError, Refusal, Token, TokenKind, TokenList, Word};
use std::alloc::Global;

/// The items of the tokens of a text.
///
/// The tokens are cut after each `;`, and each piece is read by one production. `Syntax` comes exactly where some item
/// is read by none, a rest without `;` among them, and names the first byte of the first such item.
pub fn items(alloc: Global, text: &[u8], tokens: &TokenList) -> Result<ItemList, ModelError>
    ensures { Answers text.now tokens.now result }
{
    let mut list = ItemList::new(alloc);
    let mut rest = tokens.items();
    'items: while let Some((item, after)) = next_item(alloc, text, rest)? {
        list.push(item)?;
        rest = after;
    }
    Ok(list)
}

/// The next item of these tokens and the tokens behind it; `None` where no token is left.
///
/// `Syntax` comes exactly where no production reads the item, and names its first byte. So items can be taken
/// one after another, each let go before the next.
pub fn next_item<'t>(
    alloc: Global,
    text: &[u8],
    tokens: &'t [Token],
) -> Result<Option<(Item, &'t [Token])>, ModelError>
    ensures gives { GivesNext text.now tokens.now result }
    ensures shorter { IfOk result (λ next. IfSome next (λ x. length x.1.now < length tokens.now)) }
{
    let Some((first, _)) = tokens.split_first() else {
        return Ok(None);
    };
    match read_item(alloc, text, tokens) {
        Ok((item, rest)) => Ok(Some((item, rest))),
        Err(Stop::Unread) => Err(ModelError::Refused(Refusal::Syntax { at: first.from })),
        Err(Stop::Memory) => Err(ModelError::Memory),
    }
}

/// Tokens have one list of items or one refusal, want of memory aside.
pub fn one_answer()
    ensures { HasOneAnswer }
{}

/// An item is the tokens up to the first `;` and with it, so that items are the pieces that are cut after each `;`.
pub fn items_end_at_semicolons()
    ensures { ItemsEndAtSemicolons }
{}

/// What stands behind the first `;` changes nothing of what is read before it, so that items can be read
/// from the tokens up to the next `;` alone.
pub fn items_stay_read()
    ensures items { ItemsStayRead }
    ensures refusals { RefusalsStay }
{}

/// An item.
fn read_item<'t>(
    alloc: Global,
    text: &[u8],
    tokens: &'t [Token],
) -> Result<(Item, &'t [Token]), Stop>
    ensures reads { Reads (IsItem text.now) tokens.now result }
    ensures shorter { IfOk result (λ x. length x.1.now < length tokens.now) }
{
    match tokens.split_first() {
        Some((first, rest)) => item_after(alloc, text, *first, rest),
        None => Err(Stop::Unread),
    }
}

/// An item, after its first word.
pub(crate) fn item_after<'t>(
    alloc: Global,
    text: &[u8],
    first: Token,
    tokens: &'t [Token],
) -> Result<(Item, &'t [Token]), Stop>
    ensures reads { Reads (ItemAfter text.now first.kind first) tokens.now result }
    ensures shorter { IfOk result (λ x. length x.1.now < length tokens.now) }
{
    match first.kind {
        TokenKind::Word(word) => match word {
            Word::Predicate => match after_semicolon(tokens) {
                Some(rest) => Ok((Item::Predicate { at: first.from }, rest)),
                None => Err(Stop::Unread),
            },
            Word::Var | Word::Bool | Word::Int | Word::Float | Word::Set => {
                declaration(alloc, text, first, tokens)
            }
            Word::Array => array(alloc, text, first, tokens),
            Word::Constraint => constraint(alloc, text, first, tokens),
            Word::Solve => solve(alloc, text, first, tokens),
            _ => Err(Stop::Unread),
        },
        _ => Err(Stop::Unread),
    }
}

/// What follows the first `;`.
fn after_semicolon(tokens: &[Token]) -> Option<&[Token]>
    ensures reads { Skips ToSemicolon tokens.now result }
    ensures shorter { IfSome result (λ x. length x.now < length tokens.now) }
{
    let mut rest = tokens;
    while let Some((first, after)) = rest.split_first() {
        if first.kind == TokenKind::Mark(Mark::Semicolon) {
            return Some(after);
        }
        rest = after;
    }
    None
}

/// A constraint, after its first word.
fn constraint<'t>(
    alloc: Global,
    text: &[u8],
    first: Token,
    tokens: &'t [Token],
) -> Result<(Item, &'t [Token]), Stop>
    ensures reads { Reads (IsConstraint text.now first) tokens.now result }
    ensures shorter { IfOk result (λ x. length x.1.now < length tokens.now) }
{
    let (lent, rest) = lent_constraint(alloc, text, first, tokens)?;
    let (arguments, _) = list_of::<Expr>(alloc, lent.arguments.tokens, Mark::CloseParen)?;
    Ok((
        Item::Constraint {
            at: lent.at,
            name_at: lent.name_at,
            name_to: lent.name_to,
            arguments,
        },
        rest,
    ))
}

/// A solve item, after its first word.
fn solve<'t>(
    alloc: Global,
    text: &[u8],
    first: Token,
    tokens: &'t [Token],
) -> Result<(Item, &'t [Token]), Stop>
    ensures reads { Reads (IsSolve text.now first) tokens.now result }
    ensures shorter { IfOk result (λ x. length x.1.now < length tokens.now) }
{
    let (_, rest) = annotations(alloc, text, tokens)?;
    let (goal, rest) = read_goal(alloc, rest)?;
    let at = first.from;
    Ok((Item::Solve { at, goal }, rest))
}

/// A goal, and the `;` that ends its item.
fn read_goal(alloc: Global, tokens: &[Token]) -> Result<(Goal, &[Token]), Stop>
    ensures reads { Reads IsGoal tokens.now result }
    ensures shorter { IfOk result (λ x. length x.1.now < length tokens.now) }
{
    match tokens.split_first() {
        Some((first, rest)) => goal_after(alloc, *first, rest),
        None => Err(Stop::Unread),
    }
}

/// A goal whose word this is, and the `;` that ends its item.
fn goal_after(alloc: Global, word: Token, tokens: &[Token]) -> Result<(Goal, &[Token]), Stop>
    ensures reads { Reads (GoalAfter word.kind word) tokens.now result }
    ensures shorter { IfOk result (λ x. length x.1.now < length tokens.now) }
{
    let at = word.from;
    match word.kind {
        TokenKind::Word(word) => match word {
            Word::Satisfy => match one_of(tokens, TokenKind::Mark(Mark::Semicolon)) {
                Some((_, rest)) => Ok((Goal::Satisfy, rest)),
                None => Err(Stop::Unread),
            },
            Word::Minimize => {
                let (what, rest) = last_expr(alloc, tokens)?;
                Ok((Goal::Minimize { at, what }, rest))
            }
            Word::Maximize => {
                let (what, rest) = last_expr(alloc, tokens)?;
                Ok((Goal::Maximize { at, what }, rest))
            }
            _ => Err(Stop::Unread),
        },
        _ => Err(Stop::Unread),
    }
}
