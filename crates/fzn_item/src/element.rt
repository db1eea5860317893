//! What is declared, and the base that its values are drawn from.

ghost use Rattle.std.specs.Prelude.{◌<◌, ◌≤◌, ◌≡◌, false, length, IfOk};
ghost use Rattle.fzn_item.specs.Readers.{Reads};
ghost use Rattle.fzn_item.specs.Elements.{SetAfter, IsSetElement, BaseAfter, IsBase, ElementAfter, IsElement};

use crate::item::Base;
use crate::lists::list_of;
use crate::single::{Stop, integer, one_of};
use fzn_token::{Mark, Token, TokenKind, Word};
use std::alloc::Global;

/// What is declared, without its name.
#[derive(Debug, Drop)]
pub(crate) struct Element {
    /// Whether it is a variable.
    pub variable: bool,
    /// What its values are drawn from.
    pub base: Base,
}

/// The type of a parameter, or `var` and a base.
pub(crate) fn read_element(alloc: Global, tokens: &[Token]) -> Result<(Element, &[Token]), Stop>
    ensures reads { Reads IsElement tokens.now result }
    ensures shorter { IfOk result (λ x. length x.1.now < length tokens.now) }
{
    match tokens.split_first() {
        Some((first, rest)) => element_after(alloc, first.kind, rest),
        None => Err(Stop::Unread),
    }
}

/// The type of a parameter, or `var` and a base, where the first token is of this kind.
pub(crate) fn element_after(
    alloc: Global,
    kind: TokenKind,
    tokens: &[Token],
) -> Result<(Element, &[Token]), Stop>
    ensures reads { Reads (ElementAfter kind) tokens.now result }
    ensures shorter { IfOk result (λ x. length x.1.now ≤ length tokens.now) }
{
    match kind {
        TokenKind::Word(word) => match word {
            Word::Var => {
                let (base, rest) = base(alloc, tokens)?;
                let variable = true;
                Ok((Element { variable, base }, rest))
            }
            Word::Bool => Ok((parameter(Base::Bool), tokens)),
            Word::Int => Ok((parameter(Base::Int), tokens)),
            Word::Float => Ok((parameter(Base::Float), tokens)),
            Word::Set => match one_of(tokens, TokenKind::Word(Word::Of)) {
                Some((_, rest)) => match one_of(rest, TokenKind::Word(Word::Int)) {
                    Some((_, rest)) => Ok((parameter(Base::Set), rest)),
                    None => Err(Stop::Unread),
                },
                None => Err(Stop::Unread),
            },
            _ => Err(Stop::Unread),
        },
        _ => Err(Stop::Unread),
    }
}

/// A parameter of this type.
fn parameter(base: Base) -> Element
    ensures variable { result.variable ≡ false }
    ensures base { result.base ≡ base }
{
    Element {
        variable: false,
        base,
    }
}

/// A base.
fn base(alloc: Global, tokens: &[Token]) -> Result<(Base, &[Token]), Stop>
    ensures reads { Reads IsBase tokens.now result }
    ensures shorter { IfOk result (λ x. length x.1.now < length tokens.now) }
{
    match tokens.split_first() {
        Some((first, rest)) => base_after(alloc, first.kind, rest),
        None => Err(Stop::Unread),
    }
}

/// A base whose first token is of this kind.
fn base_after(alloc: Global, kind: TokenKind, tokens: &[Token]) -> Result<(Base, &[Token]), Stop>
    ensures reads { Reads (BaseAfter kind) tokens.now result }
    ensures shorter { IfOk result (λ x. length x.1.now ≤ length tokens.now) }
{
    match kind {
        TokenKind::Word(word) => match word {
            Word::Bool => Ok((Base::Bool, tokens)),
            Word::Int => Ok((Base::Int, tokens)),
            Word::Float => Ok((Base::Float, tokens)),
            Word::Set => match one_of(tokens, TokenKind::Word(Word::Of)) {
                Some((_, rest)) => set_element(alloc, rest),
                None => Err(Stop::Unread),
            },
            _ => Err(Stop::Unread),
        },
        TokenKind::Whole(low) => match one_of(tokens, TokenKind::Mark(Mark::DotDot)) {
            Some((_, rest)) => match integer(rest) {
                Some((high, rest)) => Ok((Base::Range { low, high }, rest)),
                None => Err(Stop::Unread),
            },
            None => Err(Stop::Unread),
        },
        TokenKind::Float => match one_of(tokens, TokenKind::Mark(Mark::DotDot)) {
            Some((_, rest)) => match one_of(rest, TokenKind::Float) {
                Some((_, rest)) => Ok((Base::Float, rest)),
                None => Err(Stop::Unread),
            },
            None => Err(Stop::Unread),
        },
        TokenKind::Mark(mark) => match mark {
            Mark::OpenBrace => {
                let (values, rest) = list_of::<i64>(alloc, tokens, Mark::CloseBrace)?;
                Ok((Base::Listed(values), rest))
            }
            _ => Err(Stop::Unread),
        },
        _ => Err(Stop::Unread),
    }
}

/// What follows `set of` in a base.
fn set_element(alloc: Global, tokens: &[Token]) -> Result<(Base, &[Token]), Stop>
    ensures reads { Reads IsSetElement tokens.now result }
    ensures shorter { IfOk result (λ x. length x.1.now < length tokens.now) }
{
    match tokens.split_first() {
        Some((first, rest)) => set_after(alloc, first.kind, rest),
        None => Err(Stop::Unread),
    }
}

/// What follows `set of` in a base, where the first token is of this kind.
fn set_after(alloc: Global, kind: TokenKind, tokens: &[Token]) -> Result<(Base, &[Token]), Stop>
    ensures reads { Reads (SetAfter kind) tokens.now result }
    ensures shorter { IfOk result (λ x. length x.1.now ≤ length tokens.now) }
{
    match kind {
        TokenKind::Word(Word::Int) => Ok((Base::Set, tokens)),
        TokenKind::Whole(_) => match one_of(tokens, TokenKind::Mark(Mark::DotDot)) {
            Some((_, rest)) => match integer(rest) {
                Some((_, rest)) => Ok((Base::Set, rest)),
                None => Err(Stop::Unread),
            },
            None => Err(Stop::Unread),
        },
        TokenKind::Mark(mark) => match mark {
            Mark::OpenBrace => {
                let (_, rest) = list_of::<i64>(alloc, tokens, Mark::CloseBrace)?;
                Ok((Base::Set, rest))
            }
            _ => Err(Stop::Unread),
        },
        _ => Err(Stop::Unread),
    }
}
