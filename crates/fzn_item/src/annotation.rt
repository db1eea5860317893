//! Annotations that are read and have no effect.

ghost use Rattle.std.specs.Prelude.{◌≢◌, ◌<◌, ◌≤◌, length, IfSome};
ghost use Rattle.fzn_token.specs.declared.token.Mark.TheVariants as mark;
ghost use Rattle.fzn_item.specs.Productions.{IsAnyList};
ghost use Rattle.fzn_item.specs.Readers.{Skips};
ghost use Rattle.fzn_item.specs.Annotations.{NumberAfter, IsNumber, RangeEnd, FloatRangeEnd, Arguments, IsInner, InnerAfter};
ghost use Rattle.fzn_item.specs.Skipping.{IsSkipped};

use crate::single::{integer, one_of};
use fzn_token::{Mark, Token, TokenKind, Word};

/// What stands in a list that is read and has no effect.
#[derive(Clone, Copy)]
pub(crate) enum Skipped {
    /// Annotation expressions of at most this depth.
    Inner { depth: u32 },
    /// Integers and floats.
    Number,
}

/// What follows an annotation's name, where annotation expressions in it have at most this depth.
#[cycle(annotations)]
pub(crate) fn annotation_end(tokens: &[Token], depth: u32) -> Option<&[Token]>
    ensures reads { Skips (Arguments (IsInner depth)) tokens.now result }
    ensures shorter { IfSome result (λ x. length x.now ≤ length tokens.now) }
{
    match one_of(tokens, TokenKind::Mark(Mark::OpenParen)) {
        Some((_, inside)) => any_list(inside, Mark::CloseParen, Skipped::Inner { depth }),
        None => Some(tokens),
    }
}

/// Any number of forms with commas between, and the mark that closes them. Unlike `list_of` it keeps nothing.
#[cycle(annotations)]
pub(crate) fn any_list(tokens: &[Token], close: Mark, skipped: Skipped) -> Option<&[Token]>
    requires closes { close ≢ mark.Comma }
    ensures reads { Skips (IsAnyList (IsSkipped skipped) close) tokens.now result }
    ensures shorter { IfSome result (λ x. length x.now < length tokens.now) }
{
    if let Some((_, rest)) = one_of(tokens, TokenKind::Mark(close)) {
        return Some(rest);
    }
    let mut rest = tokens;
    'forms: loop {
        let Some(after) = form(rest, skipped) else {
            return None;
        };
        match one_of(after, TokenKind::Mark(Mark::Comma)) {
            Some((_, next)) => rest = next,
            None => {
                let Some((_, end)) = one_of(after, TokenKind::Mark(close)) else {
                    return None;
                };
                return Some(end);
            }
        }
    }
}

/// One form of such a list.
#[cycle(annotations)]
fn form(tokens: &[Token], skipped: Skipped) -> Option<&[Token]>
    ensures reads { Skips (IsSkipped skipped) tokens.now result }
    ensures shorter { IfSome result (λ x. length x.now < length tokens.now) }
{
    match skipped {
        Skipped::Inner { depth } => inner(tokens, depth),
        Skipped::Number => number(tokens),
    }
}

/// An annotation expression of at most this depth.
#[cycle(annotations)]
fn inner(tokens: &[Token], depth: u32) -> Option<&[Token]>
    ensures reads { Skips (IsInner depth) tokens.now result }
    ensures shorter { IfSome result (λ x. length x.now < length tokens.now) }
{
    if depth == 0 {
        return None;
    }
    let Some((first, rest)) = tokens.split_first() else {
        return None;
    };
    inner_after(*first, rest, depth - 1)
}

/// An annotation expression whose first token this is, where those in it have at most this depth.
#[cycle(annotations)]
fn inner_after(first: Token, tokens: &[Token], depth: u32) -> Option<&[Token]>
    ensures reads { Skips (InnerAfter (IsInner depth) first.kind) tokens.now result }
    ensures shorter { IfSome result (λ x. length x.now ≤ length tokens.now) }
{
    match first.kind {
        TokenKind::Name => annotation_end(tokens, depth),
        TokenKind::Word(Word::True) => Some(tokens),
        TokenKind::Word(Word::False) => Some(tokens),
        TokenKind::Whole(_) => range_end(tokens),
        TokenKind::Float => float_range_end(tokens),
        TokenKind::Text => Some(tokens),
        TokenKind::Mark(mark) => match mark {
            Mark::OpenBrace => any_list(tokens, Mark::CloseBrace, Skipped::Number),
            Mark::OpenBracket => any_list(tokens, Mark::CloseBracket, Skipped::Inner { depth }),
            _ => None,
        },
        _ => None,
    }
}

/// What follows an integer that may be a range's first.
fn range_end(tokens: &[Token]) -> Option<&[Token]>
    ensures reads { Skips RangeEnd tokens.now result }
    ensures shorter { IfSome result (λ x. length x.now ≤ length tokens.now) }
{
    match one_of(tokens, TokenKind::Mark(Mark::DotDot)) {
        Some((_, rest)) => match integer(rest) {
            Some((_, rest)) => Some(rest),
            None => None,
        },
        None => Some(tokens),
    }
}

/// What follows a float that may be a range's first.
fn float_range_end(tokens: &[Token]) -> Option<&[Token]>
    ensures reads { Skips FloatRangeEnd tokens.now result }
    ensures shorter { IfSome result (λ x. length x.now ≤ length tokens.now) }
{
    match one_of(tokens, TokenKind::Mark(Mark::DotDot)) {
        Some((_, rest)) => match one_of(rest, TokenKind::Float) {
            Some((_, rest)) => Some(rest),
            None => None,
        },
        None => Some(tokens),
    }
}

/// An integer or a float.
fn number(tokens: &[Token]) -> Option<&[Token]>
    ensures reads { Skips IsNumber tokens.now result }
    ensures shorter { IfSome result (λ x. length x.now < length tokens.now) }
{
    let (first, rest) = tokens.split_first()?;
    number_after(first.kind, rest)
}

/// An integer or a float, where the first token is of this kind.
fn number_after(kind: TokenKind, tokens: &[Token]) -> Option<&[Token]>
    ensures reads { Skips (NumberAfter kind) tokens.now result }
    ensures shorter { IfSome result (λ x. length x.now ≤ length tokens.now) }
{
    match kind {
        TokenKind::Whole(_) => Some(tokens),
        TokenKind::Float => Some(tokens),
        _ => None,
    }
}
