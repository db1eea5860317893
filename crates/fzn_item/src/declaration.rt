//! Parameters, variables and arrays of them.

ghost use Rattle.std.specs.Prelude.{◌≡◌, ◌<◌, ◌&&◌, length, IfOk, is_none};
ghost use Rattle.fzn_item.specs.Readers.{Reads};
ghost use Rattle.fzn_item.specs.Declarations.{RightSide, IsNamed, IsDeclaration, IsArray};

use crate::element::{Element, element_after, read_element};
use crate::expr::last_expr;
use crate::item::{Expr, Item};
use crate::marking::{annotations, range};
use crate::single::{Stop, one_of};
use fzn_token::{Mark, Token, TokenKind, Word};
use std::alloc::Global;

/// A declaration of no array, after its first word.
pub(crate) fn declaration<'t>(
    alloc: Global,
    text: &[u8],
    first: Token,
    tokens: &'t [Token],
) -> Result<(Item, &'t [Token]), Stop>
    ensures reads { Reads (IsDeclaration text.now first) tokens.now result }
    ensures shorter { IfOk result (λ x. length x.1.now < length tokens.now) }
{
    let (element, rest) = element_after(alloc, first.kind, tokens)?;
    let heading = Heading {
        at: first.from,
        index: None,
        element,
    };
    named(alloc, text, heading, rest)
}

/// A declaration of an array, after its first word.
pub(crate) fn array<'t>(
    alloc: Global,
    text: &[u8],
    first: Token,
    tokens: &'t [Token],
) -> Result<(Item, &'t [Token]), Stop>
    ensures reads { Reads (IsArray text.now first) tokens.now result }
    ensures shorter { IfOk result (λ x. length x.1.now < length tokens.now) }
{
    let Some((_, rest)) = one_of(tokens, TokenKind::Mark(Mark::OpenBracket)) else {
        return Err(Stop::Unread);
    };
    let Some((index, rest)) = range(rest) else {
        return Err(Stop::Unread);
    };
    let Some((_, rest)) = one_of(rest, TokenKind::Mark(Mark::CloseBracket)) else {
        return Err(Stop::Unread);
    };
    let Some((_, rest)) = one_of(rest, TokenKind::Word(Word::Of)) else {
        return Err(Stop::Unread);
    };
    let (element, rest) = read_element(alloc, rest)?;
    let heading = Heading {
        at: first.from,
        index: Some(index),
        element,
    };
    named(alloc, text, heading, rest)
}

/// What a declaration says before its `:`, and where its first word stands.
#[derive(Drop)]
struct Heading {
    at: u32,
    index: Option<(i64, i64)>,
    element: Element,
}

/// The `:`, the name, the annotations and the right side of a declaration.
fn named<'t>(
    alloc: Global,
    text: &[u8],
    heading: Heading,
    tokens: &'t [Token],
) -> Result<(Item, &'t [Token]), Stop>
    ensures reads { Reads (IsNamed text.now heading.at heading.index heading.element) tokens.now result }
    ensures shorter { IfOk result (λ x. length x.1.now < length tokens.now) }
{
    let Some((_, rest)) = one_of(tokens, TokenKind::Mark(Mark::Colon)) else {
        return Err(Stop::Unread);
    };
    let Some((name, rest)) = one_of(rest, TokenKind::Name) else {
        return Err(Stop::Unread);
    };
    let (marked, rest) = annotations(alloc, text, rest)?;
    let Heading { at, index, element } = heading;
    let optional = may_lack_right(&element, index);
    let (right, rest) = right_side(alloc, optional, rest)?;
    let Element { variable, base } = element;
    Ok((
        Item::Declare {
            at,
            variable,
            index,
            base,
            name_at: name.from,
            name_to: name.to,
            marked,
            right,
        },
        rest,
    ))
}

/// Whether what is declared may lack a right side: a variable that is no array.
fn may_lack_right(element: &Element, index: Option<(i64, i64)>) -> bool
    ensures { result ≡ (element.now.variable && is_none index) }
{
    element.variable && index.is_none()
}

/// The right side of a declaration, where it may be missing or not, and the `;`.
fn right_side(
    alloc: Global,
    optional: bool,
    tokens: &[Token],
) -> Result<(Option<Expr>, &[Token]), Stop>
    ensures reads { Reads (RightSide optional) tokens.now result }
    ensures shorter { IfOk result (λ x. length x.1.now < length tokens.now) }
{
    match one_of(tokens, TokenKind::Mark(Mark::Equals)) {
        Some((_, rest)) => {
            let (right, rest) = last_expr(alloc, rest)?;
            Ok((Some(right), rest))
        }
        None => {
            if !optional {
                return Err(Stop::Unread);
            }
            match one_of(tokens, TokenKind::Mark(Mark::Semicolon)) {
                Some((_, rest)) => Ok((None, rest)),
                None => Err(Stop::Unread),
            }
        }
    }
}
