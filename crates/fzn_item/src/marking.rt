//! Annotations that say what is printed.

ghost use Rattle.std.specs.Prelude.{◌≡◌, ◌<◌, ◌≤◌, ◌+◌, length, IfOk, IfSome, FitsSigned};
ghost use Rattle.std.specs.Int.{w64};
ghost use Rattle.fzn_item.specs.Readers.{Reads, Finds};
ghost use Rattle.fzn_item.specs.Marks.{called, first_mark, IsRange, IsRangeArgument, ArrayEnd, MarkedEnd, IsMarkedAnnotation, AreAnnotations};

use crate::annotation::{Skipped, annotation_end, any_list};
use crate::item::Marked;
use crate::lists::{Form, list_of};
use crate::single::{Stop, integer, one_of};
use dcsp_domain::RangeList;
use fzn_token::{Mark, Token, TokenKind};
use std::alloc::Global;

/// How an annotation is called.
#[derive(Clone, Copy, Debug, PartialEq, Eq)]
pub(crate) enum Called {
    /// `output_var`
    OutputVar,
    /// `output_array`
    OutputArray,
    /// Any other name.
    Other,
}

/// Any number of annotations, each after a `::`, and what the first of them that is a mark says. Mostly there is none,
/// which is seen without a call.
#[inline(always)]
pub(crate) fn annotations<'t>(
    alloc: Global,
    text: &[u8],
    tokens: &'t [Token],
) -> Result<(Marked, &'t [Token]), Stop>
    ensures reads { Reads (AreAnnotations text.now) tokens.now result }
    ensures shorter { IfOk result (λ x. length x.1.now ≤ length tokens.now) }
{
    match one_of(tokens, TokenKind::Mark(Mark::ColonColon)) {
        Some(_) => some_annotations(alloc, text, tokens),
        None => Ok((Marked::Nothing, tokens)),
    }
}

/// The same, of which there may be many.
fn some_annotations<'t>(
    alloc: Global,
    text: &[u8],
    tokens: &'t [Token],
) -> Result<(Marked, &'t [Token]), Stop>
    ensures reads { Reads (AreAnnotations text.now) tokens.now result }
    ensures shorter { IfOk result (λ x. length x.1.now ≤ length tokens.now) }
{
    let mut marked = Marked::Nothing;
    let mut rest = tokens;
    while let Some((_, after)) = one_of(rest, TokenKind::Mark(Mark::ColonColon)) {
        let (next, after) = marked_annotation(alloc, text, after)?;
        marked = first_mark(marked, next);
        rest = after;
    }
    Ok((marked, rest))
}

/// The earlier mark, or the later one where the earlier says nothing.
fn first_mark(earlier: Marked, later: Marked) -> Marked
    ensures { result ≡ first_mark earlier later }
{
    match earlier {
        Marked::Nothing => later,
        decided => decided,
    }
}

/// An annotation, and what it says.
fn marked_annotation<'t>(
    alloc: Global,
    text: &[u8],
    tokens: &'t [Token],
) -> Result<(Marked, &'t [Token]), Stop>
    ensures reads { Reads (IsMarkedAnnotation text.now) tokens.now result }
    ensures shorter { IfOk result (λ x. length x.1.now < length tokens.now) }
{
    let Some((name, rest)) = one_of(tokens, TokenKind::Name) else {
        return Err(Stop::Unread);
    };
    marked_end(alloc, called_by(text, name), rest)
}

/// How the annotation with this name is called.
fn called_by(text: &[u8], name: Token) -> Called
    ensures { result ≡ called text.now name }
{
    let (from, to) = (name.from as usize, name.to as usize);
    if to < from || text.len() < to {
        return Called::Other;
    }
    let bytes = &text[from..to];
    if bytes == b"output_var".as_slice() {
        Called::OutputVar
    } else if bytes == b"output_array".as_slice() {
        Called::OutputArray
    } else {
        Called::Other
    }
}

/// What follows the name of an annotation that is called so, and what the annotation says.
fn marked_end(alloc: Global, called: Called, tokens: &[Token]) -> Result<(Marked, &[Token]), Stop>
    ensures reads { Reads (MarkedEnd called) tokens.now result }
    ensures shorter { IfOk result (λ x. length x.1.now ≤ length tokens.now) }
{
    match called {
        Called::OutputVar => match one_of(tokens, TokenKind::Mark(Mark::OpenParen)) {
            Some((_, inside)) => {
                match any_list(inside, Mark::CloseParen, Skipped::Inner { depth: 199 }) {
                    Some(rest) => Ok((Marked::Nothing, rest)),
                    None => Err(Stop::Unread),
                }
            }
            None => Ok((Marked::Variable, tokens)),
        },
        Called::OutputArray => array_end(alloc, tokens),
        Called::Other => match annotation_end(tokens, 199) {
            Some(rest) => Ok((Marked::Nothing, rest)),
            None => Err(Stop::Unread),
        },
    }
}

/// What follows `output_array`, and what the annotation says.
fn array_end(alloc: Global, tokens: &[Token]) -> Result<(Marked, &[Token]), Stop>
    ensures reads { Reads ArrayEnd tokens.now result }
    ensures shorter { IfOk result (λ x. length x.1.now ≤ length tokens.now) }
{
    match range_argument(alloc, tokens) {
        Ok((ranges, rest)) => Ok((Marked::Ranges(ranges), rest)),
        Err(Stop::Memory) => Err(Stop::Memory),
        Err(Stop::Unread) => match annotation_end(tokens, 199) {
            Some(rest) => Ok((Marked::Wrong, rest)),
            None => Err(Stop::Unread),
        },
    }
}

/// A list of ranges in parentheses.
fn range_argument(alloc: Global, tokens: &[Token]) -> Result<(RangeList, &[Token]), Stop>
    ensures reads { Reads IsRangeArgument tokens.now result }
    ensures shorter { IfOk result (λ x. length x.1.now ≤ length tokens.now) }
{
    let Some((_, rest)) = one_of(tokens, TokenKind::Mark(Mark::OpenParen)) else {
        return Err(Stop::Unread);
    };
    let Some((_, rest)) = one_of(rest, TokenKind::Mark(Mark::OpenBracket)) else {
        return Err(Stop::Unread);
    };
    let (ranges, rest) = list_of::<(i64, i64)>(alloc, rest, Mark::CloseBracket)?;
    let Some((_, rest)) = one_of(rest, TokenKind::Mark(Mark::CloseParen)) else {
        return Err(Stop::Unread);
    };
    Ok((ranges, rest))
}

/// Ranges of integers.
impl Form for (i64, i64) {
    ghost use Rattle.fzn_item.specs.Marks.{IsRange};

    ghost form = { IsRange };

    fn read(_alloc: Global, tokens: &[Token]) -> Result<((i64, i64), &[Token]), Stop> {
        range(tokens).ok_or(Stop::Unread)
    }

    fn skip(tokens: &[Token]) -> Option<&[Token]> {
        let (_, rest) = range(tokens)?;
        Some(rest)
    }
}

/// A range of integers.
pub(crate) fn range(tokens: &[Token]) -> Option<((i64, i64), &[Token])>
    ensures reads { Finds IsRange tokens.now result }
    ensures low { IfSome result (λ x. FitsSigned w64 x.0.0) }
    ensures high { IfSome result (λ x. FitsSigned w64 x.0.1) }
    ensures shorter { IfSome result (λ x. length x.1.now < length tokens.now) }
{
    let (low, rest) = integer(tokens)?;
    let (_, rest) = one_of(rest, TokenKind::Mark(Mark::DotDot))?;
    let (high, rest) = integer(rest)?;
    Some(((low, high), rest))
}
