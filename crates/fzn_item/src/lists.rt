//! Lists of forms with commas between.

ghost use Rattle.std.specs.Prelude.{◌≡◌, ◌≢◌, ◌<◌, List, length, IfOk, IfSome};
ghost use Rattle.fzn_token.specs.declared.token.Mark.TheVariants as mark;
ghost use Rattle.fzn_token.specs.declared.token.Token.{Token};
ghost use Rattle.fzn_item.specs.Productions.{Production, IsListOf};
ghost use Rattle.fzn_item.specs.Readers.{Reads, Passes, Counts};

use crate::single::{Stop, one_of};
use dcsp_common::ItemList;
use fzn_token::{Mark, Token, TokenKind};
use std::alloc::Global;

/// What stands in lists.
pub(crate) trait Form: Sized + Drop {
    /// Its production.
    ghost form: { Production Self };

    /// The form that the tokens begin with.
    fn read(alloc: Global, tokens: &[Token]) -> Result<(Self, &[Token]), Stop>
        ensures reads { Reads form tokens.now result }
        ensures shorter { IfOk result (λ x. length x.1.now < length tokens.now) };

    /// What follows the form that the tokens begin with.
    fn skip(tokens: &[Token]) -> Option<&[Token]>
        ensures passes { Passes form tokens.now result }
        ensures shorter { IfSome result (λ x. length x.now < length tokens.now) };
}

/// Any number of forms with commas between, and the mark that closes them.
pub(crate) fn list_of<F: Form>(
    alloc: Global,
    tokens: &[Token],
    close: Mark,
) -> Result<(ItemList<F>, &[Token]), Stop>
    requires unique { (ts : List Token) (v w : F) (r s : List Token) → F.form ts v r → F.form ts w s → (v ≡ w) × (r ≡ s) }
    requires closes { close ≢ mark.Comma }
    ensures reads { Reads (IsListOf F.form close) tokens.now result }
    ensures shorter { IfOk result (λ x. length x.1.now < length tokens.now) }
{
    let mut list = ItemList::new(alloc);
    if let Some((_, rest)) = one_of(tokens, TokenKind::Mark(close)) {
        return Ok((list, rest));
    }
    let mut rest = tokens;
    'forms: loop {
        let (value, after) = F::read(alloc, rest)?;
        list.push(value)?;
        match one_of(after, TokenKind::Mark(Mark::Comma)) {
            Some((_, next)) => rest = next,
            None => {
                let Some((_, end)) = one_of(after, TokenKind::Mark(close)) else {
                    return Err(Stop::Unread);
                };
                return Ok((list, end));
            }
        }
    }
}

/// How many forms a list has, and what follows the mark that closes it. Unlike `list_of` it keeps nothing.
pub(crate) fn skip_list<F: Form>(tokens: &[Token], close: Mark) -> Option<(usize, &[Token])>
    requires unique { (ts : List Token) (v w : F) (r s : List Token) → F.form ts v r → F.form ts w s → (v ≡ w) × (r ≡ s) }
    requires closes { close ≢ mark.Comma }
    ensures counts { Counts (IsListOf F.form close) tokens.now result }
    ensures shorter { IfSome result (λ x. length x.1.now < length tokens.now) }
{
    if let Some((_, rest)) = one_of(tokens, TokenKind::Mark(close)) {
        return Some((0, rest));
    }
    let mut count = 0;
    let mut rest = tokens;
    'forms: loop {
        let Some(after) = F::skip(rest) else {
            return None;
        };
        count += 1;
        match one_of(after, TokenKind::Mark(Mark::Comma)) {
            Some((_, next)) => rest = next,
            None => {
                let Some((_, end)) = one_of(after, TokenKind::Mark(close)) else {
                    return None;
                };
                return Some((count, end));
            }
        }
    }
}
