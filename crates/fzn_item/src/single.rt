//! Single tokens.

ghost use Rattle.std.specs.Prelude.{◌≡◌, ◌+◌, length, IfSome, FitsSigned};
ghost use Rattle.std.specs.Int.{w64};
ghost use Rattle.fzn_item.specs.Productions.{OneOf, IsInteger};
ghost use Rattle.fzn_item.specs.Readers.{Finds};

use dcsp_common::Memory;
use fzn_token::{Token, TokenKind};

/// Why a reader gives nothing.
#[derive(Clone, Copy, Debug, PartialEq, Eq)]
pub(crate) enum Stop {
    /// The tokens do not begin with its form.
    Unread,
    /// Memory ran out.
    Memory,
}

impl<T: Drop> From<(T, Memory)> for Stop {
    ghost use Rattle.std.specs.Prelude.{◌≡◌};
    ghost use Rattle.fzn_item.specs.declared.single.Stop.TheVariants as stop;

    ghost from_gives = { λ _ e. e ≡ stop.Memory };

    fn from(_: (T, Memory)) -> Stop {
        Stop::Memory
    }
}

/// A token of this kind, and what follows it.
pub(crate) fn one_of(tokens: &[Token], kind: TokenKind) -> Option<(Token, &[Token])>
    ensures reads { Finds (OneOf kind) tokens.now result }
    ensures shorter { IfSome result (λ x. length x.1.now + 1 ≡ length tokens.now) }
{
    match tokens.split_first() {
        Some((first, rest)) if first.kind == kind => Some((*first, rest)),
        _ => None,
    }
}

/// An integer, and what follows it.
pub(crate) fn integer(tokens: &[Token]) -> Option<(i64, &[Token])>
    ensures reads { Finds IsInteger tokens.now result }
    ensures fits { IfSome result (λ x. FitsSigned w64 x.0) }
    ensures shorter { IfSome result (λ x. length x.1.now + 1 ≡ length tokens.now) }
{
    let (first, rest) = tokens.split_first()?;
    match first.kind {
        TokenKind::Whole(value) => Some((value, rest)),
        _ => None,
    }
}
