//! Why a text has no problem, and why reading it gave nothing.

use dcsp_common::{Memory, Which};
use std::alloc::AllocFailed;

/// Why a text has no problem: what is wrong, and where. `at` is a place of the text, in bytes from 0.
///
/// Tokens are refused as `Lex` and `IntRange`, and items as `Syntax`; the others are of what items mean.
#[derive(Clone, Copy, Debug, PartialEq, Eq)]
pub enum Refusal {
    /// No token begins at this place, which is no blank and in no comment.
    Lex { at: u32 },
    /// The longest token at this place is an integer below -2^63 or above 2^63 - 1.
    IntRange { at: u32 },
    /// The item that begins here is read by no production.
    Syntax { at: u32 },
    /// The item that begins here stands after the solve item, or is no constraint and stands after one.
    Misplaced { at: u32 },
    /// The name that is declared here was declared before.
    Duplicate { at: u32 },
    /// The name here is not declared.
    Undeclared { at: u32 },
    /// The variable whose item begins here has no bounds.
    Unbounded { at: u32 },
    /// The declaration that begins here is of floats or of sets that are no parameters.
    Unsupported { at: u32 },
    /// No constraint has the name here.
    UnknownConstraint { at: u32 },
    /// What stands here is not what its place asks for.
    IllTyped { at: u32 },
    /// The array declared here cannot be printed as its annotation says.
    OutputShape { at: u32 },
    /// The sum of the constraint named here is wider than 2^126.
    WideSum { at: u32 },
    /// With the item at this place there would be `count` of these, which is more than their greatest number.
    Limit { which: Which, count: u128, at: u32 },
    /// There is no solve item.
    NoSolve,
}

/// Why no token is read at a place. Each token is handed over with room for this, so it is small, as a refusal is not.
#[derive(Clone, Copy)]
pub(crate) enum BadToken {
    /// No token begins here.
    Lex { at: u32 },
    /// The longest token here is an integer outside 64 bits.
    IntRange { at: u32 },
}

/// Why reading a text gave nothing.
#[derive(Clone, Copy, Debug, PartialEq, Eq)]
pub enum ModelError {
    /// The text is refused.
    Refused(Refusal),
    /// Memory ran out.
    Memory,
}

impl From<Refusal> for ModelError {
    ghost use Rattle.std.specs.Prelude.{◌≡◌};
    ghost use Rattle.fzn_token.specs.declared.refusal.ModelError.TheVariants as errors;

    ghost from_gives = { λ refusal e. e ≡ errors.Refused refusal };

    fn from(refusal: Refusal) -> ModelError {
        ModelError::Refused(refusal)
    }
}

impl From<BadToken> for ModelError {
    ghost use Rattle.std.specs.Prelude.{◌≡◌};
    ghost use Rattle.fzn_token.specs.Reading.{refusal_of};
    ghost use Rattle.fzn_token.specs.declared.refusal.ModelError.TheVariants as errors;

    ghost from_gives = { λ bad e. e ≡ errors.Refused (refusal_of bad) };

    fn from(bad: BadToken) -> ModelError {
        match bad {
            BadToken::Lex { at } => ModelError::Refused(Refusal::Lex { at }),
            BadToken::IntRange { at } => ModelError::Refused(Refusal::IntRange { at }),
        }
    }
}

impl From<Memory> for ModelError {
    ghost use Rattle.std.specs.Prelude.{◌≡◌};
    ghost use Rattle.fzn_token.specs.declared.refusal.ModelError.TheVariants as errors;

    ghost from_gives = { λ _ e. e ≡ errors.Memory };

    fn from(_: Memory) -> ModelError {
        ModelError::Memory
    }
}

impl<T: Drop> From<(T, Memory)> for ModelError {
    ghost use Rattle.std.specs.Prelude.{◌≡◌};
    ghost use Rattle.fzn_token.specs.declared.refusal.ModelError.TheVariants as errors;

    ghost from_gives = { λ _ e. e ≡ errors.Memory };

    fn from(_: (T, Memory)) -> ModelError {
        ModelError::Memory
    }
}

impl<T: Drop> From<AllocFailed<T>> for ModelError {
    ghost use Rattle.std.specs.Prelude.{◌≡◌};
    ghost use Rattle.fzn_token.specs.declared.refusal.ModelError.TheVariants as errors;

    ghost from_gives = { λ _ e. e ≡ errors.Memory };

    fn from(_: AllocFailed<T>) -> ModelError {
        ModelError::Memory
    }
}
