//! The lines that tell why a model has no problem.

ghost use Rattle.std.specs.Prelude.{◌≡◌, ◌≤◌, ◌++◌, length, decimal, codes};
ghost use Rattle.abt_input.specs.ModelTexts.{which_text, place_text, reached_text, limit_text, refusal_text};

use crate::line::AnswerLine;
use fzn_model::{Refusal, Which};
use itoa::Buffer;

/// The line that tells why a model has no problem.
pub(crate) fn refusal_line(refusal: Refusal) -> AnswerLine
    ensures { result ≡ refusal_text refusal }
{
    match refusal {
        Refusal::Lex { at } => placed(b"abt: model: bad byte at ", at),
        Refusal::IntRange { at } => placed(b"abt: model: integer range at ", at),
        Refusal::Syntax { at } => placed(b"abt: model: syntax at ", at),
        Refusal::Misplaced { at } => placed(b"abt: model: misplaced at ", at),
        Refusal::Duplicate { at } => placed(b"abt: model: duplicate at ", at),
        Refusal::Undeclared { at } => placed(b"abt: model: undeclared at ", at),
        Refusal::Unbounded { at } => placed(b"abt: model: unbounded at ", at),
        Refusal::Unsupported { at } => placed(b"abt: model: unsupported at ", at),
        Refusal::UnknownConstraint { at } => { placed(b"abt: model: unknown constraint at ", at) }
        Refusal::IllTyped { at } => placed(b"abt: model: ill-typed at ", at),
        Refusal::OutputShape { at } => placed(b"abt: model: output shape at ", at),
        Refusal::WideSum { at } => placed(b"abt: model: wide sum at ", at),
        Refusal::Limit { which, count, at } => {
            limit_line(b"abt: model: limit ", which, count, at)
        }
        Refusal::NoSolve => AnswerLine::of(b"abt: model: no solve item\n"),
    }
}

/// A line that ends in a place.
pub(crate) fn placed(before: &[u8], at: u32) -> AnswerLine
    requires { length before.now ≤ 64 }
    ensures { result ≡ before.now ++ place_text at }
{
    AnswerLine::numbered(before, u64::from(at))
}

/// The line of these first bytes that tells which limit would be passed, and where.
pub(crate) fn limit_line(before: &[u8], which: Which, count: u128, at: u32) -> AnswerLine
    requires { length before.now ≤ 24 }
    ensures { result ≡ before.now ++ limit_text which count at }
{
    let (mut many, mut place) = (Buffer::new(), Buffer::new());
    AnswerLine::of(before)
        .with(which_name(which))
        .with(b" ")
        .with(many.format(count).as_bytes())
        .with(b" at ")
        .with(place.format(at).as_bytes())
        .with(b"\n")
}

/// The line of these first bytes that tells which limit would be passed.
pub(crate) fn reached_line(before: &[u8], which: Which, count: u128) -> AnswerLine
    requires { length before.now ≤ 24 }
    ensures { result ≡ before.now ++ reached_text which count ++ codes "\n" }
{
    let mut many = Buffer::new();
    AnswerLine::of(before)
        .with(which_name(which))
        .with(b" ")
        .with(many.format(count).as_bytes())
        .with(b"\n")
}

/// How what is limited is called.
fn which_name(which: Which) -> &'static [u8]
    ensures { result.now ≡ which_text which }
{
    match which {
        Which::DomainSize => b"domain-size",
        Which::Variables => b"variables",
        Which::DomainValues => b"domain-values",
        Which::Rules => b"rules",
        Which::Terms => b"terms",
        Which::Elements => b"elements",
    }
}
