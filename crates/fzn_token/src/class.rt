//! The classes of bytes, by a table.

ghost use Rattle.std.specs.Prelude.{◌≡◌};
ghost use Rattle.fzn_token.specs.Classes.{class_of};

use crate::token::Mark;

/// What a byte is between tokens, and where a token begins or goes on.
#[derive(Clone, Copy)]
pub(crate) enum Class {
    /// A letter of ASCII or `_`.
    Letter,
    /// A decimal digit.
    Digit,
    /// `-`
    Minus,
    /// `"`
    Quote,
    /// A space, a tab, a line feed or a carriage return.
    Blank,
    /// `%`
    Percent,
    /// `:` or `.`, each of which begins a mark of two bytes.
    Twin,
    /// A mark of one byte, which no longer mark begins with.
    Mark(Mark),
    /// Any other byte.
    Other,
}

use Class::{Blank, Digit, Letter, Minus, Other, Percent, Quote, Twin};

const ROUND: Class = Class::Mark(Mark::OpenParen);

const ROUND_END: Class = Class::Mark(Mark::CloseParen);

const COMMA: Class = Class::Mark(Mark::Comma);

const SEMICOLON: Class = Class::Mark(Mark::Semicolon);

const EQUALS: Class = Class::Mark(Mark::Equals);

const SQUARE: Class = Class::Mark(Mark::OpenBracket);

const SQUARE_END: Class = Class::Mark(Mark::CloseBracket);

const CURLY: Class = Class::Mark(Mark::OpenBrace);

const CURLY_END: Class = Class::Mark(Mark::CloseBrace);

/// The class of each byte.
static CLASSES: [Class; 256] = [
    Other, Other, Other, Other, Other, Other, Other, Other, Other, Blank, Blank, Other, Other,
    Blank, Other, Other, Other, Other, Other, Other, Other, Other, Other, Other, Other, Other,
    Other, Other, Other, Other, Other, Other, Blank, Other, Quote, Other, Other, Percent, Other,
    Other, ROUND, ROUND_END, Other, Other, COMMA, Minus, Twin, Other, Digit, Digit, Digit, Digit,
    Digit, Digit, Digit, Digit, Digit, Digit, Twin, SEMICOLON, Other, EQUALS, Other, Other, Other,
    Letter, Letter, Letter, Letter, Letter, Letter, Letter, Letter, Letter, Letter, Letter, Letter,
    Letter, Letter, Letter, Letter, Letter, Letter, Letter, Letter, Letter, Letter, Letter, Letter,
    Letter, Letter, SQUARE, Other, SQUARE_END, Other, Letter, Other, Letter, Letter, Letter,
    Letter, Letter, Letter, Letter, Letter, Letter, Letter, Letter, Letter, Letter, Letter, Letter,
    Letter, Letter, Letter, Letter, Letter, Letter, Letter, Letter, Letter, Letter, Letter, CURLY,
    Other, CURLY_END, Other, Other, Other, Other, Other, Other, Other, Other, Other, Other, Other,
    Other, Other, Other, Other, Other, Other, Other, Other, Other, Other, Other, Other, Other,
    Other, Other, Other, Other, Other, Other, Other, Other, Other, Other, Other, Other, Other,
    Other, Other, Other, Other, Other, Other, Other, Other, Other, Other, Other, Other, Other,
    Other, Other, Other, Other, Other, Other, Other, Other, Other, Other, Other, Other, Other,
    Other, Other, Other, Other, Other, Other, Other, Other, Other, Other, Other, Other, Other,
    Other, Other, Other, Other, Other, Other, Other, Other, Other, Other, Other, Other, Other,
    Other, Other, Other, Other, Other, Other, Other, Other, Other, Other, Other, Other, Other,
    Other, Other, Other, Other, Other, Other, Other, Other, Other, Other, Other, Other, Other,
    Other, Other, Other, Other, Other, Other, Other, Other, Other, Other, Other, Other, Other,
    Other, Other,
];

/// The class of a byte.
#[inline(always)]
pub(crate) fn class_of(byte: u8) -> Class
    ensures { result ≡ class_of byte }
{
    CLASSES[byte as usize]
}
