//! Integers and floats.

ghost use Rattle.std.specs.Prelude.{◌≡◌, ◌<◌, ◌≤◌, ◌+◌, ◌⊎◌, length, slice_index, slice_range, true, false};
ghost use Rattle.std.specs.Str.Parse.{digits_value};
ghost use Rattle.fzn_token.specs.Bytes.{is_digit_in, IsWholeRun};
ghost use Rattle.fzn_token.specs.Numbers.{IsSign, IsDigits, signed};
ghost use Rattle.fzn_token.specs.Tokens.{IsLongest};
ghost use Rattle.fzn_token.specs.Reading.{told, Reads};

use crate::digits::{digits_end, magnitude, prefixed_end, with_sign};
use crate::float::tail_end;
use crate::plain::plain_digits;
use crate::refusal::BadToken;
use crate::token::{Token, TokenKind};

/// The number that begins with the digit or `-` here.
#[inline(always)]
pub(crate) fn number_token(text: &[u8], at: usize) -> Result<Token, BadToken>
    requires small { length text.now ≤ 16777216 }
    requires within { at < length text.now }
    requires number { (is_digit_in 10 (slice_index text.now at) ≡ true) ⊎ (slice_index text.now at ≡ 45) }
    ensures { Reads text.now at (told result) }
{
    if text[at] == b'-' {
        signed_token(text, Sign { at, minus: true }, at + 1)
    } else {
        signed_token(text, Sign { at, minus: false }, at)
    }
}

/// The number with this sign, whose digits would begin here.
#[inline(always)]
fn signed_token(text: &[u8], sign: Sign, start: usize) -> Result<Token, BadToken>
    requires small { length text.now ≤ 16777216 }
    requires within { sign.at < length text.now }
    requires sign { IsSign sign.minus text.now sign.at start }
    requires number { sign.minus ≡ false → is_digit_in 10 (slice_index text.now start) ≡ true }
    ensures { Reads text.now sign.at (told result) }
{
    if let Some((end, n)) = plain_digits(text, start) {
        return valued_token(text, sign, end, n);
    }
    let end = digits_end(text, start, 10);
    if end == start {
        Err(BadToken::Lex { at: sign.at as u32 })
    } else {
        unsigned_token(text, sign, (start, end))
    }
}

/// Where a number begins, and whether it does with a `-`.
#[derive(Clone, Copy)]
struct Sign {
    at: usize,
    minus: bool,
}

/// The number with this sign, whose decimal digits are these.
#[inline(never)]
fn unsigned_token(text: &[u8], sign: Sign, digits: (usize, usize)) -> Result<Token, BadToken>
    requires small { length text.now ≤ 16777216 }
    requires within { sign.at < length text.now }
    requires sign { IsSign sign.minus text.now sign.at digits.0 }
    requires whole { IsWholeRun (is_digit_in 10) text.now digits.0 digits.1 }
    requires some { digits.0 < digits.1 }
    ensures { Reads text.now sign.at (told result) }
{
    let (start, end) = digits;
    match prefixed_end(text, start, b'x', 16) {
        Some(to) => integer_token(text, sign, (start + 2, to), 16),
        None => match prefixed_end(text, start, b'o', 8) {
            Some(to) => integer_token(text, sign, (start + 2, to), 8),
            None => match tail_end(text, end) {
                Some(to) => Ok(Token {
                    kind: TokenKind::Float,
                    from: sign.at as u32,
                    to: to as u32,
                }),
                None => integer_token(text, sign, digits, 10),
            },
        },
    }
}

/// The integer with this sign and these digits, which is the longest token where it begins.
fn integer_token(
    text: &[u8],
    sign: Sign,
    digits: (usize, usize),
    base: u32,
) -> Result<Token, BadToken>
    requires small { length text.now ≤ 16777216 }
    requires within { sign.at < length text.now }
    requires digits { IsDigits base text.now digits.0 digits.1 }
    requires at_least { 2 ≤ base }
    requires at_most { base ≤ 36 }
    requires longest { IsLongest (TokenKind.Whole (signed sign.minus (digits_value base (slice_range text.now digits.0 digits.1)))) text.now sign.at digits.1 }
    ensures { Reads text.now sign.at (told result) }
{
    match magnitude(text, digits.0, digits.1, base) {
        None => Err(BadToken::IntRange { at: sign.at as u32 }),
        Some(n) => valued_token(text, sign, digits.1, n),
    }
}

/// The integer with this sign and this value without it, which is the longest token where it begins.
#[inline(always)]
fn valued_token(text: &[u8], sign: Sign, to: usize, n: u64) -> Result<Token, BadToken>
    requires small { length text.now ≤ 16777216 }
    requires within { sign.at < length text.now }
    requires longest { IsLongest (TokenKind.Whole (signed sign.minus n)) text.now sign.at to }
    ensures { Reads text.now sign.at (told result) }
{
    let from = sign.at as u32;
    match with_sign(sign.minus, n) {
        None => Err(BadToken::IntRange { at: from }),
        Some(z) => Ok(Token {
            kind: TokenKind::Whole(z),
            from,
            to: to as u32,
        }),
    }
}
