//! Digits, and the numbers that they spell.

ghost use Rattle.std.specs.Prelude.{◌<◌, ◌≤◌, ◌+◌, ◌^◌, ℕ, [], ◌∷◌, length, slice_range, MatchOption, FitsSigned};
ghost use Rattle.std.specs.Int.{w64};
ghost use Rattle.std.specs.Option.{SomeIff};
ghost use Rattle.std.specs.Str.Parse.{digits_value};
ghost use Rattle.fzn_token.specs.Bytes.{is_digit_in, IsWholeRun};
ghost use Rattle.fzn_token.specs.Numbers.{IsDigits, IsPrefixed, signed};

use crate::bytes::is_digit;

/// Where the digits end that begin here.
pub(crate) fn digits_end(text: &[u8], from: usize, base: u32) -> usize
    requires within { from ≤ length text.now }
    requires at_least { 2 ≤ base }
    requires at_most { base ≤ 36 }
    ensures { IsWholeRun (is_digit_in base) text.now from result }
{
    let mut at = from;
    while at < text.len() && is_digit(text[at], base) {
        at += 1;
    }
    at
}

/// Where the digits end that follow a `0` and this letter here; nothing where there are none.
pub(crate) fn prefixed_end(text: &[u8], from: usize, letter: u8, base: u32) -> Option<usize>
    requires within { from ≤ length text.now }
    requires at_least { 2 ≤ base }
    requires at_most { base ≤ 36 }
    ensures { MatchOption result
        ((k j : ℕ) → IsPrefixed (48 ∷ letter ∷ []) base text.now from k j → ⊥)
        (λ j. IsPrefixed (48 ∷ letter ∷ []) base text.now from (from + 2) j × IsWholeRun (is_digit_in base) text.now (from + 2) j) }
{
    if from + 2 < text.len() && text[from] == b'0' && text[from + 1] == letter {
        let end = digits_end(text, from + 2, base);
        if from + 2 < end { Some(end) } else { None }
    } else {
        None
    }
}

/// The number that these digits spell; nothing where it is 2^64 or more.
pub(crate) fn magnitude(text: &[u8], from: usize, to: usize, base: u32) -> Option<u64>
    requires digits { IsDigits base text.now from to }
    requires at_least { 2 ≤ base }
    requires at_most { base ≤ 36 }
    ensures { let n = digits_value base (slice_range text.now from to) in SomeIff result (n < 2 ^ 64) n }
{
    let mut n: u64 = 0;
    for b in &text[from..to] {
        let digit = char::from(*b).to_digit(base)?;
        n = n
            .checked_mul(u64::from(base))?
            .checked_add(u64::from(digit))?;
    }
    Some(n)
}

/// The number with its sign; nothing where it is outside the signed 64 bits.
pub(crate) fn with_sign(minus: bool, n: u64) -> Option<i64>
    ensures { SomeIff result (FitsSigned w64 (signed minus n)) (signed minus n) }
{
    if n < 1 << 63 {
        let z = n as i64;
        Some(if minus { -z } else { z })
    } else if minus && n == 1 << 63 {
        Some(i64::MIN)
    } else {
        None
    }
}
