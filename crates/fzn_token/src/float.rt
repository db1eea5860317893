//! What makes a number a float: a fraction, an exponent, or both in this order.

ghost use Rattle.std.specs.Prelude.{◌≡◌, ◌<◌, ◌≤◌, ◌+◌, ℕ, length, MatchOption};
ghost use Rattle.fzn_token.specs.Bytes.{is_digit_in, IsWholeRun};
ghost use Rattle.fzn_token.specs.Numbers.{IsDigits, IsTail, IsFraction, IsExponent, IsExponentSign};

use crate::bytes::is_exponent_letter;
use crate::digits::digits_end;

/// Where the longest fraction, exponent or both end that begin here.
pub(crate) fn tail_end(text: &[u8], from: usize) -> Option<usize>
    requires { from ≤ length text.now }
    ensures { MatchOption result
        ((j : ℕ) → IsTail text.now from j → ⊥)
        (λ j. IsTail text.now from j × ((other : ℕ) → IsTail text.now from other → other ≤ j)) }
{
    match fraction_end(text, from) {
        None => exponent_end(text, from),
        Some(middle) => match exponent_end(text, middle) {
            None => Some(middle),
            Some(end) => Some(end),
        },
    }
}

/// Where the longest fraction ends that begins here: a `.` and decimal digits.
fn fraction_end(text: &[u8], from: usize) -> Option<usize>
    requires { from ≤ length text.now }
    ensures { MatchOption result
        ((j : ℕ) → IsFraction text.now from j → ⊥)
        (λ j. IsFraction text.now from j × IsWholeRun (is_digit_in 10) text.now (from + 1) j) }
{
    if from + 1 < text.len() && text[from] == b'.' {
        let end = digits_end(text, from + 1, 10);
        if from + 1 < end { Some(end) } else { None }
    } else {
        None
    }
}

/// Where the longest exponent ends that begins here: `e` or `E`, an optional sign and decimal digits.
fn exponent_end(text: &[u8], from: usize) -> Option<usize>
    requires { from ≤ length text.now }
    ensures { MatchOption result
        ((j : ℕ) → IsExponent text.now from j → ⊥)
        (λ j. IsExponent text.now from j × ((other : ℕ) → IsExponent text.now from other → other ≤ j)) }
{
    if from + 1 < text.len() && is_exponent_letter(text[from]) {
        let start = exponent_digits(text, from + 1);
        let end = digits_end(text, start, 10);
        if start < end { Some(end) } else { None }
    } else {
        None
    }
}

/// Where the digits begin after an exponent's letter.
fn exponent_digits(text: &[u8], from: usize) -> usize
    requires { from < length text.now }
    ensures sign { IsExponentSign text.now from result }
    ensures only { (l j : ℕ) → IsExponentSign text.now from l → IsDigits 10 text.now l j → l ≡ result }
{
    if text[from] == b'+' {
        from + 1
    } else if text[from] == b'-' {
        from + 1
    } else {
        from
    }
}
