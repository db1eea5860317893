//! Fields of a text, read from left to right: each call gives a value and the bytes after it.
//!
//! They are inlined into the loops over a line's pairs and reasons, which are the time of reading a log: there no
//! result goes through memory.
ghost use Rattle.std.specs.Prelude.{◌≡◌, ℕ, ◌+◌, ◌<◌, ◌≤◌, ◌∷◌, [], length, IfSome};
ghost use Rattle.dcsp_common.specs.Reading.{Reads, digits_at, number_at};
ghost use Rattle.ngd_log.specs.Reading.{after, integer_at, counted_at, step_number_at, pair_at, reason_at};

use dcsp_defs::{Pair, Reason};

/// The greatest number of a variable.
pub(crate) const VARIABLES: u32 = 4096;

/// The greatest number of a rule.
pub(crate) const RULES: u32 = 262_144;

/// The greatest number of a step.
const STEPS: u64 = 1 << 62;

/// What stands after this text, where the bytes begin with it.
#[inline(always)]
pub fn after<'t>(text: &[u8], bytes: &'t [u8]) -> Option<&'t [u8]>
    ensures reads { Reads (λ x. x.now) result (after text.now bytes.now) }
    ensures shorter { IfSome result (λ x. length x.now + length text.now ≡ length bytes.now) }
{
    bytes.strip_prefix(text)
}

/// What stands after this byte, where the bytes begin with it.
#[tactic(auto, unfolding(crate::specs::Reading::after))]
#[inline(always)]
pub(crate) fn after_byte(byte: u8, bytes: &[u8]) -> Option<&[u8]>
    ensures reads { Reads (λ x. x.now) result (after (byte ∷ []) bytes.now) }
    ensures shorter { IfSome result (λ x. length x.now + 1 ≡ length bytes.now) }
{
    let [first, rest @ ..] = bytes else {
        return None;
    };
    if *first == byte { Some(rest) } else { None }
}

/// Below this a number with one digit more has 64 bits too.
const SHORT: u64 = u64::MAX / 10;

/// The number with this first digit and the digits at the front.
#[tactic(auto, unfolding(crate::specs::Reading::digits_at))]
#[inline(always)]
fn digits_after(digit: u64, bytes: &[u8]) -> Option<(u64, &[u8])>
    requires { digit < 10 }
    ensures reads { Reads (λ x. (x.0, x.1.now)) result (digits_at digit bytes.now) }
    ensures shorter { IfSome result (λ x. length x.1.now ≤ length bytes.now) }
{
    let mut number = digit;
    let mut rest = bytes;
    while let [byte, others @ ..] = rest {
        if !byte.is_ascii_digit() {
            break;
        }
        let digit = u64::from(byte - b'0');
        number = if number < SHORT {
            number * 10 + digit
        } else {
            number.checked_mul(10)?.checked_add(digit)?
        };
        rest = others;
    }
    Some((number, rest))
}

/// A number of 64 bits in decimal digits, without leading zeros. Its first digit is looked at once.
#[tactic(auto, unfolding(crate::specs::Reading::number_at, crate::specs::Reading::digits_at))]
#[inline(always)]
fn number_at(bytes: &[u8]) -> Option<(u64, &[u8])>
    ensures reads { Reads (λ x. (x.0, x.1.now)) result (number_at bytes.now) }
    ensures shorter { IfSome result (λ x. length x.1.now ≤ length bytes.now) }
{
    let (first, rest) = bytes.split_first()?;
    match *first {
        b'0' => match rest {
            [b'0'..=b'9', ..] => None,
            _ => Some((0, rest)),
        },
        b'1'..=b'9' => digits_after(u64::from(*first - b'0'), rest),
        _ => None,
    }
}

/// A signed number of 64 bits in decimal digits, without leading zeros and without `-0`.
#[tactic(auto, unfolding(crate::specs::Reading::integer_at, crate::specs::Reading::negative, crate::specs::Reading::plain))]
#[inline(always)]
pub fn integer_at(bytes: &[u8]) -> Option<(i64, &[u8])>
    ensures reads { Reads (λ x. (x.0, x.1.now)) result (integer_at bytes.now) }
    ensures shorter { IfSome result (λ x. length x.1.now ≤ length bytes.now) }
{
    match after_byte(b'-', bytes) {
        Some(unsigned) => {
            let (number, rest) = number_at(unsigned)?;
            if number == 0 {
                return None;
            }
            Some((0i64.checked_sub_unsigned(number)?, rest))
        }
        None => {
            let (number, rest) = number_at(bytes)?;
            if number > i64::MAX as u64 {
                return None;
            }
            Some((number as i64, rest))
        }
    }
}

/// A number from 1 to `most`, as a number counted from 0.
#[tactic(auto, unfolding(crate::specs::Reading::counted_at))]
#[inline(always)]
pub(crate) fn counted_at(bytes: &[u8], most: u32) -> Option<(u32, &[u8])>
    ensures reads { Reads (λ x. (x.0, x.1.now)) result (counted_at most bytes.now) }
    ensures shorter { IfSome result (λ x. length x.1.now ≤ length bytes.now) }
{
    let (number, rest) = number_at(bytes)?;
    if number == 0 || number > u64::from(most) {
        return None;
    }
    Some((number as u32 - 1, rest))
}

/// The number of a step.
#[tactic(auto, unfolding(crate::specs::Reading::step_number_at))]
#[inline(always)]
pub(crate) fn step_number_at(bytes: &[u8]) -> Option<(u64, &[u8])>
    ensures reads { Reads (λ x. (x.0, x.1.now)) result (step_number_at bytes.now) }
    ensures shorter { IfSome result (λ x. length x.1.now ≤ length bytes.now) }
{
    let (number, rest) = number_at(bytes)?;
    if number == 0 || number > STEPS {
        return None;
    }
    Some((number, rest))
}

/// A pair, as `v2=-7`.
#[tactic(auto, unfolding(crate::specs::Reading::pair_at))]
#[inline(always)]
pub(crate) fn pair_at(bytes: &[u8]) -> Option<(Pair, &[u8])>
    ensures reads { Reads (λ x. (x.0, x.1.now)) result (pair_at bytes.now) }
    ensures shorter { IfSome result (λ x. length x.1.now ≤ length bytes.now) }
{
    let rest = after_byte(b'v', bytes)?;
    let (var, rest) = counted_at(rest, VARIABLES)?;
    let rest = after_byte(b'=', rest)?;
    let (value, rest) = integer_at(rest)?;
    Some((Pair { var, value }, rest))
}

/// A reason, as `c2` or `n5`.
#[tactic(auto, unfolding(crate::specs::Reading::reason_at))]
#[inline(always)]
pub(crate) fn reason_at(bytes: &[u8]) -> Option<(Reason, &[u8])>
    ensures reads { Reads (λ x. (x.0, x.1.now)) result (reason_at bytes.now) }
    ensures shorter { IfSome result (λ x. length x.1.now ≤ length bytes.now) }
{
    match bytes {
        [b'c', rest @ ..] => {
            let (rule, rest) = counted_at(rest, RULES)?;
            Some((Reason::Rule(rule), rest))
        }
        [b'n', rest @ ..] => {
            let (step, rest) = step_number_at(rest)?;
            Some((Reason::Earlier(step), rest))
        }
        _ => None,
    }
}
