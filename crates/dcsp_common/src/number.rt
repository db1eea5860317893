//! Numbers in decimal digits, read from the front of a text, and appended to one.
//!
//! Each call that reads gives the number and the bytes after it. They are inlined into the loops over a text's numbers,
//! so that no result goes through memory.

ghost use Rattle.std.specs.Prelude.{◌≡◌, ◌≤◌, ◌++◌, length, decimal, IfSome, OnOk};
ghost use Rattle.std.specs.Fmt.{signed_decimal};
ghost use Rattle.dcsp_common.specs.Reading.{Reads, digits_at, number_at};

use crate::list::Memory;
use itoa::Buffer;

/// Below this a number with one digit more has 64 bits too.
const SHORT: u64 = u64::MAX / 10;

/// The digits at the front, as a number.
#[tactic(auto, unfolding(crate::specs::Reading::digits_at))]
#[inline(always)]
pub fn digits_at(bytes: &[u8]) -> Option<(u64, &[u8])>
    ensures reads { Reads (λ x. (x.0, x.1.now)) result (digits_at 0 bytes.now) }
    ensures shorter { IfSome result (λ x. length x.1.now ≤ length bytes.now) }
{
    let mut number = 0u64;
    let mut rest = bytes;
    while let [byte, others @ ..] = rest {
        if !byte.is_ascii_digit() {
            break;
        }
        let digit = u64::from(byte - b'0');
        number = if number < SHORT {
            number * 10 + digit
        } else {
            number.checked_mul(10)?.checked_add(digit)?
        };
        rest = others;
    }
    Some((number, rest))
}

/// A number of 64 bits in decimal digits, without leading zeros.
#[tactic(auto, unfolding(crate::specs::Reading::number_at))]
#[inline(always)]
pub fn number_at(bytes: &[u8]) -> Option<(u64, &[u8])>
    ensures reads { Reads (λ x. (x.0, x.1.now)) result (number_at bytes.now) }
    ensures shorter { IfSome result (λ x. length x.1.now ≤ length bytes.now) }
{
    match bytes {
        [b'0', b'0'..=b'9', ..] => None,
        [b'0', rest @ ..] => Some((0, rest)),
        [b'1'..=b'9', ..] => digits_at(bytes),
        _ => None,
    }
}

/// Appends a number. After a refusal the text may have a part of it.
pub fn push_number(into: &mut Vec<u8>, number: u64) -> Result<(), Memory>
    ensures { OnOk result (into.new.items ≡ into.old.items ++ decimal number) }
{
    into.extend_from_slice(Buffer::new().format(number).as_bytes())
}

/// Appends a number, after `-` where it is negative. After a refusal the text may have a part of it.
pub fn push_signed(into: &mut Vec<u8>, number: i64) -> Result<(), Memory>
    ensures { OnOk result (into.new.items ≡ into.old.items ++ signed_decimal number) }
{
    into.extend_from_slice(Buffer::new().format(number).as_bytes())
}
