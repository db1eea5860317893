//! What single bytes are.

ghost use Rattle.std.specs.Prelude.{◌≡◌, ◌≤◌, ◌↔◌, ◌⊎◌, IsTrue};
ghost use Rattle.fzn_token.specs.Bytes.{is_name_byte, is_digit_in};

use crate::class::{Class, class_of};

/// Whether it is a letter or digit of ASCII or `_`.
#[inline(always)]
pub(crate) fn is_name_byte(byte: u8) -> bool
    ensures { result ≡ is_name_byte byte }
{
    matches!(class_of(byte), Class::Letter | Class::Digit)
}

/// Whether it is a digit in this base, as a letter in either case above 9.
pub(crate) fn is_digit(byte: u8, base: u32) -> bool
    requires at_least { 2 ≤ base }
    requires at_most { base ≤ 36 }
    ensures { result ≡ is_digit_in base byte }
{
    char::from(byte).is_digit(base)
}

/// Whether an exponent begins with it.
pub(crate) fn is_exponent_letter(byte: u8) -> bool
    ensures { IsTrue result ↔ ((byte ≡ 101) ⊎ (byte ≡ 69)) }
{
    byte == b'e' || byte == b'E'
}
