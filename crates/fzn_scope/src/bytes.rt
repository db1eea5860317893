//! Bytes of names, eight at a time.

ghost use Rattle.std.specs.Prelude.{◌≡◌, ◌≤◌, ◌+◌, length};
ghost use Rattle.fzn_scope.specs.Variables.{number_at};

/// 2^64 over the golden ratio: a product with it has all bytes of a number in its upper bits.
const SPREAD: u64 = 0x9e37_79b9_7f4a_7c15;

/// Eight bytes from a place on, as a number.
#[inline(always)]
pub(crate) fn eight_at(name: &[u8], at: usize) -> u64
    requires { at + 8 ≤ length name.now }
    ensures { result ≡ number_at name.now at }
{
    match name[at..].first_chunk::<8>() {
        Some(bytes) => u64::from_le_bytes(*bytes),
        None => unreachable!(),
    }
}

/// A number whose upper bits tell numbers apart.
#[inline(always)]
pub(crate) fn spread(number: u64) -> u64 {
    number.wrapping_mul(SPREAD)
}
