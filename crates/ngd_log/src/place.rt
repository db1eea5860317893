//! Bytes and numbers, written at a place of a room.
//!
//! A room and a place in it go from function to function, all inlined: so both stay in registers, and no byte is looked
//! at for room.
ghost use Rattle.std.specs.Prelude.{◌≡◌, ◌+◌, ◌/◌, ◌%◌, ◌<◌, ◌≤◌, [], ◌∷◌, ◌++◌, decimal, length, take, FitsSigned};
ghost use Rattle.std.specs.Int.{w64};
ghost use Rattle.std.specs.Fmt.{signed_decimal};

use itoa::Buffer;

/// The two digits of each number below 100.
static PAIRS: [u8; 200] =
    *b"00010203040506070809101112131415161718192021222324252627282930313233343536373839404142434445464748495051525354555657585960616263646566676869707172737475767778798081828384858687888990919293949596979899";

/// Writes a byte, and tells the place behind it.
#[inline(always)]
pub fn put(room: &mut [u8], at: usize, byte: u8) -> usize
    requires { at < length room.old }
    ensures place { result ≡ at + 1 }
    ensures text { take result room.new ≡ take at room.old ++ byte ∷ [] }
{
    room[at] = byte;
    at + 1
}

/// Writes a number below 100 in two digits, and tells the place behind it.
#[inline(always)]
fn put_pair(room: &mut [u8], at: usize, number: u64) -> usize
    requires number { number < 100 }
    requires room { at + 2 ≤ length room.old }
    ensures place { result ≡ at + 2 }
    ensures text { take result room.new ≡ take at room.old ++ (48 + number / 10) ∷ (48 + number % 10) ∷ [] }
{
    let from = number as usize * 2;
    let (tens, ones) = (PAIRS[from], PAIRS[from + 1]);
    let at = put(room, at, tens);
    put(room, at, ones)
}

/// Writes a number below 100 in decimal digits, and tells the place behind it.
#[inline(always)]
#[tactic(auto, using(std::proofs::lemmas::Fmt::decimal_digit, crate::proofs::Decimals::decimal_of_two))]
fn put_small(room: &mut [u8], at: usize, number: u64) -> usize
    requires number { number < 100 }
    requires room { at + 2 ≤ length room.old }
    ensures place { result ≤ at + 2 }
    ensures text { take result room.new ≡ take at room.old ++ decimal number }
{
    if number >= 10 {
        return put_pair(room, at, number);
    }
    put(room, at, b'0' + number as u8)
}

/// Writes a number below 10,000 in decimal digits, and tells the place behind it.
#[inline(always)]
#[tactic(auto, using(crate::proofs::Decimals::appended_by_twos))]
fn put_short(room: &mut [u8], at: usize, number: u64) -> usize
    requires number { number < 10_000 }
    requires room { at + 4 ≤ length room.old }
    ensures place { result ≤ at + 4 }
    ensures text { take result room.new ≡ take at room.old ++ decimal number }
{
    if number < 100 {
        return put_small(room, at, number);
    }
    let at = put_small(room, at, number / 100);
    put_pair(room, at, number % 100)
}

/// Writes a number in decimal digits, and tells the place behind it.
#[inline(always)]
#[tactic(auto, using(crate::proofs::Decimals::appended_by_twos))]
pub fn put_number(room: &mut [u8], at: usize, number: u64) -> usize
    requires { at + 20 ≤ length room.old }
    ensures place { result ≤ at + 20 }
    ensures text { take result room.new ≡ take at room.old ++ decimal number }
{
    if number < 100 {
        return put_small(room, at, number);
    }
    if number >= 1_000_000 {
        return put_long(room, at, number);
    }
    let at = put_short(room, at, number / 100);
    put_pair(room, at, number % 100)
}

/// The same for a number of any length.
#[inline(never)]
fn put_long(room: &mut [u8], at: usize, number: u64) -> usize
    requires { at + 20 ≤ length room.old }
    ensures place { result ≤ at + 20 }
    ensures text { take result room.new ≡ take at room.old ++ decimal number }
{
    let mut buffer = Buffer::new();
    put_all(room, at, buffer.format(number).as_bytes())
}

/// Writes these bytes, and tells the place behind them.
fn put_all(room: &mut [u8], at: usize, bytes: &[u8]) -> usize
    requires { at + length bytes.now ≤ length room.old }
    ensures place { result ≡ at + length bytes.now }
    ensures text { take result room.new ≡ take at room.old ++ bytes.now }
{
    let mut place = at;
    for byte in bytes {
        place = put(room, place, *byte);
    }
    place
}

/// Writes a value in decimal digits, after `-` where it is negative, and tells the place behind it.
#[inline(always)]
pub fn put_value(room: &mut [u8], at: usize, value: i64) -> usize
    requires { at + 21 ≤ length room.old }
    ensures place { result ≤ at + 21 }
    ensures value { FitsSigned w64 value }
    ensures text { take result room.new ≡ take at room.old ++ signed_decimal value }
{
    if value >= 0 {
        return put_number(room, at, value.unsigned_abs());
    }
    let at = put(room, at, b'-');
    put_number(room, at, value.unsigned_abs())
}
