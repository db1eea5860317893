//! Words of 64 bits, of which a block of 64 places has one.

ghost use Rattle.std.specs.Prelude.{◌≡◌, ◌≢◌, ◌<◌, ◌≤◌, ◌+◌, ◌*◌, ◌/◌, ◌==◌, ℕ, IfSome, nat_lt, unwrap_or};
ghost use Rattle.std.specs.Int.{bit_at};

/// How many places a block has: those of one word.
pub const BLOCK: usize = 64;

/// The first bit of a block whose place is not before this one.
pub fn first_bit(block: usize, from: usize) -> usize
    requires { from / 64 ≤ block }
    ensures within { result < 64 }
    ensures from { from ≤ block * 64 + result }
    ensures first { (bit : ℕ) → from ≤ block * 64 + bit → result ≤ bit }
{
    if block == from / BLOCK {
        from % BLOCK
    } else {
        0
    }
}

/// The place of a bit in a block, if there are more places.
pub fn within(block: usize, bit: usize, size: usize) -> Option<usize>
    requires { block * 64 ≤ size }
    ensures is { IfSome result (λ place. (place ≡ block * 64 + bit) × (place < size)) }
    ensures before { (k : ℕ) → k < unwrap_or result size → (k < size) × (k < block * 64 + bit) }
{
    let first = block * BLOCK;
    if bit < size - first {
        Some(first + bit)
    } else {
        None
    }
}

/// The first bit, from this one on, at which two words differ.
pub fn next_bit(one: u64, other: u64, from: usize) -> Option<usize>
    requires { from < 64 }
    ensures within { IfSome result (λ bit. (from ≤ bit) × (bit < 64)) }
    ensures same { (bit : ℕ) → from ≤ bit → bit < unwrap_or result 64 → bit_at one bit ≡ bit_at other bit }
    ensures differs { IfSome result (λ bit. bit_at one bit ≢ bit_at other bit) }
{
    let rest = (one ^ other) >> from;
    if rest == 0 {
        None
    } else {
        Some(from + rest.trailing_zeros() as usize)
    }
}

/// The word of a block in which the bits of the places below this one are set.
pub fn low_word(block: usize, place: usize) -> u64
    ensures { (bit : ℕ) → bit < 64 → (bit_at result bit == 1) ≡ nat_lt (block * 64 + bit) place }
{
    let last = place / BLOCK;
    if block < last {
        u64::MAX
    } else if block == last {
        (1 << place % BLOCK) - 1
    } else {
        0
    }
}

/// The word with this bit set, or not.
pub fn with_bit(word: u64, bit: usize, mark: bool) -> u64
    requires { bit < 64 }
    ensures here { (bit_at result bit == 1) ≡ mark }
    ensures others { (other : ℕ) → other < 64 → other ≢ bit → bit_at result other ≡ bit_at word other }
{
    let mask = 1u64 << bit;
    if mark { word | mask } else { word & !mask }
}
