//! Linear constraints: sums of coefficients times values, each exact in 128 bits, as the MiniZinc Handbook's
//! chapter on FlatZinc lists them (`int_lin_eq`, `int_lin_le`, `int_lin_ne` and their kin).

ghost use Rattle.std.specs.Prelude.{◌≡◌, ℕ, ◌+◌, ◌*◌, ◌<◌, ◌≤◌, ◌^◌, ℤ, pos, ◌+ℤ◌, ◌*ℤ◌, List, length, slice_index_or, unsigned_abs, Some, None, if◌then◌else◌, nat_le, sum_by};
ghost use Rattle.dcsp_meaning.specs.Sums.{sum_of, stands, size_of, sizes_of, width_of, widest};

/// The greatest width of a sum, 2^126: 128 bits hold such a sum, and each part of it.
pub const WIDEST: u128 = 1 << 126;

/// How a sum stands to its total.
#[derive(Clone, Copy, Debug, PartialEq, Eq)]
pub enum Rel {
    /// The sum is equal to the total.
    Equal,
    /// The sum is at most the total.
    AtMost,
    /// The sum differs from the total.
    Differ,
}

impl Rel {
    /// Whether the sum stands so to the total.
    #[inline(always)]
    pub fn holds(self, sum: i128, total: i128) -> bool
        ensures { result ≡ stands self sum total }
    {
        match self {
            Rel::Equal => sum == total,
            Rel::AtMost => sum <= total,
            Rel::Differ => sum != total,
        }
    }
}

/// The terms of a sum: a coefficient and a value at each place, counted from 0.
pub trait Weighted {
    ghost pairs: { Self → List (ℤ × ℤ) };

    /// The number of terms.
    fn count(&self) -> usize
        ensures { result ≡ length (pairs self.now) };

    /// The coefficient at a place.
    fn coef(&self, place: usize) -> i64
        requires { place < length (pairs self.now) }
        ensures { result ≡ (slice_index_or (pairs self.now) place (pos 0, pos 0)).0 };

    /// The value at a place.
    fn value(&self, place: usize) -> i64
        requires { place < length (pairs self.now) }
        ensures { result ≡ (slice_index_or (pairs self.now) place (pos 0, pos 0)).1 };
}

/// The width of a sum: each absolute coefficient times the greatest absolute value of its term, and the
/// greatest absolute value of the total, added up. `None` where this is above 2^126.
pub fn width(coefs: &[i64], greatest: &[u64], total: u64) -> Option<u128>
    requires { length coefs.now ≡ length greatest.now }
    ensures { let width = width_of coefs.now greatest.now total in result ≡ (if nat_le width widest then Some width else None) }
{
    let mut width = u128::from(total);
    for place in 0..coefs.len() {
        width = plus_greatest(width, coefs[place], greatest[place]);
        if width > WIDEST {
            return None;
        }
    }
    Some(width)
}

/// The width of a sum with one term more, of which this is the greatest absolute value.
pub fn plus_greatest(width: u128, coef: i64, greatest: u64) -> u128
    requires { width ≤ widest }
    ensures { result ≡ width + unsigned_abs coef * greatest }
{
    width + u128::from(coef.unsigned_abs()) * u128::from(greatest)
}

/// Whether the sum of each coefficient times its value stands so to the total, in one pass.
pub fn sum_holds<W: Weighted>(rel: Rel, weighted: &W, total: i64) -> bool
    requires { sizes_of (W.pairs weighted.now) total ≤ widest }
    ensures { result ≡ stands rel (sum_of (W.pairs weighted.now)) total }
{
    rel.holds(sum_of(weighted), i128::from(total))
}

/// The sum of each coefficient times its value.
fn sum_of<W: Weighted>(weighted: &W) -> i128
    requires { sum_by size_of (W.pairs weighted.now) ≤ widest }
    ensures { result ≡ sum_of (W.pairs weighted.now) }
{
    let mut sum: i128 = 0;
    for place in 0..weighted.count() {
        sum = plus_product(sum, weighted.coef(place), weighted.value(place));
    }
    sum
}

/// The product of a coefficient and a value.
#[inline(always)]
pub fn product(coef: i64, value: i64) -> i128
    ensures product { result ≡ coef *ℤ value }
    ensures size { unsigned_abs coef < 2 ^ 62 → unsigned_abs result ≤ 2 ^ 125 }
{
    i128::from(coef) * i128::from(value)
}

/// The sum with one product more.
pub fn plus_product(sum: i128, coef: i64, value: i64) -> i128
    requires { unsigned_abs sum + unsigned_abs coef * unsigned_abs value ≤ widest }
    ensures { result ≡ sum +ℤ (coef *ℤ value) }
{
    sum + i128::from(coef) * i128::from(value)
}
