//! Arithmetic that no 64-bit number is too great for: in 128 bits.

ghost use Rattle.std.specs.Prelude.{◌≡◌, ◌≢◌, ◌+ℤ◌, ◌*ℤ◌, ℤ, pos, not, ◌&&◌, int_div, int_rem, unsigned_abs};
ghost use Rattle.std.specs.Int.{int_min, int_max};
ghost use Rattle.std.specs.Ordering.{int_eq};

/// Whether `a + b` is `c`.
pub(crate) fn is_sum(a: i64, b: i64, c: i64) -> bool
    ensures { result ≡ int_eq (a +ℤ b) c }
{
    sum(a, b) == i128::from(c)
}

/// Whether `a * b` is `c`.
pub(crate) fn is_product(a: i64, b: i64, c: i64) -> bool
    ensures { result ≡ int_eq (a *ℤ b) c }
{
    product(a, b) == i128::from(c)
}

/// Whether `c` is the lesser of `a` and `b`.
pub(crate) fn is_least(a: i64, b: i64, c: i64) -> bool
    ensures { result ≡ int_eq (int_min a b) c }
{
    if b < a { b == c } else { a == c }
}

/// Whether `c` is the greater of `a` and `b`.
pub(crate) fn is_greatest(a: i64, b: i64, c: i64) -> bool
    ensures { result ≡ int_eq (int_max a b) c }
{
    if b < a { a == c } else { b == c }
}

/// Whether `b` is the absolute value of `a`.
pub(crate) fn is_absolute(a: i64, b: i64) -> bool
    ensures { result ≡ int_eq (pos (unsigned_abs a)) b }
{
    i128::from(a.unsigned_abs()) == i128::from(b)
}

/// Whether `c` is `a / b` truncated towards zero; false where `b` is 0.
pub(crate) fn is_quotient(a: i64, b: i64, c: i64) -> bool
    ensures { result ≡ not (int_eq b (pos 0)) && int_eq (int_div a b) c }
{
    b != 0 && quotient(a, b) == i128::from(c)
}

/// Whether `c` is the remainder of `a / b`, which has the sign of `a`; false where `b` is 0.
pub(crate) fn is_remainder(a: i64, b: i64, c: i64) -> bool
    ensures { result ≡ not (int_eq b (pos 0)) && int_eq (int_rem a b) c }
{
    b != 0 && remainder(a, b) == i128::from(c)
}

fn sum(a: i64, b: i64) -> i128
    ensures { result ≡ a +ℤ b }
{
    i128::from(a) + i128::from(b)
}

fn product(a: i64, b: i64) -> i128
    ensures { result ≡ a *ℤ b }
{
    i128::from(a) * i128::from(b)
}

/// Exact for the least number divided by -1, too, which 64 bits do not hold.
fn quotient(a: i64, b: i64) -> i128
    requires { b ≢ pos 0 }
    ensures { result ≡ int_div a b }
{
    i128::from(a) / i128::from(b)
}

fn remainder(a: i64, b: i64) -> i128
    requires { b ≢ pos 0 }
    ensures { result ≡ int_rem a b }
{
    i128::from(a) % i128::from(b)
}
