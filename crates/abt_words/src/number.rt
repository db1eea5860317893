//! Words that are numbers.

ghost use Rattle.std.specs.Prelude.{◌≡◌, ℕ, ℤ, FitsSigned, ◌^◌, ◌<◌, ◌≤◌, decimal, IfSome, IsNone};
ghost use Rattle.std.specs.Int.{w64};
ghost use Rattle.std.specs.Fmt.{signed_decimal};

use itoa::Buffer;

/// The number of 64 bits whose decimal digits the word is, without sign or leading zeros.
fn number_of(word: &str) -> Option<u64>
    ensures some { IfSome result (λ number. word.now ≡ decimal number) }
    ensures fits { IfSome result (λ number. number < 2 ^ 64) }
    ensures none { IsNone result → (number : ℕ) → number < 2 ^ 64 → word.now ≡ decimal number → ⊥ }
{
    let Ok(number) = word.parse::<u64>() else {
        return None;
    };
    if Buffer::new().format(number) == word {
        Some(number)
    } else {
        None
    }
}

/// The number within these bounds whose decimal digits the word is.
pub fn number_within(word: &str, least: u64, most: u64) -> Option<u64>
    ensures some { IfSome result (λ number. word.now ≡ decimal number) }
    ensures within { IfSome result (λ number. (least ≤ number) × (number ≤ most) × (number < 2 ^ 64)) }
    ensures none { IsNone result → (number : ℕ) → least ≤ number → number ≤ most → number < 2 ^ 64 → word.now ≡ decimal number → ⊥ }
{
    let number = number_of(word)?;
    if number < least {
        return None;
    }
    if most < number {
        return None;
    }
    Some(number)
}

/// The number of 64 bits with or without a sign that the word is, without leading zeros, `+` or `-0`.
pub fn signed_number_of(word: &str) -> Option<i64>
    ensures some { IfSome result (λ number. word.now ≡ signed_decimal number) }
    ensures fits { IfSome result (FitsSigned w64) }
    ensures none { IsNone result → (number : ℤ) → FitsSigned w64 number → word.now ≡ signed_decimal number → ⊥ }
{
    let Ok(number) = word.parse::<i64>() else {
        return None;
    };
    if Buffer::new().format(number) == word {
        Some(number)
    } else {
        None
    }
}
