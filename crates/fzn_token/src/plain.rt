//! Short decimal numbers, which are most: their value is known once they are scanned.

ghost use Rattle.std.specs.Prelude.{◌≤◌, length, MatchOption, ⊤};
ghost use Rattle.fzn_token.specs.Plain.{IsPlain};

use crate::class::{Class, class_of};

/// One more digit may be taken up to here.
const MOST_BEFORE: u64 = u64::MAX / 10 - 1;

/// Where the decimal digits end that begin here, and their value; nothing where there is no digit, where there are
/// many, or where a `.` or a letter behind them may go on with the number.
#[inline(always)]
pub(crate) fn plain_digits(text: &[u8], from: usize) -> Option<(usize, u64)>
    requires { from ≤ length text.now }
    ensures { MatchOption result ⊤ (λ found. IsPlain text.now from found.0 found.1) }
{
    let mut value: u64 = 0;
    let mut at = from;
    while at < text.len() {
        match class_of(text[at]) {
            Class::Digit => {
                if value > MOST_BEFORE {
                    return None;
                }
                value = value * 10 + u64::from(text[at] - b'0');
                at += 1;
            }
            Class::Letter | Class::Twin => return None,
            _ => break,
        }
    }
    if from < at { Some((at, value)) } else { None }
}
