//! Gaps between tokens.

ghost use Rattle.std.specs.Prelude.{◌≡◌, ◌<◌, ◌≤◌, ℕ, length, slice_index};
ghost use Rattle.fzn_token.specs.Gaps.{IsGap};

use crate::class::{Class, class_of};

/// Where the gap ends that begins here.
#[inline(always)]
pub(crate) fn gap_end(text: &[u8], from: usize) -> usize
    requires { from ≤ length text.now }
    ensures { IsGap text.now from result }
{
    let mut at = from;
    while at < text.len() {
        match class_of(text[at]) {
            Class::Blank => at += 1,
            Class::Percent => at = comment_end(text, at),
            _ => break,
        }
    }
    at
}

/// The place of the line feed that ends the comment which begins here, or the text's end.
fn comment_end(text: &[u8], from: usize) -> usize
    requires { from < length text.now }
    ensures ordered { from < result }
    ensures within { result ≤ length text.now }
    ensures line { (k : ℕ) → from < k → k < result → slice_index text.now k ≡ 10 → ⊥ }
    ensures feed { result < length text.now → slice_index text.now result ≡ 10 }
{
    let mut at = from + 1;
    while at < text.len() && text[at] != b'\n' {
        at += 1;
    }
    at
}
