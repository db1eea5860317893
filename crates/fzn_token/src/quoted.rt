//! Texts between quotes.

ghost use Rattle.std.specs.Prelude.{◌≡◌, ◌<◌, ◌≤◌, ℕ, length, slice_index, MatchOption};
ghost use Rattle.fzn_token.specs.Quotes.{IsTextEnd};
ghost use Rattle.fzn_token.specs.Reading.{told, Reads};

use crate::refusal::BadToken;
use crate::token::{Token, TokenKind};

/// The text that begins with the quote here.
pub(crate) fn text_token(text: &[u8], at: usize) -> Result<Token, BadToken>
    requires small { length text.now ≤ 16777216 }
    requires within { at < length text.now }
    requires quote { slice_index text.now at ≡ 34 }
    ensures { Reads text.now at (told result) }
{
    match text_end(text, at + 1) {
        Some(end) => Ok(Token {
            kind: TokenKind::Text,
            from: at as u32,
            to: end as u32,
        }),
        None => Err(BadToken::Lex { at: at as u32 }),
    }
}

/// Where the text ends whose opening quote stands before this place.
fn text_end(text: &[u8], from: usize) -> Option<usize>
    requires { from ≤ length text.now }
    ensures { MatchOption result ((j : ℕ) → IsTextEnd text.now from j → ⊥) (λ j. IsTextEnd text.now from j) }
{
    let mut at = from;
    while at < text.len() {
        let b = text[at];
        if b == b'"' {
            return Some(at + 1);
        }
        if b == b'\n' {
            return None;
        }
        if b == b'\\' {
            if at + 1 >= text.len() || text[at + 1] == b'\n' {
                return None;
            }
            at += 2;
        } else {
            at += 1;
        }
    }
    None
}
