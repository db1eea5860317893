//! Punctuation marks of one or two bytes.

ghost use Rattle.std.specs.Prelude.{◌≡◌, ◌<◌, ◌≤◌, ◌+◌, ◌↔◌, ◌⊎◌, length, slice_index, IsTrue, Ok};
ghost use Rattle.fzn_token.specs.Classes.{class_of};
ghost use Rattle.fzn_token.specs.Lookup.{mark_in};
ghost use Rattle.fzn_token.specs.Words.{mark_text};
ghost use Rattle.fzn_token.specs.Reading.{told, Reads};

use crate::class::Class;
use crate::refusal::BadToken;
use crate::token::{Mark, Token, TokenKind};

/// The mark of one byte that stands here.
#[inline(always)]
pub(crate) fn mark_token(text: &[u8], at: usize, mark: Mark) -> Token
    requires small { length text.now ≤ 16777216 }
    requires within { at < length text.now }
    requires one { class_of (slice_index text.now at) ≡ Class.Mark mark }
    ensures reads { Reads text.now at (Ok result) }
    ensures kind { result.kind ≡ TokenKind.Mark mark }
{
    Token {
        kind: TokenKind::Mark(mark),
        from: at as u32,
        to: (at + 1) as u32,
    }
}

/// The mark that begins with the `:` or `.` here.
pub(crate) fn twin_token(text: &[u8], at: usize) -> Result<Token, BadToken>
    requires small { length text.now ≤ 16777216 }
    requires within { at < length text.now }
    requires twin { class_of (slice_index text.now at) ≡ Class.Twin }
    ensures { Reads text.now at (told result) }
{
    match mark_in(is_twice(text, at), text[at]) {
        Some(mark) => Ok(Token {
            kind: TokenKind::Mark(mark),
            from: at as u32,
            to: (at + mark_len(mark)) as u32,
        }),
        None => Err(BadToken::Lex { at: at as u32 }),
    }
}

/// Whether the byte here stands at the next place too.
fn is_twice(text: &[u8], at: usize) -> bool
    requires { at < length text.now }
    ensures { IsTrue result ↔ ((at + 1 < length text.now) × (slice_index text.now (at + 1) ≡ slice_index text.now at)) }
{
    at + 1 < text.len() && text[at + 1] == text[at]
}

/// The longest mark that begins with this `:` or `.`, where `twice` says whether the byte stands there twice.
fn mark_in(twice: bool, byte: u8) -> Option<Mark>
    requires { (byte ≡ 58) ⊎ (byte ≡ 46) }
    ensures { result ≡ mark_in twice byte }
{
    if byte == b':' {
        Some(if twice { Mark::ColonColon } else { Mark::Colon })
    } else {
        twice.then_some(Mark::DotDot)
    }
}

/// How many bytes the mark has.
fn mark_len(mark: Mark) -> usize
    ensures value { result ≡ length (mark_text mark) }
    ensures small { result ≤ 2 }
{
    match mark {
        Mark::ColonColon | Mark::DotDot => 2,
        _ => 1,
    }
}
