//! Names and keywords.

ghost use Rattle.std.specs.Prelude.{◌≡◌, ◌<◌, ◌≤◌, length, slice_index, true, Ok, IfSome};
ghost use Rattle.fzn_token.specs.Bytes.{is_letter, is_name_byte, IsWholeRun};
ghost use Rattle.fzn_token.specs.declared.token.Mark.{Mark};
ghost use Rattle.fzn_token.specs.Lookup.{word_in};
ghost use Rattle.fzn_token.specs.Reading.{Reads};

use crate::bytes::is_name_byte;
use crate::token::{Token, TokenKind, Word};

/// `constraint` has so many bytes.
const CONSTRAINT_LEN: usize = 10;

/// The name or keyword that begins with the letter here.
#[inline(always)]
pub(crate) fn name_token(text: &[u8], at: usize) -> Token
    requires small { length text.now ≤ 16777216 }
    requires within { at < length text.now }
    requires letter { is_letter (slice_index text.now at) ≡ true }
    ensures reads { Reads text.now at (Ok result) }
    ensures no_mark { (mark : Mark) → result.kind ≡ TokenKind.Mark mark → ⊥ }
{
    let end = name_end(text, at);
    let (from, to) = (at as u32, end as u32);
    match word_in(&text[at..end]) {
        Some(word) => Token {
            kind: TokenKind::Word(word),
            from,
            to,
        },
        None => Token {
            kind: TokenKind::Name,
            from,
            to,
        },
    }
}

/// The keyword `constraint`, where it is the token that begins here.
#[inline(always)]
pub(crate) fn constraint_token(text: &[u8], at: usize) -> Option<Token>
    requires { length text.now ≤ 16777216 }
    ensures reads { IfSome result (λ token. (at < length text.now) × Reads text.now at (Ok token)) }
    ensures no_mark { IfSome result (λ token. (mark : Mark) → token.kind ≡ TokenKind.Mark mark → ⊥) }
{
    if text.len() <= at || text.len() - at <= CONSTRAINT_LEN {
        return None;
    }
    let end = at + CONSTRAINT_LEN;
    if is_name_byte(text[end]) {
        return None;
    }
    match word_in(&text[at..end]) {
        Some(Word::Constraint) => Some(Token {
            kind: TokenKind::Word(Word::Constraint),
            from: at as u32,
            to: end as u32,
        }),
        _ => None,
    }
}

/// Where the letters, digits and `_` end that begin here.
///
/// Eight bytes are looked at in one turn, and the text's end is asked for once for the eight.
#[inline(always)]
fn name_end(text: &[u8], from: usize) -> usize
    requires { from ≤ length text.now }
    ensures { IsWholeRun is_name_byte text.now from result }
{
    let mut at = from;
    'eights: while text.len() - at >= 8 {
        let mut past = 0;
        'each: while past < 8 {
            if !is_name_byte(text[at + past]) {
                return at + past;
            }
            past += 1;
        }
        at += 8;
    }
    'ones: while at < text.len() && is_name_byte(text[at]) {
        at += 1;
    }
    at
}

/// The keyword that these bytes are.
#[inline(always)]
fn word_in(bytes: &[u8]) -> Option<Word>
    ensures { result ≡ word_in bytes.now }
{
    match bytes {
        b"array" => Some(Word::Array),
        b"bool" => Some(Word::Bool),
        b"constraint" => Some(Word::Constraint),
        b"false" => Some(Word::False),
        b"float" => Some(Word::Float),
        b"int" => Some(Word::Int),
        b"maximize" => Some(Word::Maximize),
        b"minimize" => Some(Word::Minimize),
        b"of" => Some(Word::Of),
        b"predicate" => Some(Word::Predicate),
        b"satisfy" => Some(Word::Satisfy),
        b"set" => Some(Word::Set),
        b"solve" => Some(Word::Solve),
        b"true" => Some(Word::True),
        b"var" => Some(Word::Var),
        _ => None,
    }
}
