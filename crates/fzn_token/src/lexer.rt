//! From the text to its tokens, in one pass from the left.

ghost use Rattle.std.specs.Prelude.{◌<◌, ◌≤◌, length};
ghost use Rattle.fzn_token.specs.Reading.{told, Answers, HasOneAnswer, Reads};

use crate::class::{Class, class_of};
use crate::mark::{mark_token, twin_token};
use crate::name::name_token;
use crate::number::number_token;
use crate::quoted::text_token;
use crate::reader::TokenReader;
use crate::refusal::{BadToken, ModelError};
use crate::token::{Token, TokenList};
use std::alloc::Global;

/// The tokens of a text of at most 16,777,216 bytes.
///
/// The text is gaps and the tokens in turn, and each token is the longest that begins at its place. A
/// refusal names the first place, from the left, that has none: `Lex` where no token begins, an
/// unfinished text at its opening quote among them, and `IntRange` where the longest token is an integer
/// outside 64 bits.
pub fn tokens(alloc: Global, text: &[u8]) -> Result<TokenList, ModelError>
    requires { length text.now ≤ 16777216 }
    ensures { Answers text.now result }
{
    let mut list = TokenList::new(alloc);
    let mut reader = TokenReader::new(text);
    while let Some(token) = reader.next_token()? {
        list.push(token)?;
    }
    Ok(list)
}

/// A text has one list of tokens or one refusal, want of memory aside.
pub fn one_answer()
    ensures { HasOneAnswer }
{}

/// The longest token that begins here.
#[inline(always)]
pub(crate) fn token_at(text: &[u8], at: usize) -> Result<Token, BadToken>
    requires small { length text.now ≤ 16777216 }
    requires within { at < length text.now }
    ensures { Reads text.now at (told result) }
{
    match class_of(text[at]) {
        Class::Mark(mark) => Ok(mark_token(text, at, mark)),
        Class::Letter => Ok(name_token(text, at)),
        Class::Digit | Class::Minus => number_token(text, at),
        Class::Twin => twin_token(text, at),
        Class::Quote => text_token(text, at),
        Class::Blank | Class::Percent | Class::Other => Err(BadToken::Lex { at: at as u32 }),
    }
}
