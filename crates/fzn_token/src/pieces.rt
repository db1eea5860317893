//! The tokens of a text, one after another or up to one `;` at a time.

ghost use Rattle.std.specs.Prelude.{◌≡◌, ◌≢◌, ◌<◌, ◌≤◌, ◌++◌, ◌∷◌, length, [], IfOk, Ok, OnOk};
ghost use Rattle.fzn_token.specs.Gaps.{IsGap};
ghost use Rattle.fzn_token.specs.Reading.{told, IsBehind, IsOpenAt, Reads, TakesOne, TakesPiece, TakesRest, EndsPiece, left};

use crate::class::{Class, class_of};
use crate::gap::gap_end;
use crate::lexer::token_at;
use crate::mark::mark_token;
use crate::name::{constraint_token, name_token};
use crate::number::number_token;
use crate::reader::TokenReader;
use crate::refusal::{BadToken, ModelError};
use crate::token::{Mark, Token, TokenKind};
use dcsp_common::Memory;

impl<'t> TokenReader<'t> {
    /// Before the first token.
    pub fn new(text: &'t [u8]) -> TokenReader<'t>
        requires { length text.now ≤ 16777216 }
        ensures { IsBehind text.now result [] }
    {
        TokenReader::behind(text, 0)
    }

    /// The next token; `None` at the text's end.
    ///
    /// The refusal is that of the text, since the tokens before were read.
    pub(crate) fn next_token(&mut self) -> Result<Option<Token>, BadToken>
        ensures { TakesOne self.old self.new (told result) }
    {
        if self.text.len() <= self.at {
            return Ok(None);
        }
        let token = token_at(self.text, self.at)?;
        self.at = gap_end(self.text, token.to as usize);
        Ok(Some(token))
    }

    /// Leaves the next tokens alone in `tokens`, up to the next `;` and with it, or to the text's end.
    ///
    /// A refusal of one of them is that of the text. The loop over tokens is kept apart from what is done with them, and
    /// keeps its places in registers.
    #[inline(never)]
    pub fn next_piece(&mut self, tokens: &mut Vec<Token>) -> Result<(), ModelError>
        ensures takes { TakesPiece self.old self.new tokens.new.items result }
        ensures ends { OnOk result (EndsPiece self.new tokens.new.items) }
        ensures fewer { OnOk result (tokens.new.items ≢ [] → left self.new < left self.old) }
    {
        let text = self.text;
        let mut at = self.begun(tokens)?;
        'tokens: while at < text.len() {
            // Each token is written where it is found: none is handed over.
            match class_of(text[at]) {
                Class::Mark(mark) => {
                    let token = mark_token(text, at, mark);
                    at = kept(text, at, token, tokens)?;
                    if mark == Mark::Semicolon {
                        *self = TokenReader::behind(text, at);
                        return Ok(());
                    }
                }
                Class::Letter => {
                    let token = name_token(text, at);
                    at = kept(text, at, token, tokens)?;
                }
                Class::Digit | Class::Minus => {
                    let token = number_token(text, at)?;
                    at = kept(text, at, token, tokens)?;
                }
                Class::Blank | Class::Percent => at = gap_end(text, at),
                Class::Twin | Class::Quote | Class::Other => {
                    let token = token_at(text, at)?;
                    at = kept(text, at, token, tokens)?;
                }
            }
        }
        *self = TokenReader::behind(text, at);
        Ok(())
    }

    /// Begins the next piece, in place of the one before, and gives the place behind what it has. Most begin with
    /// `constraint`, which is not looked up among the keywords.
    #[inline(always)]
    fn begun(&self, tokens: &mut Vec<Token>) -> Result<usize, Memory>
        ensures opens { IfOk result (λ at. IsOpenAt self.now tokens.new.items at) }
        ensures within { IfOk result (λ at. at ≤ length self.now.text.now) }
    {
        tokens.clear();
        match constraint_token(self.text, self.at) {
            Some(token) => {
                let to = kept(self.text, self.at, token, tokens)?;
                Ok(to)
            }
            None => Ok(self.at),
        }
    }

    /// The reader behind the gap here.
    #[inline(always)]
    fn behind(text: &'t [u8], at: usize) -> TokenReader<'t>
        requires small { length text.now ≤ 16777216 }
        requires within { at ≤ length text.now }
        ensures text { result.text.now ≡ text.now }
        ensures gap { IsGap text.now at result.at }
    {
        TokenReader {
            text,
            at: gap_end(text, at),
        }
    }

    /// Reads the tokens that are left and keeps none, to see that the text is not refused for one of them.
    pub fn check_rest(&mut self) -> Result<(), ModelError>
        ensures { TakesRest self.old result }
    {
        while let Some(_token) = self.next_token()? {}
        Ok(())
    }
}

/// Adds the token that stands here, and gives the place behind it.
#[inline(always)]
fn kept(text: &[u8], at: usize, token: Token, tokens: &mut Vec<Token>) -> Result<usize, Memory>
    requires within { at < length text.now }
    requires reads { Reads text.now at (Ok token) }
    ensures added { OnOk result (tokens.new.items ≡ tokens.old.items ++ token ∷ []) }
    ensures to { IfOk result (λ to. to ≡ token.to) }
    ensures further { IfOk result (λ to. at < to) }
    ensures within { IfOk result (λ to. to ≤ length text.now) }
{
    tokens.push(token)?;
    Ok(token.to as usize)
}
