//! The tokens of FlatZinc, as the MiniZinc Handbook's chapter on FlatZinc has them.
//!
//! A text is bytes. Between tokens stand gaps: blanks, and comments from `%` up to the next line feed or
//! the text's end. At each place after a gap the longest token is taken. Tokens hold places of the text,
//! and no copy of it.
#![tactic(auto)]

mod bytes;
mod class;
mod digits;
mod float;
mod gap;
mod lexer;
mod mark;
mod name;
mod number;
mod pieces;
mod plain;
mod quoted;
mod reader;
mod refusal;
mod token;

pub use dcsp_common::Memory;
pub use lexer::{one_answer, tokens};
pub use reader::TokenReader;
pub use refusal::{ModelError, Refusal};
pub use token::{Mark, Token, TokenKind, TokenList, Word};
