//! What tokens are.

use dcsp_common::ItemList;

/// A keyword.
#[derive(Clone, Copy, Debug, PartialEq, Eq)]
pub enum Word {
    /// `array`
    Array,
    /// `bool`
    Bool,
    /// `constraint`
    Constraint,
    /// `false`
    False,
    /// `float`
    Float,
    /// `int`
    Int,
    /// `maximize`
    Maximize,
    /// `minimize`
    Minimize,
    /// `of`
    Of,
    /// `predicate`
    Predicate,
    /// `satisfy`
    Satisfy,
    /// `set`
    Set,
    /// `solve`
    Solve,
    /// `true`
    True,
    /// `var`
    Var,
}

/// A punctuation mark.
#[derive(Clone, Copy, Debug, PartialEq, Eq)]
pub enum Mark {
    /// `::`
    ColonColon,
    /// `..`
    DotDot,
    /// `:`
    Colon,
    /// `;`
    Semicolon,
    /// `,`
    Comma,
    /// `=`
    Equals,
    /// `(`
    OpenParen,
    /// `)`
    CloseParen,
    /// `[`
    OpenBracket,
    /// `]`
    CloseBracket,
    /// `{`
    OpenBrace,
    /// `}`
    CloseBrace,
}

/// What a token is.
#[derive(Clone, Copy, Debug, PartialEq, Eq)]
pub enum TokenKind {
    /// A letter or `_`, then letters, digits and `_`, and no keyword.
    Name,
    /// A keyword.
    Word(Word),
    /// An integer: an optional `-` directly in front of decimal digits, of `0x` and hexadecimal digits,
    /// or of `0o` and octal digits. Leading zeros are allowed.
    Whole(i64),
    /// An optional `-`, decimal digits, then a fraction, an exponent or both. Its value is not computed.
    Float,
    /// Bytes between `"`. A `\` in them takes the next byte with it, and no line feed stands among them.
    Text,
    /// A punctuation mark.
    Mark(Mark),
}

/// A token, and the bytes of the text that it is.
#[derive(Clone, Copy, Debug, PartialEq, Eq)]
pub struct Token {
    /// What it is.
    pub kind: TokenKind,
    /// The place of its first byte, from 0.
    pub from: u32,
    /// The place after its last byte.
    pub to: u32,
}

/// Tokens in the order of a text.
pub type TokenList = ItemList<Token>;
