//! Texts, their tokens and refusals.

use Mark::{Colon, ColonColon, DotDot, Semicolon};
use TokenKind::{Float, Name, Text, Whole};
use fzn_token::{Mark, ModelError, Refusal, TokenKind, TokenList, Word, tokens};
use std::alloc::Global;
use std::process::Abort;

/// The tokens of a short text.
fn read(alloc: Global, text: &[u8]) -> Result<TokenList, ModelError> {
    if text.len() > 100 {
        return Err(ModelError::Memory);
    }
    tokens(alloc, text)
}

/// The text has these tokens: their kinds, and where each begins and ends.
fn expect_tokens(rt: &impl Abort, alloc: Global, text: &[u8], tokens: &[(TokenKind, u32, u32)]) {
    let list = read(alloc, text).ok().expect(rt, "a text of tokens");
    assert_eq!(rt; list.len(), tokens.len());
    for (token, (kind, from, to)) in list.items().iter().zip(tokens) {
        assert_eq!(rt; token.kind, *kind);
        assert_eq!(rt; token.from, *from);
        assert_eq!(rt; token.to, *to);
    }
}

#[test]
fn texts_and_their_tokens(rt: HostRuntime) {
    let alloc = rt.alloc();
    expect_tokens(&rt, alloc, b"", &[]);
    expect_tokens(&rt, alloc, b" \t\r\n% no \xff token", &[]);
    let range = [
        (Float, 0, 3),
        (TokenKind::Mark(DotDot), 3, 5),
        (Whole(2), 5, 6),
    ];
    expect_tokens(&rt, alloc, b"1.5..2", &range);
    expect_tokens(&rt, alloc, b"-0x10", &[(Whole(-16), 0, 5)]);
    expect_tokens(&rt, alloc, b"0x", &[(Whole(0), 0, 1), (Name, 1, 2)]);
    expect_tokens(&rt, alloc, b"0xG", &[(Whole(0), 0, 1), (Name, 1, 3)]);
    expect_tokens(
        &rt,
        alloc,
        b"0o17 0xfF",
        &[(Whole(15), 0, 4), (Whole(255), 5, 9)],
    );
    expect_tokens(&rt, alloc, b"99999999999999999999.5", &[(Float, 0, 22)]);
    expect_tokens(&rt, alloc, b"1-5", &[(Whole(1), 0, 1), (Whole(-5), 1, 3)]);
    expect_tokens(
        &rt,
        alloc,
        b"-9223372036854775808",
        &[(Whole(i64::MIN), 0, 20)],
    );
    expect_tokens(&rt, alloc, b"1e-5 2E7", &[(Float, 0, 4), (Float, 5, 8)]);
    let declared = [
        (TokenKind::Word(Word::Var), 0, 3),
        (Name, 5, 9),
        (TokenKind::Mark(ColonColon), 9, 11),
        (TokenKind::Mark(Semicolon), 11, 12),
    ];
    expect_tokens(&rt, alloc, b"var%\nvars::;", &declared);
    let quoted = [(Text, 0, 5), (TokenKind::Mark(Colon), 5, 6), (Name, 6, 8)];
    expect_tokens(&rt, alloc, b"\"a\\\"\":_1", &quoted);
}

#[test]
fn texts_and_their_refusals(rt: HostRuntime) {
    for (text, expected) in [
        (b"\"a".as_slice(), Refusal::Lex { at: 0 }),
        (b"\"a\\\"", Refusal::Lex { at: 0 }),
        (b"a .b", Refusal::Lex { at: 2 }),
        (b"1.e5", Refusal::Lex { at: 1 }),
        (b"1e+", Refusal::Lex { at: 2 }),
        (b"1...2", Refusal::Lex { at: 3 }),
        (b"-", Refusal::Lex { at: 0 }),
        (b"a 9223372036854775808 $", Refusal::IntRange { at: 2 }),
        (b"$ 9223372036854775808", Refusal::Lex { at: 0 }),
        (b"-0x8000000000000001", Refusal::IntRange { at: 0 }),
    ] {
        assert_eq!(rt;
            read(rt.alloc(), text).err(),
            Some(ModelError::Refused(expected))
        );
    }
}
