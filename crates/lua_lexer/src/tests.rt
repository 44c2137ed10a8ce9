use crate::{LexError, Token, TokenKind, lex, numeral_value, text_value};
use std::alloc::{AllocError, Global};
use std::process::Abort;
use std::test::Fail;

/// A text of one token.
fn is_one(rt: &impl Abort, alloc: Global, text: &[u8], kind: TokenKind) {
    let wanted = [(kind, 0, text.len(), 1)];
    reads(rt, alloc, text, wanted.as_slice());
}

fn is_token(token: &Token, wanted: &(TokenKind, usize, usize, u32)) -> bool {
    token.kind == wanted.0
        && token.start as usize == wanted.1
        && token.end as usize == wanted.2
        && token.line == wanted.3
}

/// A text of these tokens, each with its kind, start, end and line.
fn reads(rt: &impl Abort, alloc: Global, text: &[u8], wanted: &[(TokenKind, usize, usize, u32)]) {
    assert!(rt; text.len() <= 1048576);
    match lex(alloc, text) {
        Ok(tokens) => {
            assert_eq!(rt; tokens.len(), wanted.len(), "in {text:?}");
            for (token, one) in tokens.iter().zip(wanted) {
                assert!(rt; is_token(token, one), "{token:?} in {text:?}");
            }
        }
        Err(error) => assert!(rt; false, "{error:?} in {text:?}"),
    }
}

fn refused(rt: &impl Abort, alloc: Global, text: &[u8], why: LexError) {
    assert!(rt; text.len() <= 1048576);
    match lex(alloc, text) {
        Ok(_) => assert!(rt; false, "{text:?} was read"),
        Err(error) => assert_eq!(rt; error, why, "in {text:?}"),
    }
}

/// A text of tokens of these kinds.
fn has_kinds(rt: &impl Abort, alloc: Global, text: &[u8], kinds: &[TokenKind]) {
    assert!(rt; text.len() <= 1048576);
    match lex(alloc, text) {
        Ok(tokens) => {
            assert_eq!(rt; tokens.len(), kinds.len());
            for (token, kind) in tokens.iter().zip(kinds) {
                assert_eq!(rt; token.kind, *kind, "at {}", token.start);
            }
        }
        Err(error) => assert!(rt; false, "{error:?}"),
    }
}

#[test]
fn keywords(rt: HostRuntime) {
    let text =
        b"and break do else elseif end false for function goto if in local nil not or repeat return then true until while";
    let kinds = [
        TokenKind::And,
        TokenKind::Break,
        TokenKind::Do,
        TokenKind::Else,
        TokenKind::Elseif,
        TokenKind::End,
        TokenKind::False,
        TokenKind::For,
        TokenKind::Function,
        TokenKind::Goto,
        TokenKind::If,
        TokenKind::In,
        TokenKind::Local,
        TokenKind::Nil,
        TokenKind::Not,
        TokenKind::Or,
        TokenKind::Repeat,
        TokenKind::Return,
        TokenKind::Then,
        TokenKind::True,
        TokenKind::Until,
        TokenKind::While,
    ];
    has_kinds(&rt, rt.alloc(), text, kinds.as_slice());
}

#[test]
fn symbols(rt: HostRuntime) {
    let text = b"+ - * / % ^ # == ~= <= >= < > = ( ) { } [ ] :: ; : , . .. ...";
    let kinds = [
        TokenKind::Plus,
        TokenKind::Minus,
        TokenKind::Star,
        TokenKind::Slash,
        TokenKind::Percent,
        TokenKind::Caret,
        TokenKind::Hash,
        TokenKind::Equal,
        TokenKind::NotEqual,
        TokenKind::LessEqual,
        TokenKind::GreaterEqual,
        TokenKind::Less,
        TokenKind::Greater,
        TokenKind::Assign,
        TokenKind::OpenParen,
        TokenKind::CloseParen,
        TokenKind::OpenBrace,
        TokenKind::CloseBrace,
        TokenKind::OpenBracket,
        TokenKind::CloseBracket,
        TokenKind::DoubleColon,
        TokenKind::Semicolon,
        TokenKind::Colon,
        TokenKind::Comma,
        TokenKind::Dot,
        TokenKind::Concat,
        TokenKind::Ellipsis,
    ];
    has_kinds(&rt, rt.alloc(), text, kinds.as_slice());
}

#[test]
fn names_numerals_and_texts(rt: HostRuntime) {
    let alloc = rt.alloc();
    let cases: [(&[u8], TokenKind); 17] = [
        (b"x", TokenKind::Name),
        (b"_", TokenKind::Name),
        (b"andy", TokenKind::Name),
        (b"END", TokenKind::Name),
        (b"a_1Z", TokenKind::Name),
        (b"0", TokenKind::Numeral),
        (b"007", TokenKind::Numeral),
        (b"0x1F", TokenKind::Numeral),
        (b"0xfFAa09", TokenKind::Numeral),
        (b"9223372036854775807", TokenKind::Numeral),
        (b"0x7fffffffffffffff", TokenKind::Numeral),
        (b"''", TokenKind::Text),
        (b"'a\"b'", TokenKind::Text),
        (b"\"it's\"", TokenKind::Text),
        (b"[[]]", TokenKind::Text),
        (b"[=[a]]b]=]", TokenKind::Text),
        (b"[==[\n]=]]==]", TokenKind::Text),
    ];
    for (text, kind) in cases {
        is_one(&rt, alloc, text, kind);
    }
}

#[test]
fn texts_that_are_refused(rt: HostRuntime) {
    let alloc = rt.alloc();
    let cases: [(&[u8], LexError); 24] = [
        (b"@", LexError::BadByte(0)),
        (b"a @", LexError::BadByte(2)),
        (b"~", LexError::BadByte(0)),
        (b"~ =", LexError::BadByte(0)),
        (b"!", LexError::BadByte(0)),
        (b"a\xe4", LexError::BadByte(1)),
        (b"\0", LexError::BadByte(0)),
        (b"\\", LexError::BadByte(0)),
        (b"a = 'x", LexError::OpenString(4)),
        (b"\"a\nb\"", LexError::OpenString(0)),
        (b"'\\", LexError::OpenString(0)),
        (b"'a\\0", LexError::OpenString(0)),
        (b"'\\x41\n'", LexError::OpenString(0)),
        (b"'\\z", LexError::OpenString(0)),
        (b"[[x]", LexError::OpenString(0)),
        (b" [==[x]=]", LexError::OpenString(1)),
        (b"--[[x]", LexError::OpenComment(0)),
        (b"x --[=[ ]]", LexError::OpenComment(2)),
        (b"--x\n--[[\n", LexError::OpenComment(4)),
        (b"'\\q'", LexError::BadEscape(1)),
        (b"'\\q", LexError::BadEscape(1)),
        (b"'ab\\x4'", LexError::BadEscape(3)),
        (b"'\\xg1'", LexError::BadEscape(1)),
        (b"'\\x", LexError::BadEscape(1)),
    ];
    for (text, why) in cases {
        refused(&rt, alloc, text, why);
    }
}

#[test]
fn numerals_and_escapes_that_are_refused(rt: HostRuntime) {
    let alloc = rt.alloc();
    let cases: [(&[u8], LexError); 24] = [
        (b"'\\256'", LexError::BadEscape(1)),
        (b"'\\2 \\999'", LexError::BadEscape(4)),
        (b"'\\X41'", LexError::BadEscape(1)),
        (b"1.5", LexError::NotWhole(0)),
        (b".5", LexError::NotWhole(0)),
        (b"1..2", LexError::NotWhole(0)),
        (b"x = 3e2", LexError::NotWhole(4)),
        (b"3E", LexError::NotWhole(0)),
        (b"0x1p4", LexError::NotWhole(0)),
        (b"0x1.8", LexError::NotWhole(0)),
        (b"0x1P", LexError::NotWhole(0)),
        (b"99999999999999999999.5", LexError::NotWhole(0)),
        (b"9223372036854775808", LexError::TooBig(0)),
        (b"- 0x8000000000000000", LexError::TooBig(2)),
        (b"99999999999999999999x", LexError::TooBig(0)),
        (b"3x", LexError::BadByte(1)),
        (b"3_", LexError::BadByte(1)),
        (b"0X1", LexError::BadByte(1)),
        (b"0x", LexError::BadByte(2)),
        (b"0x.8", LexError::BadByte(2)),
        (b"0xp1", LexError::BadByte(2)),
        (b"0xg", LexError::BadByte(2)),
        (b"0x1g", LexError::BadByte(3)),
        (b"00x1", LexError::BadByte(2)),
    ];
    for (text, why) in cases {
        refused(&rt, alloc, text, why);
    }
}

#[test]
fn dots_one_behind_another(rt: HostRuntime) {
    let alloc = rt.alloc();
    let cases: [(&[u8], &[(TokenKind, usize, usize, u32)]); 5] = [
        (b"", &[]),
        (
            b"a.b",
            &[
                (TokenKind::Name, 0, 1, 1),
                (TokenKind::Dot, 1, 2, 1),
                (TokenKind::Name, 2, 3, 1),
            ],
        ),
        (
            b"a..b",
            &[
                (TokenKind::Name, 0, 1, 1),
                (TokenKind::Concat, 1, 3, 1),
                (TokenKind::Name, 3, 4, 1),
            ],
        ),
        (
            b"....",
            &[(TokenKind::Ellipsis, 0, 3, 1), (TokenKind::Dot, 3, 4, 1)],
        ),
        (
            b"..5",
            &[(TokenKind::Concat, 0, 2, 1), (TokenKind::Numeral, 2, 3, 1)],
        ),
    ];
    for (text, wanted) in cases {
        reads(&rt, alloc, text, wanted);
    }
}

#[test]
fn the_longest_symbol_comes_first(rt: HostRuntime) {
    let alloc = rt.alloc();
    let cases: [(&[u8], &[(TokenKind, usize, usize, u32)]); 5] = [
        (
            b"[=",
            &[
                (TokenKind::OpenBracket, 0, 1, 1),
                (TokenKind::Assign, 1, 2, 1),
            ],
        ),
        (
            b"[==x",
            &[
                (TokenKind::OpenBracket, 0, 1, 1),
                (TokenKind::Equal, 1, 3, 1),
                (TokenKind::Name, 3, 4, 1),
            ],
        ),
        (
            b"[[a]]]",
            &[
                (TokenKind::Text, 0, 5, 1),
                (TokenKind::CloseBracket, 5, 6, 1),
            ],
        ),
        (
            b":::",
            &[
                (TokenKind::DoubleColon, 0, 2, 1),
                (TokenKind::Colon, 2, 3, 1),
            ],
        ),
        (
            b"a-1",
            &[
                (TokenKind::Name, 0, 1, 1),
                (TokenKind::Minus, 1, 2, 1),
                (TokenKind::Numeral, 2, 3, 1),
            ],
        ),
    ];
    for (text, wanted) in cases {
        reads(&rt, alloc, text, wanted);
    }
}

#[test]
fn comments_and_lines(rt: HostRuntime) {
    let alloc = rt.alloc();
    let cases: [(&[u8], &[(TokenKind, usize, usize, u32)]); 9] = [
        (b"--", &[]),
        (b"-- a b", &[]),
        (b"--[[a]]x", &[(TokenKind::Name, 7, 8, 1)]),
        (b"--[==[ ]]\n]=] ]==]x", &[(TokenKind::Name, 18, 19, 2)]),
        (b"--[=x\ny", &[(TokenKind::Name, 6, 7, 2)]),
        (b"---[[a\nb", &[(TokenKind::Name, 7, 8, 2)]),
        (
            b"'a\\\nb' c",
            &[(TokenKind::Text, 0, 6, 1), (TokenKind::Name, 7, 8, 2)],
        ),
        (
            b"[[\n\n]] x",
            &[(TokenKind::Text, 0, 6, 1), (TokenKind::Name, 7, 8, 3)],
        ),
        (b"\r\n\x0b\x0c\t x", &[(TokenKind::Name, 6, 7, 2)]),
    ];
    for (text, wanted) in cases {
        reads(&rt, alloc, text, wanted);
    }
}

#[test]
fn values_of_texts(rt: HostRuntime) -> Result<(), Fail> {
    let alloc = rt.alloc();
    let cases: [(&[u8], &[u8]); 13] = [
        (b"'a\\a\\b\\f\\n\\r\\t\\v'", b"a\x07\x08\x0c\n\r\t\x0b"),
        (b"'\\\\\\'\\\"'", b"\\'\""),
        (b"'a\\\nb'", b"a\nb"),
        (b"'a\\z \n\t b'", b"ab"),
        (b"'\\z'", b""),
        (b"'\\x41\\xfF'", b"A\xff"),
        (b"'\\065\\0666\\9'", b"AB6\t"),
        (b"'\\255\\0'", b"\xff\0"),
        (b"\"it's\"", b"it's"),
        (b"[[\n\na\\n]]", b"\na\\n"),
        (b"[==[a]]b]=]c]==]", b"a]]b]=]c"),
        (b"[[\r\n]]", b"\r\n"),
        (b"[[]]", b""),
    ];
    for (text, value) in cases {
        assert_eq!(rt; text_value(alloc, text)?.as_slice(), value, "of {text:?}");
    }
    Ok(())
}

#[test]
fn values_of_numerals(rt: HostRuntime) {
    let cases: [(&[u8], Option<u64>); 6] = [
        (b"0", Some(0)),
        (b"0010", Some(10)),
        (b"0xfF", Some(255)),
        (b"9223372036854775807", Some(9223372036854775807)),
        (b"0x7fffffffffffffff", Some(9223372036854775807)),
        (b"9223372036854775808", None),
    ];
    for (text, value) in cases {
        assert_eq!(rt; numeral_value(text), value, "of {text:?}");
    }
}

/// How many tokens a text has that goes on with the same bytes.
fn tokens_of_long(
    alloc: Global,
    front: &[u8],
    piece: &[u8],
    times: u32,
) -> Result<Result<usize, LexError>, AllocError> {
    let mut text = Vec::new(alloc);
    text.extend_from_slice(front)?;
    for _ in 0..times {
        text.extend_from_slice(piece)?;
    }
    if text.len() > 1048576 {
        return Ok(Ok(0));
    }
    Ok(lex(alloc, text.as_slice()).map(|tokens| tokens.len()))
}

/// A text that was read again from each of its places would take hours.
#[test]
fn texts_of_a_million_bytes(rt: HostRuntime) -> Result<(), Fail> {
    let alloc = rt.alloc();
    let cases: [(&[u8], &[u8], u32, Result<usize, LexError>); 7] = [
        (b"", b"local a = 'x' .. 0x7f -- no\n", 36000, Ok(216000)),
        (b"[==[", b"]=", 500000, Err(LexError::OpenString(0))),
        (b"[", b"=", 1000000, Ok(500001)),
        (b"", b"'\\z  '", 170000, Ok(170000)),
        (b"", b"a", 1000000, Ok(1)),
        (b"1", b"0", 1000000, Err(LexError::TooBig(0))),
        (b"--", b"]", 1000000, Ok(0)),
    ];
    for (front, piece, times, wanted) in cases {
        assert_eq!(rt;
            tokens_of_long(alloc, front, piece, times)?,
            wanted,
            "{front:?} {piece:?}"
        );
    }
    Ok(())
}
