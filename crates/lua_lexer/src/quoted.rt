//! Texts between quotes.

ghost use Rattle.std.specs.Prelude.{◌≡◌, ◌<◌, ◌≤◌, ◌+◌, IfOk, length, take};
ghost use Rattle.lua_lexer.specs.Escapes.{escaped, hex_escape, decimal_escape, escape, part_at, IsPartWithin};
ghost use Rattle.lua_lexer.specs.Scan.{quoted_from, IsWithin};
ghost use Rattle.lua_lexer.specs.Values.{quoted_value};

use crate::TokenKind;
use crate::bytes::{before, behind, blank_len, byte_at, digits_len};
use crate::numeral::{digit_of, value_of};
use crate::piece::{Fault, Piece};
use std::alloc::{AllocError, Global};

/// What stands at a place between quotes.
#[derive(Clone, Copy, Debug, PartialEq, Eq, Drop)]
pub enum Part {
    /// The closing quote.
    Close,
    /// A newline or the end.
    Unclosed,
    /// So many bytes that stand for this one.
    Byte(u8, usize),
    /// So many bytes that stand for none.
    Skip(usize),
    /// A backslash that begins no escape sequence.
    Bad,
}

/// The byte that a backslash and this one byte stand for.
#[tactic(auto, unfolding(crate::specs::Escapes::escaped))]
fn escaped(c: u8) -> Option<u8>
    ensures { result ≡ escaped c }
{
    match c {
        b'a' => Some(7),
        b'b' => Some(8),
        b'f' => Some(12),
        b'n' => Some(b'\n'),
        b'r' => Some(b'\r'),
        b't' => Some(b'\t'),
        b'v' => Some(11),
        b'\\' => Some(b'\\'),
        b'"' => Some(b'"'),
        b'\'' => Some(b'\''),
        b'\n' => Some(b'\n'),
        _ => None,
    }
}

/// Behind `\x`: two hexadecimal digits.
fn hex_escape(text: &[u8]) -> Part
    ensures exact { result ≡ hex_escape text.now }
    ensures within { IsPartWithin (length text.now + 2) result }
{
    if text.len() >= 2 && text[0].is_ascii_hexdigit() && text[1].is_ascii_hexdigit() {
        Part::Byte(16 * digit_of(text[0]) + digit_of(text[1]), 4)
    } else {
        Part::Bad
    }
}

/// At most the first three bytes.
#[tactic(auto, using(std::proofs::lemmas::List::take_min))]
fn first_three(text: &[u8]) -> &[u8]
    ensures exact { result.now ≡ take 3 text.now }
    ensures within { length result.now ≤ length text.now }
{
    &text[..3.min(text.len())]
}

/// Behind a backslash: one to three digits, up to 255.
#[tactic(auto, unfolding(crate::specs::Escapes::decimal_escape))]
fn decimal_escape(text: &[u8]) -> Part
    ensures exact { result ≡ decimal_escape text.now }
    ensures within { IsPartWithin (length text.now + 1) result }
{
    let n = digits_len(false, first_three(text));
    if n == 0 {
        return Part::Bad;
    }
    match value_of(10, before(text, n)) {
        Some(v) if v <= 255 => Part::Byte(v as u8, n + 1),
        _ => Part::Bad,
    }
}

/// What stands behind a backslash.
#[tactic(auto, unfolding(crate::specs::Escapes::escape))]
fn escape(text: &[u8]) -> Part
    ensures exact { result ≡ escape text.now }
    ensures within { IsPartWithin (length text.now + 1) result }
{
    let [c, rest @ ..] = text else {
        return Part::Unclosed;
    };
    if *c == b'z' {
        Part::Skip(blank_len(rest) + 2)
    } else if *c == b'x' {
        hex_escape(rest)
    } else {
        match escaped(*c) {
            Some(b) => Part::Byte(b, 2),
            None => decimal_escape(text),
        }
    }
}

/// What stands at the front between quotes.
#[tactic(auto, unfolding(crate::specs::Escapes::part_at))]
fn part_at(quote: u8, text: &[u8]) -> Part
    ensures exact { result ≡ part_at quote text.now }
    ensures within { IsPartWithin (length text.now) result }
{
    match text {
        [] => Part::Unclosed,
        [b, rest @ ..] => {
            if *b == quote {
                Part::Close
            } else if *b == b'\n' {
                Part::Unclosed
            } else if *b == b'\\' {
                escape(rest)
            } else {
                Part::Byte(*b, 1)
            }
        }
    }
}

/// The text in quotes at the front.
#[tactic(auto, using(crate::proofs::QuotedSteps::quoted_close, crate::proofs::QuotedSteps::quoted_open, crate::proofs::QuotedSteps::quoted_bad, crate::proofs::QuotedSteps::quoted_byte, crate::proofs::QuotedSteps::quoted_skip, crate::proofs::QuotedSteps::quoted_end))]
pub fn quoted(quote: u8, text: &[u8]) -> Piece
    requires { 0 < length text.now }
    ensures exact { result ≡ quoted_from (length text.now + 1) quote text.now 1 }
    ensures within { IsWithin (length text.now) result }
{
    let mut at: usize = 1;
    for part in 0..text.len() + 1 {
        match part_at(quote, behind(text, at)) {
            Part::Close => return Piece::Token(TokenKind::Text, at + 1),
            Part::Unclosed => return Piece::Refused(Fault::OpenString, 0),
            Part::Byte(_, n) => at += n,
            Part::Skip(n) => at += n,
            Part::Bad => return Piece::Refused(Fault::BadEscape, at),
        }
    }
    Piece::Refused(Fault::OpenString, 0)
}

/// The bytes that a text in quotes stands for.
#[tactic(auto, unfolding(crate::specs::Values::bytes_from, crate::specs::Escapes::part_at))]
pub fn quoted_value(alloc: Global, text: &[u8]) -> Result<Vec<u8>, AllocError>
    ensures { IfOk result (λ v. v.items ≡ quoted_value text.now) }
{
    let mut out = Vec::new(alloc);
    if text.is_empty() {
        return Ok(out);
    }
    let quote = text[0];
    let mut at: usize = 1;
    for part in 0..text.len() + 1 {
        match part_at(quote, behind(text, at)) {
            Part::Byte(b, n) => {
                out.push(b)?;
                at += n;
            }
            Part::Skip(n) => at += n,
            Part::Close => return Ok(out),
            Part::Unclosed => return Ok(out),
            Part::Bad => return Ok(out),
        }
    }
    Ok(out)
}
