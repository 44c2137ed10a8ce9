//! Symbols.

ghost use Rattle.std.specs.Prelude.{◌≡◌, ◌<◌, ◌≤◌, ◌+◌, ◌==◌, if◌then◌else◌, Some, IfSome, length, slice_index};
ghost use Rattle.lua_lexer.specs.Scan.{symbol, symbol_by, dots, IsWithin};

use crate::TokenKind;
use crate::bytes::byte_at;
use crate::piece::{Fault, Piece};

/// A symbol of two bytes where the next byte is its second, else the one of the first byte alone.
fn one_or_two(next: u8, second: u8, two: TokenKind, one: TokenKind) -> Option<(TokenKind, usize)>
    ensures exact { result ≡ (if next == second then Some (two, 2) else Some (one, 1)) }
    ensures within { IfSome result (λ t. (0 < t.1) × (t.1 ≤ 2) × (t.1 ≡ 2 → next ≡ second)) }
{
    if next == second {
        Some((two, 2))
    } else {
        Some((one, 1))
    }
}

/// A symbol that begins with neither `[` nor `-` nor `.`, and its length, by its first byte and the next.
#[tactic(auto, unfolding(crate::specs::Scan::symbol))]
fn symbol(b: u8, next: u8) -> Option<(TokenKind, usize)>
    ensures exact { result ≡ symbol b next }
    ensures within { IfSome result (λ t. (0 < t.1) × (t.1 ≤ 2) × (t.1 ≡ 2 → 0 < next)) }
{
    match b {
        b'+' => Some((TokenKind::Plus, 1)),
        b'*' => Some((TokenKind::Star, 1)),
        b'/' => Some((TokenKind::Slash, 1)),
        b'%' => Some((TokenKind::Percent, 1)),
        b'^' => Some((TokenKind::Caret, 1)),
        b'#' => Some((TokenKind::Hash, 1)),
        b'(' => Some((TokenKind::OpenParen, 1)),
        b')' => Some((TokenKind::CloseParen, 1)),
        b'{' => Some((TokenKind::OpenBrace, 1)),
        b'}' => Some((TokenKind::CloseBrace, 1)),
        b']' => Some((TokenKind::CloseBracket, 1)),
        b';' => Some((TokenKind::Semicolon, 1)),
        b',' => Some((TokenKind::Comma, 1)),
        b'~' => if next == b'=' {
            Some((TokenKind::NotEqual, 2))
        } else {
            None
        },
        b'=' => one_or_two(next, b'=', TokenKind::Equal, TokenKind::Assign),
        b'<' => one_or_two(next, b'=', TokenKind::LessEqual, TokenKind::Less),
        b'>' => one_or_two(next, b'=', TokenKind::GreaterEqual, TokenKind::Greater),
        b':' => one_or_two(next, b':', TokenKind::DoubleColon, TokenKind::Colon),
        _ => None,
    }
}

/// Such a symbol, or a byte that begins nothing.
pub fn symbol_at(b: u8, rest: &[u8]) -> Piece
    ensures exact { result ≡ symbol_by (symbol b (slice_index rest.now 0)) }
    ensures within { IsWithin (length rest.now + 1) result }
{
    match symbol(b, byte_at(rest, 0)) {
        Some((kind, n)) => Piece::Token(kind, n),
        None => Piece::Refused(Fault::BadByte, 0),
    }
}

/// The dots at the front, of which the first is taken, or a numeral that begins with its point.
#[tactic(auto, unfolding(crate::specs::Scan::dots))]
pub fn dots(rest: &[u8]) -> Piece
    ensures exact { result ≡ dots rest.now }
    ensures within { IsWithin (length rest.now + 1) result }
{
    if byte_at(rest, 0) == b'.' {
        if byte_at(rest, 1) == b'.' {
            Piece::Token(TokenKind::Ellipsis, 3)
        } else {
            Piece::Token(TokenKind::Concat, 2)
        }
    } else if byte_at(rest, 0).is_ascii_digit() {
        Piece::Refused(Fault::NotWhole, 0)
    } else {
        Piece::Token(TokenKind::Dot, 1)
    }
}
