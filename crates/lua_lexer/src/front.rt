//! What stands at the front of the rest of a text.

ghost use Rattle.std.specs.Prelude.{◌≡◌, length};
ghost use Rattle.lua_lexer.specs.Scan.{scan, IsWithin};

use crate::TokenKind;
use crate::bracket::{bracket, comment};
use crate::bytes::{before, behind, byte_at, is_blank, is_name_start, is_quote, name_len};
use crate::numeral::{is_hexadecimal, numeral};
use crate::piece::Piece;
use crate::quoted::quoted;
use crate::symbol::{dots, symbol_at};
use crate::word::word_kind;

/// The piece at the front of a text.
#[tactic(auto, unfolding(crate::specs::Scan::scan))]
pub fn piece_at(text: &[u8]) -> Piece
    ensures exact { result ≡ scan text.now }
    ensures within { IsWithin (length text.now) result }
{
    let [b, rest @ ..] = text else {
        return Piece::Nothing;
    };
    let b = *b;
    if is_blank(b) {
        Piece::Gap(1)
    } else if is_name_start(b) {
        let n = name_len(text);
        Piece::Token(word_kind(before(text, n)), n)
    } else if b.is_ascii_digit() {
        numeral(is_hexadecimal(text), text)
    } else if is_quote(b) {
        quoted(b, text)
    } else if b == b'[' {
        bracket(text)
    } else if b == b'-' {
        if byte_at(rest, 0) == b'-' {
            comment(behind(rest, 1))
        } else {
            Piece::Token(TokenKind::Minus, 1)
        }
    } else if b == b'.' {
        dots(rest)
    } else {
        symbol_at(b, rest)
    }
}
