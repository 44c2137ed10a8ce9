//! The reading of a whole text.

ghost use Rattle.std.specs.Prelude.{◌≤◌, IfOk, IfErr, length};
ghost use Rattle.lua_lexer.specs.Lexes.{Lexes, IsRefusal};

use crate::bytes::{behind, newlines_in};
use crate::front::piece_at;
use crate::piece::{Piece, refusal};
use crate::{LexError, Token};
use std::alloc::Global;

/// The tokens of a text of at most 1,048,576 bytes, or the refusal at the first place where it has none.
/// Each token is the longest that fits at its place (Lua 5.2 manual, section 3.1, without numerals that are not whole).
pub fn lex(alloc: Global, text: &[u8]) -> Result<Vec<Token>, LexError>
    requires { length text.now ≤ 1048576 }
    ensures tokens { IfOk result (λ tokens. Lexes text.now tokens.items) }
    ensures refused { IfErr result (λ error. IsRefusal text.now error) }
{
    let mut tokens = Vec::new(alloc);
    let mut at: usize = 0;
    let mut line: usize = 1;
    'pieces: loop {
        let rest = behind(text, at);
        let len = match piece_at(rest) {
            Piece::Nothing => return Ok(tokens),
            Piece::Refused(fault, offset) => return Err(refusal(fault, (at + offset) as u32)),
            Piece::Gap(len) => len,
            Piece::Token(kind, len) => {
                tokens.push(Token {
                    kind,
                    start: at as u32,
                    end: (at + len) as u32,
                    line: line as u32,
                })?;
                len
            }
        };
        line += newlines_in(rest, len);
        at += len;
    }
}
