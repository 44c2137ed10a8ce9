//! What stands at the front of the rest of a text.

ghost use Rattle.std.specs.Prelude.{◌≡◌};
ghost use Rattle.lua_lexer.specs.declared.lex_error.LexError.{LexError};
ghost use Rattle.lua_lexer.specs.Lexes.{refusal};

use crate::{LexError, TokenKind};

/// What can be wrong with a piece of a text.
#[derive(Clone, Copy, Debug, PartialEq, Eq, Drop)]
pub enum Fault {
    BadByte,
    OpenString,
    OpenComment,
    BadEscape,
    NotWhole,
    TooBig,
}

/// What stands at the front of the rest of a text.
#[derive(Clone, Copy, Debug, PartialEq, Eq, Drop)]
pub enum Piece {
    /// The rest is empty.
    Nothing,
    /// A blank or a comment of so many bytes.
    Gap(usize),
    /// A token of so many bytes.
    Token(TokenKind, usize),
    /// A fault, which lies so many bytes further on.
    Refused(Fault, usize),
}

/// The refusal of a text with this fault at this place.
pub fn refusal(fault: Fault, at: u32) -> LexError
    ensures { result ≡ refusal fault at }
{
    match fault {
        Fault::BadByte => LexError::BadByte(at),
        Fault::OpenString => LexError::OpenString(at),
        Fault::OpenComment => LexError::OpenComment(at),
        Fault::BadEscape => LexError::BadEscape(at),
        Fault::NotWhole => LexError::NotWhole(at),
        Fault::TooBig => LexError::TooBig(at),
    }
}
