//! Why a text is no sequence of tokens.

use std::alloc::{AllocError, AllocFailed};

/// The first place where a text goes wrong. Places count bytes from 0.
#[derive(Clone, Copy, Debug, PartialEq, Eq, Drop)]
pub enum LexError {
    /// There was no memory left.
    NoMemory,
    /// A byte that begins no token, or that cannot follow a numeral.
    BadByte(u32),
    /// A literal string that is not closed, at its first byte.
    OpenString(u32),
    /// A long comment that is not closed, at its first dash.
    OpenComment(u32),
    /// An escape sequence that there is none of, at its backslash.
    BadEscape(u32),
    /// A numeral with a point or an exponent, at its first byte.
    NotWhole(u32),
    /// A numeral above 9223372036854775807, at its first byte.
    TooBig(u32),
}

impl From<AllocError> for LexError {
    ghost use Rattle.std.specs.Prelude.{◌≡◌};
    ghost use Rattle.lua_lexer.specs.declared.lex_error.LexError.{LexError};

    ghost from_gives = { λ _ e. e ≡ LexError.NoMemory };

    fn from(_error: AllocError) -> LexError {
        LexError::NoMemory
    }
}

impl<T: Drop> From<AllocFailed<T>> for LexError {
    ghost use Rattle.std.specs.Prelude.{◌≡◌};
    ghost use Rattle.lua_lexer.specs.declared.lex_error.LexError.{LexError};

    ghost from_gives = { λ _ e. e ≡ LexError.NoMemory };

    fn from(_error: AllocFailed<T>) -> LexError {
        LexError::NoMemory
    }
}
