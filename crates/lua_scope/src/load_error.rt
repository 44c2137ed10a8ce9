//! Why a text does not load.

ghost use Rattle.std.specs.Prelude.{◌≡◌};
ghost use Rattle.lua_scope.specs.Loads.{of_lex, of_parse};

use lua_lexer::LexError;
use lua_parser::ParseError;
use std::alloc::AllocError;

/// Why a text does not load: its first refusal, in this order.
#[derive(Clone, Copy, PartialEq, Eq, Debug, Drop)]
pub enum LoadError {
    /// It has so many bytes, more than 1,048,576.
    TextTooLong(u64),
    /// Its bytes are no sequence of tokens.
    Lex(LexError),
    /// Its tokens are no text of the grammar.
    Parse(ParseError),
    /// The goto on this line finds no label (Lua 5.2 manual, 3.3.4).
    NoLabel(u32),
    /// The label on this line is in its block already (3.3.4).
    TwoLabels(u32),
    /// The goto on this line jumps into the scope of a local (3.3.4).
    JumpsIntoLocal(u32),
    /// The break on this line stands in no loop of its function (3.3.4).
    BreakOutside(u32),
    /// The `...` on this line stand in a function without them (3.4.10).
    VarargOutside(u32),
    /// There was no memory left, or 32 bits can't number the variables.
    NoMemory,
}

impl From<AllocError> for LoadError {
    ghost use Rattle.std.specs.Prelude.{◌≡◌};
    ghost use Rattle.lua_scope.specs.declared.load_error.LoadError.TheVariants as error;

    ghost from_gives = { λ _ e. e ≡ error.NoMemory };

    fn from(_error: AllocError) -> LoadError {
        LoadError::NoMemory
    }
}

/// The refusal of a text without tokens.
pub(crate) fn of_lex(error: LexError) -> LoadError
    ensures { result ≡ of_lex error }
{
    match error {
        LexError::NoMemory => LoadError::NoMemory,
        error => LoadError::Lex(error),
    }
}

/// The refusal of a text whose tokens are none of the grammar.
pub(crate) fn of_parse(error: ParseError) -> LoadError
    ensures { result ≡ of_parse error }
{
    match error {
        ParseError::NoMemory => LoadError::NoMemory,
        error => LoadError::Parse(error),
    }
}
