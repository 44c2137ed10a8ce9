//! The text of a channel program that does not load.

ghost use Rattle.std.specs.Prelude.{◌≡◌, IfOk, string_bytes};
ghost use Rattle.zc_offline.specs.LoadErrors.{lex_kind, parse_kind, load_kind, lex_number, parse_number, load_number, load_error_text};

use lua_lexer::LexError;
use lua_parser::ParseError;
use lua_scope::LoadError;
use std::alloc::{AllocError, Global};

fn lex_kind(error: LexError) -> &'static str
    ensures { result.now ≡ lex_kind error }
{
    match error {
        LexError::NoMemory => "NoMemory",
        LexError::BadByte(_) => "BadByte",
        LexError::OpenString(_) => "OpenString",
        LexError::OpenComment(_) => "OpenComment",
        LexError::BadEscape(_) => "BadEscape",
        LexError::NotWhole(_) => "NotWhole",
        LexError::TooBig(_) => "TooBig",
    }
}

fn parse_kind(error: ParseError) -> &'static str
    ensures { result.now ≡ parse_kind error }
{
    match error {
        ParseError::Unexpected(_) => "Unexpected",
        ParseError::TooDeep(_) => "TooDeep",
        ParseError::EndOfText(_) => "EndOfText",
        ParseError::NoMemory => "NoMemory",
    }
}

/// The kind of the innermost refusal.
fn load_kind(error: LoadError) -> &'static str
    ensures { result.now ≡ load_kind error }
{
    match error {
        LoadError::TextTooLong(_) => "TextTooLong",
        LoadError::Lex(error) => lex_kind(error),
        LoadError::Parse(error) => parse_kind(error),
        LoadError::NoLabel(_) => "NoLabel",
        LoadError::TwoLabels(_) => "TwoLabels",
        LoadError::JumpsIntoLocal(_) => "JumpsIntoLocal",
        LoadError::BreakOutside(_) => "BreakOutside",
        LoadError::VarargOutside(_) => "VarargOutside",
        LoadError::NoMemory => "NoMemory",
    }
}

fn lex_number(error: LexError) -> u64
    ensures { result ≡ lex_number error }
{
    match error {
        LexError::NoMemory => 0,
        LexError::BadByte(at)
        | LexError::OpenString(at)
        | LexError::OpenComment(at)
        | LexError::BadEscape(at)
        | LexError::NotWhole(at)
        | LexError::TooBig(at) => at as u64,
    }
}

fn parse_number(error: ParseError) -> u64
    ensures { result ≡ parse_number error }
{
    match error {
        ParseError::Unexpected(at) | ParseError::TooDeep(at) => at as u64,
        ParseError::EndOfText(bytes) => bytes as u64,
        ParseError::NoMemory => 0,
    }
}

/// The number that the innermost refusal carries, or the length of a text that ends too early.
fn load_number(error: LoadError) -> u64
    ensures { result ≡ load_number error }
{
    match error {
        LoadError::TextTooLong(bytes) => bytes,
        LoadError::Lex(error) => lex_number(error),
        LoadError::Parse(error) => parse_number(error),
        LoadError::NoLabel(line)
        | LoadError::TwoLabels(line)
        | LoadError::JumpsIntoLocal(line)
        | LoadError::BreakOutside(line)
        | LoadError::VarargOutside(line) => line as u64,
        LoadError::NoMemory => 0,
    }
}

/// What is told of a text that is refused so.
pub(crate) fn load_error_text(alloc: Global, error: LoadError) -> Result<String, AllocError>
    ensures { IfOk result (λ text. string_bytes text ≡ load_error_text error) }
{
    let kind = load_kind(error);
    let number = load_number(error);
    format!(in alloc; "the text does not load: {kind} at {number}")
}
