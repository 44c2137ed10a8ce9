//! Why tokens are no text of the grammar.

/// Why tokens are no text of the grammar (Lua 5.2 manual, section 9). A place is that of the first byte of a token, from 0.
#[derive(Clone, Copy, Debug, PartialEq, Eq, Drop)]
pub enum ParseError {
    /// There was no memory left.
    NoMemory,
    /// The first token that no text of the grammar has after those before it.
    Unexpected(u32),
    /// The first token that opens a 201st level, where the grammar has it.
    TooDeep(u32),
    /// The text ends where it could go on. It has this many bytes.
    EndOfText(u32),
}
