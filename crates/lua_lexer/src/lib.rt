//! The lexer of channel programs: from the bytes of a Lua 5.2 text to its tokens.
#![tactic(auto)]

mod bracket;
mod bytes;
mod front;
pub mod laws;
mod lex_error;
mod numeral;
mod piece;
mod quoted;
mod reading;
mod symbol;
#[cfg(test)]
mod tests;
mod text;
mod token;
mod word;

pub use lex_error::LexError;
pub use numeral::numeral_value;
pub use reading::lex;
pub use text::text_value;
pub use token::{Token, TokenKind};
