//! The parser of channel programs: from the tokens of a Lua 5.2 text to its tree.
#![tactic(auto)]

mod follow;
mod parse_error;
mod reading;
mod step;

pub use parse_error::ParseError;
pub use reading::parse;
