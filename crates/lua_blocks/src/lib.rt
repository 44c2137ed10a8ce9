//! The steps of the parser of channel programs before and behind blocks (Lua 5.2 manual, 3.3 and section 9).
#![tactic(auto)]

mod block;
mod function;
mod header;

pub use block::end_block;
pub use header::close_in_header;
