//! The steps of the parser of channel programs within expressions (Lua 5.2 manual, 3.4 and section 9).
#![tactic(auto)]

mod call;
mod close;
mod expression;
mod field;
mod literal;
mod suffix;

pub use call::args_begin;
pub use close::{close_args, close_index, close_key, close_paren, finish_operation};
pub use expression::{begin, begin_in};
pub use field::{args_open, field_next, field_over, key_end};
pub use suffix::{extend, suffix_at};
