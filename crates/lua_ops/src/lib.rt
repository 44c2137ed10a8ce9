//! The operators of Lua on the values of a running program (Lua 5.2 manual, 3.4.1 to 3.4.6).
#![tactic(auto)]

mod arithmetic;
mod comparison;
mod errors;
mod lengths;
mod metamethods;
mod numbers;
mod result;
mod texts;

pub use arithmetic::{ArithOp, arith};
pub use comparison::{CompareOp, compare, equal};
pub use errors::{fails, fails_on, type_name};
pub use lengths::length;
pub use numbers::{number_of, to_int, without_blanks};
pub use result::OpResult;
pub use texts::{concat, to_text};
