//! The machine's tables in Rust: the parts of a node by its number, how the nodes begin that make
//! nothing, and what each frame makes of values that it is given.
#![tactic(auto)]

mod calls;
mod loops;
mod operands;
pub mod parts;
mod start;
mod statements;
#[cfg(test)]
mod tests;

pub use calls::{argument_given, callee_given, native_given};
pub use loops::{count_given, each_given, repeat_given, while_given};
pub use operands::{is_true, operand_given, table_given, told, told_of, value_given};
pub use start::{list_start, operand_start, plain_start};
pub use statements::{body_given, if_given, local_given, result_given};
