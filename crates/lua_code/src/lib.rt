//! What the meaning of a program reads of its text: one record, of functions over the numbers of
//! nodes, and the look-ups of `lua_scope` stated against it.
#![tactic(auto)]

pub mod laws;
mod lookups;

pub use lookups::{captured, first_variable, is_captured, variable};
