//! What a Lua 5.2 program means: its values, what it works on, and each node of its tree.
//!
//! The meaning is in `specs/`. The types here are those of which it speaks, and each law is a
//! function that does nothing and has the law as its contract.
#![tactic(auto)]

mod builtin;
mod ids;
mod iter;
pub mod laws;
mod status;
#[cfg(test)]
mod tests;
mod text;
mod value;
mod variable;

pub use builtin::Builtin;
pub use ids::{CellId, ClosureId, IterId, TableId, ThreadId};
pub use iter::IterState;
pub use status::{After, CoStatus};
pub use text::LuaText;
pub use value::Value;
pub use variable::{Slot, Target};
