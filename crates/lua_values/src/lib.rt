//! The values of a running program, lists of them, and what a built-in answers.
#![tactic(auto)]

mod builtin_result;
mod charge;
mod closure;
mod event;
mod fault;
mod heap;
mod iter;
mod list;
mod start;
mod table;
mod walk;

pub use builtin_result::BuiltinResult;
pub use event::Event;
pub use fault::HeapFault;
pub use heap::Heap;
pub use list::ValueList;
pub use lua_meaning::{
    After, Builtin, CellId, ClosureId, IterId, IterState, LuaText, TableId, ThreadId, Value,
};

/// The lines of the calls in progress: that of the node at work, then those at which the other
/// calls of the running coroutine were made, innermost first.
pub type Lines<'a> = &'a [u32];
