//! The basic functions of Lua, and those of `coroutine` as the main thread sees them (Lua 5.2 manual,
//! 6.1 and 6.2).
#![tactic(auto)]

mod calls;
mod coroutines;
mod function;
mod laws;
mod levels;
mod metatables;
mod numbers;
mod selecting;
mod tables;
mod values;
mod walks;

pub use calls::base_call;
pub use function::{BaseFunction, CoroutineFunction, TableFunction, ValueFunction, base_function};
pub use laws::calls_only_add;
