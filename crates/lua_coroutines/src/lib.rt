//! The frames of a running program: what each coroutine has still to do.
#![tactic(auto)]

mod call;
mod frame;
mod host;
mod stack;
mod targets;
#[cfg(test)]
mod tests;
mod threads;

pub use call::{CallInProgress, Lines};
pub use frame::{
    AssignFrame, BodyFrame, CalleeFrame, CountFrame, EachFrame, Frame, NativeFrame, OperandFrame,
    RepeatFrame, TableFrame, WhileFrame,
};
pub use host::Host;
pub use stack::Stack;
pub use targets::Targets;
pub use threads::CoTable;
