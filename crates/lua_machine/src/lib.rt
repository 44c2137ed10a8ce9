//! A machine that runs Lua programs with a host that serves their calls.
#![tactic(auto)]

mod beginning;
mod machine;
mod modes;
mod outcome;
mod parts;
mod serving;
mod trees;

pub use machine::Machine;
pub use outcome::Outcome;
