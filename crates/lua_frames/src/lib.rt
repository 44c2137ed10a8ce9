//! One step of a machine for Lua programs: what it does in each mode, to a configuration and by the
//! text of its program.
#![tactic(auto)]

mod assignments;
mod begin;
mod calls;
mod constants;
mod declaring;
mod fields;
mod given;
mod jumps;
mod loops;
mod stepping;

pub use constants::Constants;
pub use stepping::step;
