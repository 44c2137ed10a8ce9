//! What a machine for Lua programs has beside what it does next, and what it does to it: the
//! heap, the call in progress and the frames.
#![tactic(auto)]

mod configuration;
mod data;
mod errors;
mod functions;
mod locals;
mod operators;
mod puts;

pub use configuration::Configuration;
pub use data::{is_function, is_nil};
pub use functions::captured_locals;
pub use puts::Put;
