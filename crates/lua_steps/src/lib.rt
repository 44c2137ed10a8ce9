//! What the frames of a running program mean, and that each step of a machine keeps it.
//!
//! The meaning is in `specs/`, the lemmas for each step in `proofs/`.
#![tactic(auto)]

mod given;
mod mode;

pub use given::Given;
pub use mode::Mode;
