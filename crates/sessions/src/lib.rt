//! Sessions on threads: one thread makes the calls of each session, and one more moves the
//! transaction groups on.
#![tactic(auto)]

mod advancing;
mod asked;
mod crew;
mod gate;
mod run;
mod serving;
mod shared;
mod signals;
mod worker;

pub use gate::{Gate, NoGate};
pub use run::{Run, run_sessions};
