//! Sessions on threads that add to one counter: the tests of `sessions`.
#![tactic(auto)]

mod gates;
mod requests;
mod runs;
#[cfg(test)]
mod tests;

pub use gates::{AllQueued, SecondFirst};
pub use requests::{additions, session_of};
pub use runs::run_counter;
