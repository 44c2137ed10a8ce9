//! Users of a shared pool: sessions that add to one counter, on one thread and on threads.
#![tactic(auto)]

mod calls;
mod counter;
#[cfg(test)]
mod tests;
mod threads;

pub use calls::{advance, ask, collect, counter_for_one, end_for_one, submit_addition};
pub use counter::{Counter, Request};
pub use threads::{add_all, add_on_threads};
