//! Users of a turn lock: threads that add their numbers to one list.
#![tactic(auto)]

mod adding;
mod holding;
mod numbers;

pub use adding::{add, add_all, add_by_threads, numbers_of_threads};
pub use holding::{Holder, holder_of, look_in};
pub use numbers::Numbers;

#[cfg(test)]
mod tests;
