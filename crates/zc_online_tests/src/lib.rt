//! Runs of documents on threads, and the replay of the journal of each: the tests of `zc_online`.
#![tactic(auto)]

mod documents;
#[cfg(test)]
mod tests;

pub use documents::{journal_in, two_creates};
