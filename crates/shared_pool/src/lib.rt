//! A core that threads share: each holds a pass, and takes its turns at one turn lock.
//!
//! Sessions submit changes and collect their replies, or read; one thread moves the groups on.
//! Each reply is the meaning's reply at a point of one legal history, which begins with all that
//! the caller had seen.
#![tactic(auto)]

mod answers;
mod closing;
mod collecting;
mod entries;
mod group_entries;
mod histories;
mod opening;
mod pass;
mod progress;
mod reading;
mod recorded_core;
mod session_turns;
mod submitting;
mod syncing;
mod turns;

pub use answers::{Advanced, Closed, Refusal, Ticket, View};
pub use opening::SharedPool;
pub use pass::{Pass, SyncPass};
