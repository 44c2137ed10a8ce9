//! A lock whose takers know more than that they are alone.
//!
//! The value under the lock stands for a list of entries. Each seat has numbers of its own, and
//! entries have makers with such numbers. Who takes the value has one that stands for a list which
//! begins with all that its seat has seen, and in which no one else made an entry under the seat's
//! numbers.
#![tactic(auto)]

mod lock;
mod opening;
mod recorded;
mod seat;
mod seats;
mod steps;
mod turns;
mod view;

pub use lock::TurnLock;
pub use recorded::Recorded;
pub use seat::{Seat, SeatOf};
