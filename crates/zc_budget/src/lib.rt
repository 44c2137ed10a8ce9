//! The limits of a channel program (zfs-program(8)): instructions and memory, how much of both it
//! has used, and the stop that comes where a limit is reached. Nothing here takes memory.
#![tactic(auto)]

mod budget;
mod steps;
#[cfg(test)]
mod tests;

pub use budget::{Budget, GREATEST_BYTES, GREATEST_INSTRUCTIONS, Stop, greatest_limits};
pub use steps::Steps;
