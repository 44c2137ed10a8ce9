//! What the functions of the library `string` make of the bytes of texts (Lua 5.2 manual, 6.4).
#![tactic(auto)]

mod finding;
mod letters;
mod positions;
mod repeating;
#[cfg(test)]
mod tests;

pub use finding::first_place;
pub use letters::{lower, reversed, upper};
pub use positions::part;
pub use repeating::{repeated, repeated_bytes};
