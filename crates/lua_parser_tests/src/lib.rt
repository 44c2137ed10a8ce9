//! Tests of the parser: texts with their trees and refusals. They stand in a crate of their own, since a crate with tests
//! is proved twice.
#![tactic(auto)]

#[cfg(test)]
mod printed;
#[cfg(test)]
mod tests;
