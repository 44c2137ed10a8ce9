//! Tests of the values and the heap of a program. They stand in a crate of their own, since a crate with tests is proved
//! twice.
#![tactic(auto)]

#[cfg(test)]
mod part_tests;
#[cfg(test)]
mod tests;
