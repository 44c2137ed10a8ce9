//! Tests of the operators on a program's values. They stand in a crate of their own, since a crate
//! with tests is proved twice.
#![tactic(auto)]

#[cfg(test)]
mod error_tests;
#[cfg(test)]
mod metamethod_tests;
#[cfg(test)]
mod tests;
