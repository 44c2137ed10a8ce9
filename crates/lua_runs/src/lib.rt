//! That a machine which runs a program comes to its end, and to the outcome that the program means.
#![tactic(auto)]

pub mod laws;
