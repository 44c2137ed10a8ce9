//! A host for tests of a machine, with few functions.
#![tactic(auto)]

mod few_functions;
mod row;
mod rows;
mod values;

pub use few_functions::FewFunctions;
