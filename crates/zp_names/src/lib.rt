//! Names of datasets, and the commands and queries that speak of them.
#![tactic(auto)]

mod bad_name;
mod command;
pub mod errno;
mod form;
mod list_kind;
mod moves;
mod name;
mod scan;
mod sequence;
#[cfg(test)]
mod tests;
mod verdict;

pub use bad_name::BadName;
pub use command::{Command, Query};
pub use form::Form;
pub use list_kind::ListKind;
pub use name::Name;
pub use scan::is_valid_short;
pub use sequence::{Bytes, Sequence, Texts};
pub use verdict::Verdict;
