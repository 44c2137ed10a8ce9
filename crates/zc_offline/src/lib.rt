//! The top call: what the words on a command line ask, done with a source and a sink.
//!
//! It is a library, since a program can't be called from a crate above it, and its tests and the
//! commands that wait stand above.
#![tactic(auto)]

mod load_error;
mod load_results;
mod replay;
mod status;
mod top_call;
mod words;

pub use status::Status;
pub use top_call::offline;
pub use words::Asked;
