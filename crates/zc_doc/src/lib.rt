//! The document that says what a run is made of: one JSON object (RFC 8259) with a pool, a moment, a setup,
//! channel programs, the calls of each session and a schedule of events.
#![tactic(auto)]

mod call;
mod document;
mod error;
mod event;
mod program;
mod query;
mod reading;
mod setup;

pub use document::{Document, MOST_BYTES, Need, read_document};
pub use error::{DocError, Path};
pub use program::Program;
