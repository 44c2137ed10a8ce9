//! The calls of a session, and the replies to them.
#![tactic(auto)]

mod call;
mod json_text;
mod program;
mod reply;

pub use call::Call;
pub use json_text::JsonText;
pub use program::{Answer, ProgramCall, ProgramReply};
pub use reply::Reply;

#[cfg(test)]
mod tests;
