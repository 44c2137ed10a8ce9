//! The top call that may wait: a document's sessions run on threads, and whatever `offline` does.
#![tactic(auto)]

mod laws;
mod running;
mod top_call;

pub use laws::{a_journal_replays, schedules_do_not_matter};
pub use running::run_document;
pub use top_call::zcpd;
