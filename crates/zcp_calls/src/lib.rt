//! What the calls that a channel program makes of the pool do: whether a dataset is there, and the
//! changes of `zfs.sync` (zfs-program(8)).
#![tactic(auto)]

mod answering;
mod existing;
pub mod laws;
mod naming;
mod syncing;

pub use answering::{raise, raise_read_only};
pub use existing::exists;
pub use syncing::{SyncCall, sync_call};
