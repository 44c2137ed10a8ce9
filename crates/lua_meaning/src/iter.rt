//! Functions with a state.

use crate::ids::ThreadId;
use crate::text::LuaText;
use zp_names::ListKind;

/// The state of an iterator function.
#[derive(Drop)]
pub enum IterState {
    /// A list of the pool, with the id of what it goes over and the last name given.
    List {
        kind: ListKind,
        id: u64,
        last: LuaText,
    },
    /// A function of `coroutine.wrap`, which resumes this coroutine.
    Wrap(ThreadId),
}
