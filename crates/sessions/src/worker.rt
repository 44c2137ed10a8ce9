//! What each thread of a run does, and has.

use crate::asked::Asked;
use shared_pool::{Pass, SyncPass};
use txg_core::Stated;
use zp_names::Sequence;

/// A session's pass and the calls that it has still to make, the last one first; and the replies,
/// once it was given all.
#[derive(Drop)]
pub(crate) struct Caller<O: Stated + Drop> {
    pub(crate) session: u32,
    pub(crate) pass: Pass<O>,
    pub(crate) calls: Vec<Asked<O>>,
    pub(crate) replies: Option<Sequence<O::Reply>>,
}

/// A worker of a run.
#[derive(Drop)]
pub(crate) enum Worker<O: Stated + Drop> {
    /// It makes the calls of a session.
    Session(Caller<O>),
    /// It moves the groups on.
    Groups(SyncPass<O>),
}
