//! What the workers of a run share.

use crate::gate::Gate;
use crate::signals::Signals;
use shared_pool::SharedPool;
use std::alloc::Global;
use txg_core::Stated;

/// What all workers of a run are lent.
#[derive(Drop)]
pub(crate) struct Shared<'a, O: Stated + Drop, G: Gate> {
    pub(crate) alloc: Global,
    pub(crate) pool: SharedPool<O>,
    pub(crate) signals: Signals,
    pub(crate) gate: &'a G,
}
