//! Places at which a run can be held up, for tests of its threads.

/// What is told where a run is. No lock is held and no turn is taken meanwhile.
///
/// A gate answers nothing, and always returns. It may look for a bounded time at what threads
/// share.
pub trait Gate {
    /// A session is about to make its call of this number.
    fn before(&self, session: u32, call: u32);

    /// Its call, a change, is queued.
    fn queued(&self, session: u32, call: u32);

    /// The reply to its call is in hand.
    fn after(&self, session: u32, call: u32);

    /// The groups are about to be moved on, after so many were synced.
    fn before_advance(&self, synced: u64);
}

/// A gate that holds nothing up.
#[derive(Clone, Copy, Debug, Drop)]
pub struct NoGate;

impl Gate for NoGate {
    fn before(&self, _session: u32, _call: u32) {}

    fn queued(&self, _session: u32, _call: u32) {}

    fn after(&self, _session: u32, _call: u32) {}

    fn before_advance(&self, _synced: u64) {}
}
