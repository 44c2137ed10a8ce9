//! Gates that hold a run up, for a bounded time.

use sessions::Gate;
use std::sync::atomic::{AtomicU64, Ordering};
use std::thread;

/// How often a gate looks before it gives up.
const MOST_LOOKS: u64 = 100_000_000;

/// Looks until the word is so much, or gives up and says so.
fn wait_until(word: &AtomicU64, wanted: u64) -> bool {
    for _ in 0..MOST_LOOKS {
        if word.load(Ordering::SeqCst) >= wanted {
            return true;
        }
        thread::yield_now();
    }
    false
}

/// Holds the first call of session 0 until session 1 was given its first reply.
#[derive(Drop)]
pub struct SecondFirst {
    answered: AtomicU64,
    in_time: AtomicU64,
}

impl SecondFirst {
    pub fn new() -> SecondFirst {
        SecondFirst {
            answered: AtomicU64::new(0),
            in_time: AtomicU64::new(0),
        }
    }

    /// Whether session 0 was held, and let go in time.
    pub fn was_in_time(&self) -> bool {
        self.in_time.load(Ordering::SeqCst) == 1
    }
}

impl Gate for SecondFirst {
    fn before(&self, session: u32, call: u32) {
        if session == 0 && call == 0 && wait_until(&self.answered, 1) {
            self.in_time.store(1, Ordering::SeqCst);
        }
    }

    fn queued(&self, _session: u32, _call: u32) {}

    fn after(&self, session: u32, call: u32) {
        if session == 1 && call == 0 {
            self.answered.store(1, Ordering::SeqCst);
        }
    }

    fn before_advance(&self, _synced: u64) {}
}

/// Holds the groups until so many changes are queued.
#[derive(Drop)]
pub struct AllQueued {
    wanted: u64,
    queued: AtomicU64,
    in_time: AtomicU64,
}

impl AllQueued {
    pub fn new(wanted: u64) -> AllQueued {
        AllQueued {
            wanted,
            queued: AtomicU64::new(0),
            in_time: AtomicU64::new(0),
        }
    }

    /// Whether the groups were held, and let go in time.
    pub fn was_in_time(&self) -> bool {
        self.in_time.load(Ordering::SeqCst) == 1
    }
}

impl Gate for AllQueued {
    fn before(&self, _session: u32, _call: u32) {}

    fn queued(&self, _session: u32, _call: u32) {
        self.queued.fetch_add(1, Ordering::SeqCst);
    }

    fn after(&self, _session: u32, _call: u32) {}

    fn before_advance(&self, _synced: u64) {
        if wait_until(&self.queued, self.wanted) {
            self.in_time.store(1, Ordering::SeqCst);
        }
    }
}
