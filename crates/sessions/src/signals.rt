//! What the workers of a run tell each other, so that one that has nothing to do sleeps.
//!
//! No clause speaks of it: a proof doesn't say that a wait ends.

use std::sync::{Condvar, Mutex, Wait};

/// What was told so far.
#[derive(Drop)]
struct Told {
    /// How many changes were queued, modulo 2^64.
    queued: u64,
    /// The last group that is synced.
    synced: u64,
    /// How many sessions have ended.
    ended: u64,
    /// Whether a worker found no memory.
    stopped: bool,
}

/// The workers' board.
#[derive(Drop)]
pub(crate) struct Signals {
    told: Mutex<Told>,
    /// For the worker that moves the groups on.
    work: Condvar,
    /// For those of the sessions.
    news: Condvar,
}

impl Signals {
    pub(crate) fn new() -> Signals {
        Signals {
            told: Mutex::new(Told {
                queued: 0,
                synced: 0,
                ended: 0,
                stopped: false,
            }),
            work: Condvar::new(),
            news: Condvar::new(),
        }
    }

    fn note_queued<R: Wait>(&self, rt: &R) {
        let mut told = self.told.lock(rt);
        told.queued = told.queued.wrapping_add(1);
    }

    fn note_synced<R: Wait>(&self, rt: &R, group: u64) {
        let mut told = self.told.lock(rt);
        told.synced = group;
    }

    fn note_ended<R: Wait>(&self, rt: &R) {
        let mut told = self.told.lock(rt);
        told.ended = told.ended.wrapping_add(1);
    }

    fn note_stopped<R: Wait>(&self, rt: &R) {
        let mut told = self.told.lock(rt);
        told.stopped = true;
    }

    /// A change is queued.
    pub(crate) fn queued<R: Wait>(&self, rt: &R) {
        self.note_queued(rt);
        self.work.notify_one();
    }

    /// All groups up to this one are synced.
    pub(crate) fn synced<R: Wait>(&self, rt: &R, group: u64) {
        self.note_synced(rt, group);
        self.news.notify_all();
    }

    /// A session has ended.
    pub(crate) fn ended<R: Wait>(&self, rt: &R) {
        self.note_ended(rt);
        self.work.notify_one();
    }

    /// A worker found no memory.
    pub(crate) fn stop<R: Wait>(&self, rt: &R) {
        self.note_stopped(rt);
        self.work.notify_one();
        self.news.notify_all();
    }

    /// How many changes were queued.
    pub(crate) fn queued_so_far<R: Wait>(&self, rt: &R) -> u64 {
        self.told.lock(rt).queued
    }

    /// Sleeps until the group is synced. False says that a worker found no memory before.
    pub(crate) fn wait_synced<R: Wait>(&self, rt: &R, group: u64) -> bool {
        let told = self.news.wait_while(rt, self.told.lock(rt), |told| {
            told.synced < group && !told.stopped
        });
        told.synced >= group
    }

    /// Sleeps until more changes are queued than these. False says that there is nothing more to
    /// do: all sessions have ended, or a worker found no memory.
    pub(crate) fn wait_queued<R: Wait>(&self, rt: &R, seen: u64, sessions: u64) -> bool {
        let told = self.work.wait_while(rt, self.told.lock(rt), |told| {
            told.queued == seen && told.ended < sessions && !told.stopped
        });
        told.ended < sessions && !told.stopped
    }
}
