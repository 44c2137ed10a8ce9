//! The groups, moved on until nothing is left to do.
ghost use Rattle.std.specs.Prelude.{◌≡◌};
ghost use Rattle.shared_pool.specs.Passes.{IsSameSyncPass};

use crate::gate::Gate;
use crate::shared::Shared;
use shared_pool::{Advanced, SyncPass};
use std::sync::Wait;
use txg_core::{Event, SerialObject};

impl<'a, O: SerialObject + Drop, G: Gate> Shared<'a, O, G> {
    /// One step: a move of the groups, or a wait for a change. It is told the last synced group, and
    /// tells it; none where there is nothing more to do.
    fn advance<R: Wait>(
        &self,
        rt: &R,
        pass: &mut SyncPass<O>,
        synced: u64,
        sessions: u64,
    ) -> Option<u64>
        requires { pass.old.pool ≡ self.now.pool.id }
        ensures { IsSameSyncPass pass.old pass.new }
    {
        let queued = self.signals.queued_so_far(rt);
        self.gate.before_advance(synced);
        match self.pool.advance(rt, self.alloc, pass) {
            Err(_) => {
                self.signals.stop(rt);
                None
            }
            Ok(Advanced::Idle { at: _ }) => {
                if self.signals.wait_queued(rt, queued, sessions) {
                    Some(synced)
                } else {
                    None
                }
            }
            Ok(Advanced::Moved(Event::End)) => {
                let synced = synced.wrapping_add(1);
                self.signals.synced(rt, synced);
                Some(synced)
            }
            Ok(Advanced::Moved(_)) => Some(synced),
        }
    }

    /// The work of the worker that moves the groups on, for so many sessions.
    pub(crate) fn advance_all<R: Wait>(&self, rt: &R, pass: &mut SyncPass<O>, sessions: u64)
        requires { pass.old.pool ≡ self.now.pool.id }
        ensures { IsSameSyncPass pass.old pass.new }
    {
        let mut synced = 0;
        for _ in rt.forever() {
            match self.advance(rt, pass, synced, sessions) {
                Some(group) => synced = group,
                None => break,
            }
        }
    }
}
