//! Replies are collected.
ghost use Rattle.std.specs.Prelude.{◌≡◌, ◌+◌, IfNone};
ghost use Rattle.txg_core.specs.Openings.{origin_at};
ghost use Rattle.shared_pool.specs.Passes.{GoesOn, IsSamePass};
ghost use Rattle.shared_pool.specs.Submits.{IsPassTicket};
ghost use Rattle.shared_pool.specs.Collects.{Collects, Tries};

use crate::answers::Ticket;
use crate::opening::SharedPool;
use crate::pass::Pass;
use crate::turns::{enter, leave};
use std::sync::Wait;
use std::thread;
use txg_core::Stated;
use zc_io::NoMemory;

impl<O: Stated + Drop> SharedPool<O> {
    /// One turn of `collect`.
    fn try_collect<R: Wait>(
        &self,
        rt: &R,
        pass: &mut Pass<O>,
        ticket: &Ticket,
    ) -> Option<Result<O::Reply, NoMemory>>
        requires own { pass.old.pool ≡ self.now.id }
        requires ticket { IsPassTicket O.means pass.old ticket.now }
        ensures same { IsSamePass pass.old pass.new }
        ensures front { let o = origin_at O.means pass.old.opening in GoesOn o (pass.old.session + 1) pass.old.front (Tries o ticket.now result) pass.new.front }
        ensures ticket { IfNone result (IsPassTicket O.means pass.new ticket.now) }
    {
        let session = pass.session;
        let mut core = enter(rt, &self.lock, &mut pass.seat);
        let answer = core.try_take(ticket);
        pass.progress = core.progress(session);
        leave(&self.lock, &mut pass.seat, core);
        answer
    }

    /// Waits until the ticket's group is synced, and gives the reply to its call.
    ///
    /// It takes turns until then, and no memory. `NoMemory` says that the core is spent, and that
    /// the group will not be synced.
    pub fn collect<R: Wait>(
        &self,
        rt: &R,
        pass: &mut Pass<O>,
        ticket: Ticket,
    ) -> Result<O::Reply, NoMemory>
        requires own { pass.old.pool ≡ self.now.id }
        requires ticket { IsPassTicket O.means pass.old ticket }
        ensures same { IsSamePass pass.old pass.new }
        ensures front { let o = origin_at O.means pass.old.opening in GoesOn o (pass.old.session + 1) pass.old.front (Collects o ticket result) pass.new.front }
    {
        for _ in rt.forever() {
            if let Some(answer) = self.try_collect(rt, pass, &ticket) {
                return answer;
            }
            thread::yield_now();
        }
        unreachable!()
    }
}
