//! Changes are submitted.
ghost use Rattle.std.specs.Prelude.{◌≡◌, ◌+◌, ◌<◌, false, IfOk};
ghost use Rattle.txg_core.specs.declared.object.Kind.{Kind as KindOf};
ghost use Rattle.txg_core.specs.Openings.{origin_at};
ghost use Rattle.shared_pool.specs.Passes.{GoesOn, IsSamePass, is_pass_busy, calls_left};
ghost use Rattle.shared_pool.specs.Submits.{Submits, IsPassTicket};

use crate::answers::{Refusal, Ticket};
use crate::opening::SharedPool;
use crate::pass::Pass;
use crate::turns::{enter, leave};
use std::alloc::Global;
use std::sync::{Arc, Wait};
use txg_core::{SerialObject, Task};

impl<O: SerialObject + Drop> SharedPool<O> {
    /// Checks the session's next call, a change, in one turn, and queues it where the check passes.
    /// `collect` then gives the reply.
    pub fn submit<R: Wait>(
        &self,
        rt: &R,
        alloc: Global,
        pass: &mut Pass<O>,
        call: O::Call,
    ) -> Result<Ticket, Refusal<O::Reply>>
        requires own { pass.old.pool ≡ self.now.id }
        requires idle { is_pass_busy O.means pass.old ≡ false }
        requires left { 0 < calls_left O.means pass.old }
        requires change { O.kind_of call ≡ KindOf.Change }
        ensures same { IsSamePass pass.old pass.new }
        ensures front { let o = origin_at O.means pass.old.opening in GoesOn o (pass.old.session + 1) pass.old.front (Submits o pass.old.session call result) pass.new.front }
        ensures ticket { IfOk result (λ t. IsPassTicket O.means pass.new t) }
    {
        let session = pass.session;
        let call_no = pass.progress.next;
        let Ok(task) = Arc::new(
            alloc,
            Task {
                session,
                call_no,
                call,
            },
        ) else {
            return Err(Refusal::NoMemory);
        };
        let mut core = enter(rt, &self.lock, &mut pass.seat);
        let answer = core.submit(alloc, task);
        pass.progress = core.progress(session);
        leave(&self.lock, &mut pass.seat, core);
        answer
    }
}
