//! Queries are answered.
ghost use Rattle.std.specs.Prelude.{◌≡◌, ◌+◌, ◌<◌, false, IfOk};
ghost use Rattle.txg_core.specs.declared.object.Kind.{Kind as KindOf};
ghost use Rattle.txg_core.specs.Openings.{origin_at};
ghost use Rattle.txg_core.specs.Serial.{world};
ghost use Rattle.shared_pool.specs.Passes.{GoesOn, IsSamePass, is_pass_busy, calls_left};
ghost use Rattle.shared_pool.specs.Submits.{ReadsOnce};

use crate::answers::View;
use crate::opening::SharedPool;
use crate::pass::Pass;
use crate::turns::{enter, leave};
use std::alloc::Global;
use std::sync::Wait;
use txg_core::SerialObject;
use zc_io::NoMemory;

impl<O: SerialObject + Drop> SharedPool<O> {
    /// Decides the session's next call, a query, in one turn. The view then gives its reply.
    pub fn open_read<R: Wait>(
        &self,
        rt: &R,
        alloc: Global,
        pass: &mut Pass<O>,
        call: O::Call,
    ) -> Result<View<O>, NoMemory>
        requires own { pass.old.pool ≡ self.now.id }
        requires idle { is_pass_busy O.means pass.old ≡ false }
        requires left { 0 < calls_left O.means pass.old }
        requires query { O.kind_of call ≡ KindOf.Query }
        ensures same { IsSamePass pass.old pass.new }
        ensures front { let o = origin_at O.means pass.old.opening in GoesOn o (pass.old.session + 1) pass.old.front (ReadsOnce pass.old.session call result) pass.new.front }
        ensures reply { IfOk result (λ view. let o = origin_at O.means pass.old.opening in view ≡ (o.rules.does (world o pass.new.front) call 0).0) }
    {
        let session = pass.session;
        let mut core = enter(rt, &self.lock, &mut pass.seat);
        let answer = core.ask(alloc, session, &call);
        pass.progress = core.progress(session);
        leave(&self.lock, &mut pass.seat, core);
        match answer {
            Ok(reply) => Ok(View { reply }),
            Err(no_memory) => Err(no_memory),
        }
    }
}
