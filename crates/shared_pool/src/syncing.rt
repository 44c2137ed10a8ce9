//! Groups are moved on.
ghost use Rattle.std.specs.Prelude.{◌≡◌};
ghost use Rattle.txg_core.specs.Openings.{origin_at};
ghost use Rattle.shared_pool.specs.Passes.{GoesOn, IsSameSyncPass};
ghost use Rattle.shared_pool.specs.Moves.{Advances, TakesTurns};

use crate::answers::Advanced;
use crate::opening::SharedPool;
use crate::pass::SyncPass;
use crate::turns::{enter, leave};
use std::alloc::Global;
use std::sync::Wait;
use txg_core::SerialObject;
use zc_io::NoMemory;

impl<O: SerialObject + Drop> SharedPool<O> {
    /// Does one of a sync, an end, a begin and a quiesce, the first that may come next.
    pub fn advance<R: Wait>(
        &self,
        rt: &R,
        alloc: Global,
        pass: &mut SyncPass<O>,
    ) -> Result<Advanced, NoMemory>
        requires { pass.old.pool ≡ self.now.id }
        ensures same { IsSameSyncPass pass.old pass.new }
        ensures turns { TakesTurns result pass.old.turns pass.new.turns }
        ensures front { let o = origin_at O.means pass.old.opening in GoesOn o 0 pass.old.front (Advances o result) pass.new.front }
    {
        let mut core = enter(rt, &self.lock, &mut pass.seat);
        let answer = core.advance(alloc);
        pass.entries = core.count();
        leave(&self.lock, &mut pass.seat, core);
        answer
    }
}
