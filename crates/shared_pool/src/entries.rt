//! The entries that sessions make, each one more in the history.
ghost use Rattle.std.specs.Prelude.{◌≡◌, ◌↔◌, ◌<◌, false, IfOk, OnOk, OnErr, IsErr};
ghost use Rattle.txg_core.specs.declared.object.Kind.{Kind as KindOf};
ghost use Rattle.txg_core.specs.Openings.{origin_at};
ghost use Rattle.txg_core.specs.History.{holds, checks, enqueues, reads, takes, open_group, synced, joined};
ghost use Rattle.txg_core.specs.Serial.{world, next};
ghost use Rattle.txg_core.specs.Sessions.{phase, decided, IsQueued};
ghost use Rattle.txg_core.specs.Enabled.{Enabled};
ghost use Rattle.txg_core.specs.Laws.{IsSynced};
ghost use Rattle.txg_core.specs.Stands.{verdict_of};
ghost use Rattle.shared_pool.specs.Recordings.{one_entry_more, as_spent};

use crate::histories::{after_take, with_step, with_task};
use crate::recorded_core::RecordedCore;
use std::alloc::Global;
use std::sync::Arc;
use txg_core::{Checked, NotYet, SerialObject, Stated, Step, Task};
use zc_io::NoMemory;

impl<O: Stated + Drop> RecordedCore<O> {
    pub(crate) fn hold(&mut self, session: u32, call: &O::Call) -> u64
        requires unspent { self.old.spent ≡ false }
        requires may { Enabled (origin_at O.means self.old.opening) self.old.history (holds session call.now) }
        ensures made { self.new ≡ one_entry_more self.old (holds session call.now) }
        ensures group { result ≡ open_group self.old.history }
    {
        let group = self.core.hold(session);
        self.history = with_step::<O>(&self.history, Step::Hold, session, call);
        group
    }

    pub(crate) fn enqueue(&mut self, task: Arc<Task<O>>)
        requires unspent { self.old.spent ≡ false }
        requires may { Enabled (origin_at O.means self.old.opening) self.old.history (enqueues task.value.session task.value.call) }
        requires number { task.value.call_no ≡ next (origin_at O.means self.old.opening) self.old.history task.value.session }
        ensures { self.new ≡ one_entry_more self.old (enqueues task.value.session task.value.call) }
    {
        self.history = with_task(&self.history, &task);
        self.core.enqueue(task);
    }

    /// The reply to the session's queued call, or that it is too early.
    pub(crate) fn take(&mut self, session: u32) -> Result<O::Reply, NotYet>
        requires { IsQueued (phase (origin_at O.means self.old.opening) self.old.history session) }
        ensures made { IfOk result (λ reply. (c : O.Call) × (self.new ≡ one_entry_more self.old (takes session c)) × (phase (origin_at O.means self.old.opening) self.old.history session ≡ decided c reply) × IsSynced (origin_at O.means self.old.opening) self.old.history session c reply) }
        ensures early { IsErr result ↔ (synced self.old.history < joined self.old.history session) }
        ensures same { OnErr result (self.new ≡ self.old) }
    {
        let history = after_take(&self.opening, &self.history, session);
        let done = self.core.take(session)?;
        self.history = history;
        Ok(done.reply)
    }
}

impl<O: SerialObject + Drop> RecordedCore<O> {
    pub(crate) fn check(
        &mut self,
        alloc: Global,
        session: u32,
        call: &O::Call,
    ) -> Result<Checked<O::Reply>, NoMemory>
        requires unspent { self.old.spent ≡ false }
        requires may { Enabled (origin_at O.means self.old.opening) self.old.history (checks session call.now) }
        requires change { O.kind_of call.now ≡ KindOf.Change }
        ensures made { OnOk result (self.new ≡ one_entry_more self.old (checks session call.now)) }
        ensures verdict { IfOk result (λ v. let o = origin_at O.means self.old.opening in v ≡ verdict_of (o.rules.check (world o self.old.history) call.now)) }
        ensures no_memory { OnErr result (self.new ≡ as_spent self.old) }
    {
        let verdict = self.core.check(alloc, session, call)?;
        self.history = with_step::<O>(&self.history, Step::Check, session, call);
        Ok(verdict)
    }

    pub(crate) fn read(
        &mut self,
        alloc: Global,
        session: u32,
        call: &O::Call,
    ) -> Result<O::Reply, NoMemory>
        requires unspent { self.old.spent ≡ false }
        requires may { Enabled (origin_at O.means self.old.opening) self.old.history (reads session call.now) }
        requires query { O.kind_of call.now ≡ KindOf.Query }
        ensures made { OnOk result (self.new ≡ one_entry_more self.old (reads session call.now)) }
        ensures reply { IfOk result (λ r. let o = origin_at O.means self.old.opening in r ≡ (o.rules.does (world o self.old.history) call.now 0).0) }
        ensures no_memory { OnErr result (self.new ≡ as_spent self.old) }
    {
        let reply = self.core.read(alloc, session, call)?;
        self.history = with_step::<O>(&self.history, Step::Read, session, call);
        Ok(reply)
    }
}
