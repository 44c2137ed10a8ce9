//! What is done in one turn. A spent core does nothing but give the replies that it keeps.
ghost use Rattle.std.specs.Prelude.{◌≡◌, ◌+◌, ◌∷◌, false, length, IfOk, IfNone, OnOk, OnErr};
ghost use Rattle.txg_core.specs.declared.object.Kind.{Kind as KindOf};
ghost use Rattle.txg_core.specs.Openings.{origin_at};
ghost use Rattle.txg_core.specs.History.{holds, checks, reads, open_group};
ghost use Rattle.txg_core.specs.Serial.{world, next};
ghost use Rattle.txg_core.specs.Enabled.{Enabled};
ghost use Rattle.txg_core.specs.Stands.{verdict_of};
ghost use Rattle.shared_pool.specs.Recordings.{one_entry_more, as_spent};
ghost use Rattle.shared_pool.specs.Submits.{Submits, ReadsOnce, IsTicketOf};
ghost use Rattle.shared_pool.specs.Collects.{Tries};
ghost use Rattle.shared_pool.specs.Moves.{Advances};

use crate::answers::{Advanced, Refusal, Ticket};
use crate::recorded_core::RecordedCore;
use std::alloc::Global;
use std::sync::Arc;
use txg_core::{Checked, SerialObject, Stated, Task};
use zc_io::NoMemory;

impl<O: Stated + Drop> RecordedCore<O> {
    /// The reply by the ticket; none where it is too early.
    pub(crate) fn try_take(&mut self, ticket: &Ticket) -> Option<Result<O::Reply, NoMemory>>
        requires { IsTicketOf (origin_at O.means self.old.opening) self.old.history ticket.now }
        ensures made { Tries (origin_at O.means self.old.opening) ticket.now result self.old.history self.new.history }
        ensures same { self.new.opening ≡ self.old.opening }
    {
        match self.take(ticket.session) {
            Ok(reply) => Some(Ok(reply)),
            Err(_) => {
                if self.spent() {
                    Some(Err(NoMemory))
                } else {
                    None
                }
            }
        }
    }
}

impl<O: SerialObject + Drop> RecordedCore<O> {
    /// The group that the session joins, how many entries come before the check, and what the
    /// check says.
    fn hold_and_check(
        &mut self,
        alloc: Global,
        session: u32,
        call: &O::Call,
    ) -> Result<(u64, u64, Checked<O::Reply>), NoMemory>
        requires unspent { self.old.spent ≡ false }
        requires may { Enabled (origin_at O.means self.old.opening) self.old.history (holds session call.now) }
        requires change { O.kind_of call.now ≡ KindOf.Change }
        ensures made { OnOk result (self.new ≡ one_entry_more (one_entry_more self.old (holds session call.now)) (checks session call.now)) }
        ensures group { IfOk result (λ r. r.0 ≡ open_group self.old.history) }
        ensures at { IfOk result (λ r. r.1 ≡ length self.old.history + 1) }
        ensures verdict { IfOk result (λ r. let o = origin_at O.means self.old.opening in r.2 ≡ verdict_of (o.rules.check (world o (holds session call.now ∷ self.old.history)) call.now)) }
        ensures no_memory { OnErr result (self.new ≡ as_spent (one_entry_more self.old (holds session call.now))) }
    {
        let group = self.hold(session, call);
        let at = self.count();
        let verdict = self.check(alloc, session, call)?;
        Ok((group, at, verdict))
    }

    fn queue(&mut self, alloc: Global, task: Arc<Task<O>>) -> Result<Ticket, Refusal<O::Reply>>
        requires unspent { self.old.spent ≡ false }
        requires may { Enabled (origin_at O.means self.old.opening) self.old.history (holds task.value.session task.value.call) }
        requires change { O.kind_of task.value.call ≡ KindOf.Change }
        requires number { task.value.call_no ≡ next (origin_at O.means self.old.opening) self.old.history task.value.session }
        ensures made { Submits (origin_at O.means self.old.opening) task.value.session task.value.call result self.old.history self.new.history }
        ensures same { self.new.opening ≡ self.old.opening }
    {
        let session = task.session;
        let call_no = task.call_no;
        match self.hold_and_check(alloc, session, &task.call) {
            Err(_) => Err(Refusal::NoMemory),
            Ok((_, at, Checked::Refused(reply))) => Err(Refusal::Checked { reply, at }),
            Ok((group, _, Checked::Passed)) => {
                self.enqueue(task);
                Ok(Ticket {
                    session,
                    call_no,
                    group,
                })
            }
        }
    }

    /// Holds, checks, and queues where the check passes.
    pub(crate) fn submit(
        &mut self,
        alloc: Global,
        task: Arc<Task<O>>,
    ) -> Result<Ticket, Refusal<O::Reply>>
        requires may { Enabled (origin_at O.means self.old.opening) self.old.history (holds task.value.session task.value.call) }
        requires change { O.kind_of task.value.call ≡ KindOf.Change }
        requires number { task.value.call_no ≡ next (origin_at O.means self.old.opening) self.old.history task.value.session }
        ensures made { Submits (origin_at O.means self.old.opening) task.value.session task.value.call result self.old.history self.new.history }
        ensures same { self.new.opening ≡ self.old.opening }
    {
        if self.spent() {
            return Err(Refusal::NoMemory);
        }
        self.queue(alloc, task)
    }

    /// Answers a query.
    pub(crate) fn ask(
        &mut self,
        alloc: Global,
        session: u32,
        call: &O::Call,
    ) -> Result<O::Reply, NoMemory>
        requires may { Enabled (origin_at O.means self.old.opening) self.old.history (reads session call.now) }
        requires query { O.kind_of call.now ≡ KindOf.Query }
        ensures made { ReadsOnce session call.now result self.old.history self.new.history }
        ensures reply { IfOk result (λ r. let o = origin_at O.means self.old.opening in r ≡ (o.rules.does (world o self.old.history) call.now 0).0) }
        ensures same { self.new.opening ≡ self.old.opening }
    {
        if self.spent() {
            return Err(NoMemory);
        }
        self.read(alloc, session, call)
    }

    /// Makes the first move of the groups that may come next.
    pub(crate) fn advance(&mut self, alloc: Global) -> Result<Advanced, NoMemory>
        ensures made { Advances (origin_at O.means self.old.opening) result self.old.history self.new.history }
        ensures same { self.new.opening ≡ self.old.opening }
    {
        if self.spent() {
            return Err(NoMemory);
        }
        match self.move_on(alloc)? {
            Some(event) => Ok(Advanced::Moved(event)),
            None => Ok(Advanced::Idle { at: self.count() }),
        }
    }
}
