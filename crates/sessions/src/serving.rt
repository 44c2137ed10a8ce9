//! A session's calls, made one after the other.
ghost use Rattle.std.specs.Prelude.{◌≡◌, ◌+◌, ◌<◌, ◌∷◌, [], false, reverse, IfOk};
ghost use Rattle.txg_core.specs.declared.object.Kind.{Kind as KindOf};
ghost use Rattle.txg_core.specs.Openings.{origin_at};
ghost use Rattle.shared_pool.specs.Passes.{GoesOn, IsSamePass, is_pass_busy, calls_left};
ghost use Rattle.shared_pool.specs.Submits.{IsPassTicket};
ghost use Rattle.shared_pool.specs.Collects.{Collects};
ghost use Rattle.sessions.specs.Serving.{Serves, MayMake};
ghost use Rattle.sessions.specs.Workers.{Served};

use crate::asked::Asked;
use crate::gate::Gate;
use crate::shared::Shared;
use crate::worker::Caller;
use shared_pool::{Pass, Refusal, Ticket};
use std::sync::Wait;
use txg_core::{Kind, SerialObject};
use zc_io::NoMemory;
use zp_names::Sequence;

impl<'a, O: SerialObject + Drop, G: Gate> Shared<'a, O, G> {
    /// Sleeps until the ticket's group is synced, and collects the reply.
    fn collect<R: Wait>(
        &self,
        rt: &R,
        pass: &mut Pass<O>,
        ticket: Ticket,
    ) -> Result<O::Reply, NoMemory>
        requires own { pass.old.pool ≡ self.now.pool.id }
        requires ticket { IsPassTicket O.means pass.old ticket }
        ensures same { IsSamePass pass.old pass.new }
        ensures front { let o = origin_at O.means pass.old.opening in IfOk result (λ reply. GoesOn o (pass.old.session + 1) pass.old.front (Collects o ticket result) pass.new.front) }
    {
        if !self.signals.wait_synced(rt, ticket.group) {
            return Err(NoMemory);
        }
        self.pool.collect(rt, pass, ticket)
    }

    /// Makes a change, and waits for its reply.
    fn change<R: Wait>(
        &self,
        rt: &R,
        session: u32,
        number: u32,
        pass: &mut Pass<O>,
        call: O::Call,
    ) -> Result<O::Reply, NoMemory>
        requires own { pass.old.pool ≡ self.now.pool.id }
        requires idle { is_pass_busy O.means pass.old ≡ false }
        requires left { 0 < calls_left O.means pass.old }
        requires change { O.kind_of call ≡ KindOf.Change }
        ensures same { IsSamePass pass.old pass.new }
        ensures served { IfOk result (λ reply. Serves (origin_at O.means pass.old.opening) pass.old.session pass.old.front (call ∷ []) (reply ∷ []) pass.new.front) }
    {
        match self.pool.submit(rt, self.alloc, pass, call) {
            Err(Refusal::NoMemory) => Err(NoMemory),
            Err(Refusal::Checked { reply, at: _ }) => Ok(reply),
            Ok(ticket) => {
                self.signals.queued(rt);
                self.gate.queued(session, number);
                self.collect(rt, pass, ticket)
            }
        }
    }

    /// Makes a query.
    fn query<R: Wait>(
        &self,
        rt: &R,
        pass: &mut Pass<O>,
        call: O::Call,
    ) -> Result<O::Reply, NoMemory>
        requires own { pass.old.pool ≡ self.now.pool.id }
        requires idle { is_pass_busy O.means pass.old ≡ false }
        requires left { 0 < calls_left O.means pass.old }
        requires query { O.kind_of call ≡ KindOf.Query }
        ensures same { IsSamePass pass.old pass.new }
        ensures served { IfOk result (λ reply. Serves (origin_at O.means pass.old.opening) pass.old.session pass.old.front (call ∷ []) (reply ∷ []) pass.new.front) }
    {
        match self.pool.open_read(rt, self.alloc, pass, call) {
            Ok(view) => view.answer(),
            Err(no_memory) => Err(no_memory),
        }
    }

    /// Makes the session's call of this number, which is its next.
    fn make_call<R: Wait>(
        &self,
        rt: &R,
        session: u32,
        number: u32,
        pass: &mut Pass<O>,
        asked: Asked<O>,
    ) -> Result<O::Reply, NoMemory>
        requires own { pass.old.pool ≡ self.now.pool.id }
        requires idle { is_pass_busy O.means pass.old ≡ false }
        requires left { 0 < calls_left O.means pass.old }
        ensures same { IsSamePass pass.old pass.new }
        ensures served { IfOk result (λ reply. Serves (origin_at O.means pass.old.opening) pass.old.session pass.old.front (asked ∷ []) (reply ∷ []) pass.new.front) }
    {
        self.gate.before(session, number);
        let kind = asked.kind();
        let call = asked.into_call();
        let reply = match kind {
            Kind::Change => self.change(rt, session, number, pass, call),
            Kind::Query => self.query(rt, pass, call),
        };
        self.gate.after(session, number);
        reply
    }

    /// Makes these calls, the last one first.
    fn make_calls<R: Wait>(
        &self,
        rt: &R,
        session: u32,
        pass: &mut Pass<O>,
        calls: &mut Vec<Asked<O>>,
    ) -> Result<Sequence<O::Reply>, NoMemory>
        requires own { pass.old.pool ≡ self.now.pool.id }
        requires may { MayMake O.means pass.old (reverse calls.old.items) }
        ensures same { IsSamePass pass.old pass.new }
        ensures served { IfOk result (λ replies. Serves (origin_at O.means pass.old.opening) pass.old.session pass.old.front (reverse calls.old.items) replies pass.new.front) }
    {
        let mut replies = Sequence::new(self.alloc);
        let mut number: u32 = 0;
        while let Some(asked) = calls.pop() {
            let reply = self.make_call(rt, session, number, pass, asked)?;
            replies.push(reply)?;
            number = number.wrapping_add(1);
        }
        Ok(replies)
    }

    /// The work of a session's worker.
    pub(crate) fn serve<R: Wait>(&self, rt: &R, caller: &mut Caller<O>)
        requires own { caller.old.pass.pool ≡ self.now.pool.id }
        requires may { MayMake O.means caller.old.pass (reverse caller.old.calls.items) }
        ensures { Served O.means caller.old caller.new }
    {
        match self.make_calls(rt, caller.session, &mut caller.pass, &mut caller.calls) {
            Ok(replies) => caller.replies = Some(replies),
            Err(_) => {
                caller.replies = None;
                self.signals.stop(rt);
            }
        }
        self.signals.ended(rt);
    }
}
