//! What asks the object: the check in open context, a query, and doing a call while its group syncs.
ghost use Rattle.std.specs.Prelude.{◌≡◌, IsTrue, ℕ, true, List, ◌∷◌, IfOk, OnOk, OnErr};
ghost use Rattle.txg_core.specs.declared.object.Kind.{Kind as KindOf};
ghost use Rattle.txg_core.specs.Rules.{Origin};
ghost use Rattle.txg_core.specs.History.{checks, reads, syncs};
ghost use Rattle.txg_core.specs.Serial.{world, next, next_outcome};
ghost use Rattle.txg_core.specs.Enabled.{Enabled};
ghost use Rattle.txg_core.specs.Stands.{Stands, IsStanding, verdict_of};
ghost use Rattle.txg_core.specs.Allowed.{allows};

use crate::session::Progress;
use crate::{Checked, Core, Entry, Event, SerialObject};
use std::alloc::Global;
use zc_io::NoMemory;

impl<O: SerialObject + Drop> Core<O> {
    /// Checks the call that the session holds for, on the object as it now stands. A refusal
    /// decides the call.
    pub fn check(
        &mut self,
        alloc: Global,
        session: u32,
        call: &O::Call,
    ) -> Result<Checked<O::Reply>, NoMemory>
        requires standing { IsStanding O.means self.old }
        requires enabled { IsTrue (allows self.old (Event.Check session)) }
        requires change { O.kind_of call.now ≡ KindOf.Change }
        ensures stands { (o : Origin O.World O.Call O.Reply) (h : List (Entry O.Call)) →
            Stands O.means o self.old h → Enabled o h (checks session call.now) →
            OnOk result (Stands O.means o self.new (checks session call.now ∷ h)) }
        ensures verdict { (o : Origin O.World O.Call O.Reply) (h : List (Entry O.Call)) →
            Stands O.means o self.old h → IfOk result (λ v. v ≡ verdict_of (o.rules.check (world o h) call.now)) }
        ensures spent { OnOk result (self.new.spent ≡ self.old.spent) }

        // Want of memory adds no entry, and makes the core spent.
        ensures no_memory { OnErr result (self.new.spent ≡ true) }
        ensures same { (o : Origin O.World O.Call O.Reply) (h : List (Entry O.Call)) →
            Stands O.means o self.old h → OnErr result (Stands O.means o self.new h) }
    {
        let verdict = match self.object.check(alloc, call) {
            Ok(verdict) => verdict,
            Err(no_memory) => {
                self.spent = true;
                return Err(no_memory);
            }
        };
        self.journal.push_reserved(Event::Check(session));
        let place = &mut self.sessions[session as usize];
        if let Some(reply) = verdict {
            place.end_call();
            return Ok(Checked::Refused(reply));
        }
        place.progress = Progress::Checked;
        Ok(Checked::Passed)
    }

    /// Answers the session's next call, a query, on the object as it now stands.
    pub fn read(
        &mut self,
        alloc: Global,
        session: u32,
        call: &O::Call,
    ) -> Result<O::Reply, NoMemory>
        requires standing { IsStanding O.means self.old }
        requires enabled { IsTrue (allows self.old (Event.Read session)) }
        requires query { O.kind_of call.now ≡ KindOf.Query }
        ensures stands { (o : Origin O.World O.Call O.Reply) (h : List (Entry O.Call)) →
            Stands O.means o self.old h → Enabled o h (reads session call.now) →
            OnOk result (Stands O.means o self.new (reads session call.now ∷ h)) }
        ensures reply { (o : Origin O.World O.Call O.Reply) (h : List (Entry O.Call)) →
            Stands O.means o self.old h → IfOk result (λ r. r ≡ (next_outcome o h session call.now 0).0) }
        ensures spent { OnOk result (self.new.spent ≡ self.old.spent) }

        // Want of memory adds no entry, and makes the core spent.
        ensures no_memory { OnErr result (self.new.spent ≡ true) }
        ensures same { (o : Origin O.World O.Call O.Reply) (h : List (Entry O.Call)) →
            Stands O.means o self.old h → OnErr result (Stands O.means o self.new h) }
    {
        let reply = match self.object.read(alloc, call) {
            Ok(reply) => reply,
            Err(no_memory) => {
                self.spent = true;
                return Err(no_memory);
            }
        };
        self.journal.push_reserved(Event::Read(session));
        let place = &mut self.sessions[session as usize];
        place.end_call();
        Ok(reply)
    }

    /// Does the first call in the queue of the syncing group, which checks it again. The answer
    /// is the session and the number of its call; the reply is kept for `take`.
    pub fn sync_next(&mut self, alloc: Global) -> Result<(u32, u32), NoMemory>
        requires standing { IsStanding O.means self.old }
        requires enabled { (s : ℕ) × IsTrue (allows self.old (Event.Sync s)) }
        ensures stands { (o : Origin O.World O.Call O.Reply) (h : List (Entry O.Call)) (s : ℕ) (c : O.Call) →
            Stands O.means o self.old h → Enabled o h (syncs s c) →
            OnOk result (Stands O.means o self.new (syncs s c ∷ h)) }
        ensures which { (o : Origin O.World O.Call O.Reply) (h : List (Entry O.Call)) (s : ℕ) (c : O.Call) →
            Stands O.means o self.old h → Enabled o h (syncs s c) →
            IfOk result (λ r. (r.0 ≡ s) × (r.1 ≡ next o h s)) }
        ensures spent { OnOk result (self.new.spent ≡ self.old.spent) }

        // Want of memory adds no entry, and makes the core spent.
        ensures no_memory { OnErr result (self.new.spent ≡ true) }
        ensures same { (o : Origin O.World O.Call O.Reply) (h : List (Entry O.Call)) →
            Stands O.means o self.old h → OnErr result (Stands O.means o self.new h) }
    {
        let Some(task) = self.syncing.pop_front() else {
            unreachable!()
        };
        let session = task.session;
        let call_no = task.call_no;
        let reply = match self.object.apply(alloc, &task.call, self.begun) {
            Ok(reply) => reply,
            Err(no_memory) => {
                self.spent = true;
                return Err(no_memory);
            }
        };
        let place = &mut self.sessions[session as usize];
        place.progress = Progress::Decided(reply);
        self.journal.push_reserved(Event::Sync(session));
        Ok((session, call_no))
    }
}
