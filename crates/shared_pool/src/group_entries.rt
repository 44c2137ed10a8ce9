//! The entries that move the groups on, each one more in the history.
ghost use Rattle.std.specs.Prelude.{◌≡◌, ℕ, Some, false, IfOk, OnOk, OnErr, MatchOption};
ghost use Rattle.txg_core.specs.Openings.{origin_at};
ghost use Rattle.txg_core.specs.History.{syncs, quiesces, begins, ends};
ghost use Rattle.txg_core.specs.Enabled.{Enabled};
ghost use Rattle.shared_pool.specs.Recordings.{one_entry_more, as_spent};
ghost use Rattle.shared_pool.specs.Moves.{IsFirstMove, NoneMoves, MovesBy};

use crate::histories::{after_sync, with_move};
use crate::recorded_core::RecordedCore;
use std::alloc::Global;
use txg_core::{Event, SerialObject, Stated, Transition};
use zc_io::NoMemory;

impl<O: Stated + Drop> RecordedCore<O> {
    fn end(&mut self)
        requires unspent { self.old.spent ≡ false }
        requires may { Enabled (origin_at O.means self.old.opening) self.old.history ends }
        ensures { self.new ≡ one_entry_more self.old ends }
    {
        self.core.end();
        self.history = with_move::<O>(&self.history, Transition::End);
    }

    fn begin(&mut self)
        requires unspent { self.old.spent ≡ false }
        requires may { Enabled (origin_at O.means self.old.opening) self.old.history begins }
        ensures { self.new ≡ one_entry_more self.old begins }
    {
        self.core.begin();
        self.history = with_move::<O>(&self.history, Transition::Begin);
    }

    fn quiesce(&mut self)
        requires unspent { self.old.spent ≡ false }
        requires may { Enabled (origin_at O.means self.old.opening) self.old.history quiesces }
        ensures { self.new ≡ one_entry_more self.old quiesces }
    {
        self.core.quiesce();
        self.history = with_move::<O>(&self.history, Transition::Quiesce);
    }

    /// The first of a sync, an end, a begin and a quiesce that may come next.
    fn next_move(&self) -> Option<Event>
        requires { self.now.spent ≡ false }
        ensures { MatchOption result (NoneMoves (origin_at O.means self.now.opening) self.now.history) (λ v. IsFirstMove (origin_at O.means self.now.opening) self.now.history v) }
    {
        if let Some(session) = self.core.first_to_sync()
            && self.core.enabled(&Event::Sync(session))
        {
            return Some(Event::Sync(session));
        }
        if self.core.enabled(&Event::End) {
            return Some(Event::End);
        }
        if self.core.enabled(&Event::Begin) {
            return Some(Event::Begin);
        }
        if self.core.enabled(&Event::Quiesce) {
            return Some(Event::Quiesce);
        }
        None
    }
}

impl<O: SerialObject + Drop> RecordedCore<O> {
    fn sync(&mut self, alloc: Global) -> Result<(), NoMemory>
        requires unspent { self.old.spent ≡ false }
        requires may { (s : ℕ) × (c : O.Call) × Enabled (origin_at O.means self.old.opening) self.old.history (syncs s c) }
        ensures made { (s : ℕ) (c : O.Call) → Enabled (origin_at O.means self.old.opening) self.old.history (syncs s c) → OnOk result (self.new ≡ one_entry_more self.old (syncs s c)) }
        ensures no_memory { OnErr result (self.new ≡ as_spent self.old) }
    {
        let history = after_sync(&self.core, &self.history);
        self.core.sync_next(alloc)?;
        self.history = history;
        Ok(())
    }

    fn make_move(&mut self, alloc: Global, event: &Event) -> Result<(), NoMemory>
        requires unspent { self.old.spent ≡ false }
        requires may { IsFirstMove (origin_at O.means self.old.opening) self.old.history event.now }
        ensures made { OnOk result (MovesBy (origin_at O.means self.old.opening) (Some event.now) self.old.history self.new.history) }
        ensures same { OnOk result (self.new ≡ record self.old { history = self.new.history }) }
        ensures no_memory { OnErr result (self.new ≡ as_spent self.old) }
    {
        match *event {
            Event::Sync(_) => self.sync(alloc)?,
            Event::End => self.end(),
            Event::Begin => self.begin(),
            Event::Quiesce => self.quiesce(),
            _ => unreachable!(),
        }
        Ok(())
    }

    /// Makes the first move that may come next; None where none may.
    pub(crate) fn move_on(&mut self, alloc: Global) -> Result<Option<Event>, NoMemory>
        requires { self.old.spent ≡ false }
        ensures made { IfOk result (λ m. MovesBy (origin_at O.means self.old.opening) m self.old.history self.new.history) }
        ensures same { OnOk result (self.new ≡ record self.old { history = self.new.history }) }
        ensures no_memory { OnErr result (self.new ≡ as_spent self.old) }
    {
        let Some(event) = self.next_move() else {
            return Ok(None);
        };
        self.make_move(alloc, &event)?;
        Ok(Some(event))
    }
}
