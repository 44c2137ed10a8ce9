//! A core with the history for which it stands.
ghost use Rattle.std.specs.Prelude.{◌≡◌, ◌<◌, [], false, length, IfOk};
ghost use Rattle.txg_core.specs.Enabled.{Legal};
ghost use Rattle.txg_core.specs.Openings.{origin_at};
ghost use Rattle.shared_pool.specs.Passes.{IsProgressOf};
ghost use Rattle.shared_pool.specs.Closing.{IsEnd};

use crate::answers::Closed;
use crate::histories::{nothing, opening_of};
use crate::progress::Progress;
use known::Known;
use std::alloc::Global;
use std::collections::LinkedList;
use std::marker::Model;
use turn_lock::{Recorded, Seat};
use txg_core::{Core, Entry, Opening, Stated};
use zc_io::NoMemory;

/// A history, which contracts alone see.
pub(crate) type History<O> = Known<LinkedList<Entry<<O as Stated>::Call>>>;

/// A seat at the lock of a pool.
pub(crate) type CoreSeat<O> = Seat<RecordedCore<O>, Opening<O>, Entry<<O as Stated>::Call>>;

/// The core under the lock, with the one history for which it stands here. Contracts see where the
/// history begins, the history, and whether the core is spent.
#[derive(Drop)]
pub struct RecordedCore<O: Stated + Drop> {
    pub(crate) core: Core<O>,
    pub(crate) opening: Known<Opening<O>>,
    pub(crate) history: History<O>,
}

impl<O: Stated + Drop> Model for RecordedCore<O> {
    ghost use Rattle.shared_pool.specs.Recordings.{Recording};
    ghost use Rattle.txg_core.specs.Openings.{origin_at};
    ghost use Rattle.txg_core.specs.Stands.{Stands};

    ghost Value = { Recording O O.Call };

    ghost view = { λ k. record { opening = k.opening.value; history = k.history.value; spent = k.core.spent } };

    ghost invariant = { λ k. Stands O.means (origin_at O.means k.opening.value) k.core k.history.value };
}

impl<O: Stated + Drop> Recorded for RecordedCore<O> {
    ghost use Rattle.std.specs.Prelude.{◌≡◌};
    ghost use Rattle.txg_core.specs.History.{maker_of};

    type Origin = Opening<O>;

    type Entry = Entry<O::Call>;

    ghost stands = { λ k x h. (k.opening ≡ x) × (k.history ≡ h) };

    ghost maker = { maker_of };

    fn len(&self) -> u64 {
        self.core.len()
    }
}

impl<O: Stated + Drop> RecordedCore<O> {
    pub(crate) fn new(alloc: Global, object: O, counts: &[u32]) -> Result<RecordedCore<O>, NoMemory>
        ensures { IfOk result (λ core. core ≡ record { opening = record { object = object; counts = counts.now }; history = []; spent = false }) }
    {
        let opening = opening_of(&object, counts);
        let history = nothing::<O>(&object);
        let core = Core::new(alloc, object, counts)?;
        Ok(RecordedCore {
            core,
            opening,
            history,
        })
    }

    pub(crate) fn count(&self) -> u64
        ensures { result ≡ length self.now.history }
    {
        self.core.len()
    }

    pub(crate) fn spent(&self) -> bool
        ensures { result ≡ self.now.spent }
    {
        self.core.spent()
    }

    pub(crate) fn opening(&self) -> Known<Opening<O>>
        ensures { result.value ≡ self.now.opening }
    {
        self.opening.again()
    }

    /// The history, which is legal.
    pub(crate) fn history(&self) -> History<O>
        ensures history { result.value ≡ self.now.history }
        ensures legal { Legal (origin_at O.means self.now.opening) self.now.history }
    {
        self.history.again()
    }

    /// How far the session is.
    pub(crate) fn progress(&self, session: u32) -> Progress
        requires { session < length self.now.opening.counts }
        ensures { IsProgressOf (origin_at O.means self.now.opening) self.now.history session result }
    {
        Progress {
            next: self.core.next_call(session),
            busy: self.core.is_busy(session),
            seen: self.core.len(),
        }
    }

    /// Copies of the object and of the journal; a spent core has none to give.
    pub(crate) fn finish(self, alloc: Global) -> Result<Closed<O>, NoMemory>
        ensures { IfOk result (λ closed. IsEnd O.means self.opening self.history closed) }
    {
        if self.core.spent() {
            return Err(NoMemory);
        }
        let object = self.core.object().copy(alloc)?;
        let mut journal = Vec::new(alloc);
        journal.extend_from_slice(self.core.journal())?;
        Ok(Closed {
            object,
            journal,
            synced: self.core.synced(),
        })
    }
}
