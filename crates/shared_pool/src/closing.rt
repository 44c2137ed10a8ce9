//! How a pool ends.
ghost use Rattle.std.specs.Prelude.{◌≡◌, ℕ, ◌<◌, ◌∷◌, [], false, IfOk};
ghost use Rattle.std.specs.List.{AllByRecursion};
ghost use Rattle.turn_lock.specs.Entries.{Holds};
ghost use Rattle.shared_pool.specs.Closing.{IsClosed, makers_of};
ghost use Rattle.shared_pool.specs.Seating.{JoinsPass, JoinedPasses};

use crate::answers::Closed;
use crate::opening::SharedPool;
use crate::pass::{Pass, SyncPass};
use crate::recorded_core::{CoreSeat, RecordedCore};
use std::alloc::Global;
use turn_lock::TurnLock;
use txg_core::Stated;
use zc_io::NoMemory;

/// The seat takes in that of a pass.
fn join_pass<O: Stated + Drop>(
    lock: &TurnLock<RecordedCore<O>>,
    seat: &mut CoreSeat<O>,
    pass: Pass<O>,
)
    requires own { seat.old.lock ≡ lock.now.id }
    requires free { seat.old.has_turn ≡ false }
    requires pass { pass.pool ≡ lock.now.id }
    ensures { JoinsPass seat.old pass seat.new }
{
    let Pass {
        seat: other,
        session: _,
        count: _,
        progress: _,
    } = pass;
    lock.join(seat, other);
}

/// The seat takes in those of all passes, the last one first.
fn join_passes<O: Stated + Drop>(
    lock: &TurnLock<RecordedCore<O>>,
    seat: &mut CoreSeat<O>,
    mut passes: Vec<Pass<O>>,
)
    requires own { seat.old.lock ≡ lock.now.id }
    requires free { seat.old.has_turn ≡ false }
    requires passes { AllByRecursion (λ p. p.pool ≡ lock.now.id) passes.items }
    ensures { JoinedPasses seat.old passes.items [] seat.new }
{
    while let Some(pass) = passes.pop() {
        join_pass(lock, seat, pass);
    }
}

impl<O: Stated + Drop> SharedPool<O> {
    /// Ends the pool. The passes are those of all its sessions.
    ///
    /// After `NoMemory`, of which a spent core is one cause, the pool and the passes are gone.
    pub fn close(
        self,
        alloc: Global,
        passes: Vec<Pass<O>>,
        sync: SyncPass<O>,
    ) -> Result<Closed<O>, NoMemory>
        requires own { sync.pool ≡ self.id }
        requires passes { AllByRecursion (λ p. p.pool ≡ self.id) passes.items }
        requires every { (k : ℕ) → k < self.numbers → Holds (0 ∷ makers_of passes.items) k }
        ensures { IfOk result (λ closed. IsClosed O.means sync passes.items closed) }
    {
        let SharedPool { lock } = self;
        let SyncPass {
            mut seat,
            entries: _,
        } = sync;
        join_passes(&lock, &mut seat, passes);
        let core = lock.close(seat);
        core.finish(alloc)
    }
}
