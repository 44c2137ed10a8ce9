//! Turns at the lock of a pool.
ghost use Rattle.std.specs.Prelude.{◌≡◌, ℕ, ◌∷◌, [], true, false};
ghost use Rattle.txg_core.specs.Enabled.{Legal};
ghost use Rattle.txg_core.specs.Openings.{origin_at};
ghost use Rattle.shared_pool.specs.Passes.{GrowsByOwn};
ghost use Rattle.shared_pool.specs.Turns.{Enters};

use crate::recorded_core::{CoreSeat, RecordedCore};
use std::sync::Wait;
use turn_lock::TurnLock;
use txg_core::Stated;

/// Waits for the turn, and takes the core.
pub(crate) fn enter<O: Stated + Drop, R: Wait>(
    rt: &R,
    lock: &TurnLock<RecordedCore<O>>,
    seat: &mut CoreSeat<O>,
) -> RecordedCore<O>
    requires own { seat.old.lock ≡ lock.now.id }
    requires free { seat.old.has_turn ≡ false }
    ensures { Enters O.means seat.old result seat.new }
{
    let core = lock.take(rt, seat);
    let _history = core.history();
    core
}

/// Gives the core and the turn back.
pub(crate) fn leave<O: Stated + Drop>(
    lock: &TurnLock<RecordedCore<O>>,
    seat: &mut CoreSeat<O>,
    core: RecordedCore<O>,
)
    requires own { seat.old.lock ≡ lock.now.id }
    requires turn { seat.old.has_turn ≡ true }
    requires opening { core.opening ≡ seat.old.origin }
    requires made { (maker : ℕ) × (seat.old.numbers ≡ maker ∷ []) × GrowsByOwn maker seat.old.seen core.history }
    ensures seat { seat.new ≡ record seat.old { seen = core.history; has_turn = false } }
    ensures legal { Legal (origin_at O.means core.opening) core.history }
{
    let history = core.history();
    lock.give(seat, core, history);
}
