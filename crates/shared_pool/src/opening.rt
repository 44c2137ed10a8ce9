//! A pool, and how it begins.
ghost use Rattle.std.specs.Prelude.{◌≡◌, ◌+◌, ◌-◌, ◌<◌, ◌≤◌, ◌^◌, length, slice_index, IfOk, OnOk};
ghost use Rattle.shared_pool.specs.Closing.{first_pass, passes_from, IsNewPool};
ghost use Rattle.shared_pool.specs.Seating.{IsSeatLeft};

use crate::pass::{Pass, SyncPass};
use crate::progress::Progress;
use crate::recorded_core::{CoreSeat, RecordedCore};
use std::alloc::Global;
use std::marker::Model;
use turn_lock::TurnLock;
use txg_core::Stated;
use zc_io::NoMemory;

/// A core that threads share.
///
/// Contracts see which pool it is, and how many passes it has. A call takes passes of this pool
/// alone.
#[derive(Drop)]
pub struct SharedPool<O: Stated + Drop> {
    pub(crate) lock: TurnLock<RecordedCore<O>>,
}

impl<O: Stated + Drop> Model for SharedPool<O> {
    ghost use Rattle.turn_lock.specs.Seats.{LockView};

    ghost Value = { LockView };

    ghost view = { λ p. p.lock };
}

/// The pass of the last session that has none.
fn split_off<O: Stated + Drop>(
    lock: &TurnLock<RecordedCore<O>>,
    seat: &mut CoreSeat<O>,
    session: u32,
    count: u32,
) -> Pass<O>
    requires left { IsSeatLeft lock.now.id seat.old.origin (session + 1) seat.old }
    requires few { session + 1 < 2 ^ 32 }
    requires there { session < length seat.old.origin.counts }
    requires count { count ≡ slice_index seat.old.origin.counts session }
    ensures left { IsSeatLeft lock.now.id seat.old.origin session seat.new }
    ensures pass { result ≡ first_pass lock.now.id seat.old.origin session }
{
    let seat = lock.split(seat, session + 1);
    Pass {
        seat,
        session,
        count,
        progress: Progress {
            next: 0,
            busy: false,
            seen: 0,
        },
    }
}

/// The passes of all sessions.
fn passes_of<O: Stated + Drop>(
    alloc: Global,
    lock: &TurnLock<RecordedCore<O>>,
    seat: &mut CoreSeat<O>,
    counts: &[u32],
) -> Result<Vec<Pass<O>>, NoMemory>
    requires left { IsSeatLeft lock.now.id seat.old.origin (length counts.now) seat.old }
    requires few { length counts.now ≤ 16 }
    requires counts { seat.old.origin.counts ≡ counts.now }
    ensures left { OnOk result (IsSeatLeft lock.now.id seat.old.origin 0 seat.new) }
    ensures passes { IfOk result (λ v. v.items ≡ passes_from lock.now.id seat.old.origin 0 (length counts.now)) }
{
    let mut passes = Vec::new(alloc);
    let mut left = counts.len();
    while left > 0 {
        left -= 1;
        let pass = split_off(lock, seat, left as u32, counts[left]);
        let Ok(()) = passes.insert(0, pass) else {
            return Err(NoMemory);
        };
    }
    Ok(passes)
}

impl<O: Stated + Drop> SharedPool<O> {
    /// A pool over a new core, for at most 16 sessions, which have these numbers of calls; the
    /// passes of the sessions, in their order; and the pass of the thread that moves the groups on.
    pub fn new(
        alloc: Global,
        object: O,
        counts: &[u32],
    ) -> Result<(SharedPool<O>, Vec<Pass<O>>, SyncPass<O>), NoMemory>
        requires { length counts.now ≤ 16 }
        ensures { IfOk result (λ made. IsNewPool (record { object = object; counts = counts.now }) made.0 made.1.items made.2) }
    {
        let core = RecordedCore::new(alloc, object, counts)?;
        let opening = core.opening();
        let history = core.history();
        let numbers = counts.len() as u32 + 1;
        match TurnLock::new(alloc, core, numbers, opening, history) {
            Err(no_memory) => Err(no_memory),
            Ok((lock, mut seat)) => match passes_of(alloc, &lock, &mut seat, counts) {
                Err(no_memory) => Err(no_memory),
                Ok(passes) => Ok((SharedPool { lock }, passes, SyncPass { seat, entries: 0 })),
            },
        }
    }
}
