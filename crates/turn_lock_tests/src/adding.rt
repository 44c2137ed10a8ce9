//! Threads that add their numbers.
ghost use Rattle.std.specs.Thread.{IsSync};
ghost use Rattle.std.specs.Prelude.{◌≡◌, ℕ, ◌+◌, ◌<◌, ◌∷◌, [], false, IfOk, OnOk};
ghost use Rattle.turn_lock.specs.Entries.{times, below};
ghost use Rattle.turn_lock_tests.specs.Adding.{IsSameSeat, IsOfSameLock, IsLater, IsMore};

use crate::Numbers;
use known::Known;
use std::alloc::Global;
use std::sync::Wait;
use std::thread::{Threads, join_mut};
use turn_lock::{SeatOf, TurnLock};
use zc_io::NoMemory;

/// Adds the seat's number in one turn.
pub fn add<R: Wait>(
    rt: &R,
    lock: &TurnLock<Numbers>,
    seat: &mut SeatOf<Numbers>,
    number: u32,
) -> Result<(), NoMemory>
    requires own { seat.old.lock ≡ lock.now.id }
    requires free { seat.old.has_turn ≡ false }
    requires number { seat.old.numbers ≡ number ∷ [] }
    ensures later { IsLater seat.old 1 seat.new }
    ensures more { OnOk result (IsMore seat.old number 1 seat.new) }
{
    let mut numbers = lock.take(rt, seat);
    let added = numbers.add(number);
    let list = numbers.list();
    lock.give(seat, numbers, list);
    added
}

/// Adds the seat's number so many times, each in a turn of its own.
pub fn add_all<R: Wait>(
    rt: &R,
    lock: &TurnLock<Numbers>,
    seat: &mut SeatOf<Numbers>,
    number: u32,
    turns: u32,
) -> Result<(), NoMemory>
    requires own { seat.old.lock ≡ lock.now.id }
    requires free { seat.old.has_turn ≡ false }
    requires number { seat.old.numbers ≡ number ∷ [] }
    ensures same { IsSameSeat seat.old seat.new }
    ensures added { OnOk result (IsLater seat.old turns seat.new × IsMore seat.old number turns seat.new) }
{
    for _ in 0..turns {
        add(rt, lock, seat, number)?;
    }
    Ok(())
}

/// Adds each number below `threads`, as often as there are turns, in a thread of its own.
pub fn add_by_threads<R: Threads + Wait + Sync>(
    rt: &R,
    lock: &TurnLock<Numbers>,
    seat: &mut SeatOf<Numbers>,
    threads: u32,
    turns: u32,
) -> Result<(), NoMemory>
    requires own { seat.old.lock ≡ lock.now.id }
    requires free { seat.old.has_turn ≡ false }
    requires some { 0 < threads }
    requires numbers { seat.old.numbers ≡ below threads }
    ensures same { IsOfSameLock seat.old seat.new }
    ensures numbers { (k : ℕ) → times k seat.new.numbers ≡ times k seat.old.numbers }
    ensures added { OnOk result ((k : ℕ) → k < threads → IsMore seat.old k turns seat.new) }
{
    if threads == 1 {
        return add_all(rt, lock, seat, 0, turns);
    }
    let number = threads - 1;
    let mut other = lock.split(seat, number);
    let (rest, last) = join_mut(
        rt,
        &mut ||
            requires { IsSync R.row × (seat.now.lock ≡ lock.now.id) × (seat.now.has_turn ≡ false) × (0 < number) × (seat.now.numbers ≡ below number) }
            ensures { IsOfSameLock seat.entry.now seat.exit.now × ((k : ℕ) → times k seat.exit.now.numbers ≡ times k seat.entry.now.numbers) × OnOk result ((k : ℕ) → k < number → IsMore seat.entry.now k turns seat.exit.now) }
        { add_by_threads(rt, lock, seat, number, turns) },
        &mut || add_all(rt, lock, &mut other, number, turns),
    );
    lock.join(seat, other);
    rest?;
    last
}

/// The numbers that threads leave which add each number below `threads`, as often as there are
/// turns.
pub fn numbers_of_threads<R: Threads + Wait + Sync>(
    rt: &R,
    alloc: Global,
    threads: u32,
    turns: u32,
) -> Result<Vec<u32>, NoMemory>
    requires { 0 < threads }
    ensures { IfOk result (λ v. (k : ℕ) → k < threads → times k v.items ≡ turns) }
{
    let numbers = Numbers::new(alloc);
    let list = numbers.list();
    let (lock, mut seat) = TurnLock::new(alloc, numbers, threads, Known::of(), list)?;
    add_by_threads(rt, &lock, &mut seat, threads, turns)?;
    let Numbers { items } = lock.close(seat);
    Ok(items)
}
