//! Threads that work on one counter.
ghost use Rattle.std.specs.Prelude.{◌≡◌, IfOk, ◌∷◌, []};
ghost use Rattle.std.specs.Thread.{IsSync};
ghost use Rattle.shared_pool.specs.Passes.{IsSamePass, IsSameSyncPass};
ghost use Rattle.shared_pool_tests.specs.Working.{EndsLegally};

use crate::calls::{advance, collect, submit_addition};
use crate::counter::Counter;
use shared_pool::{Advanced, Closed, Pass, Refusal, SharedPool, SyncPass};
use std::alloc::Global;
use std::sync::Wait;
use std::sync::atomic::{AtomicU32, Ordering};
use std::thread::{self, Threads, join_mut};
use zc_io::NoMemory;

/// Makes the session's next call an addition of 1, where it has a call to make, and waits for its
/// reply.
fn add_one<R: Wait>(
    rt: &R,
    alloc: Global,
    pool: &SharedPool<Counter>,
    pass: &mut Pass<Counter>,
) -> Result<(), NoMemory>
    requires { pass.old.pool ≡ pool.now.id }
    ensures { IsSamePass pass.old pass.new }
{
    if pass.busy() || pass.left() == 0 {
        return Ok(());
    }
    match submit_addition(rt, alloc, pool, pass, 1) {
        Ok(ticket) => match collect(rt, pool, pass, ticket) {
            Ok(_) => Ok(()),
            Err(no_memory) => Err(no_memory),
        },
        Err(Refusal::Checked { .. }) => Ok(()),
        Err(Refusal::NoMemory) => Err(NoMemory),
    }
}

/// Makes each call of the session an addition of 1.
pub fn add_all<R: Wait>(
    rt: &R,
    alloc: Global,
    pool: &SharedPool<Counter>,
    pass: &mut Pass<Counter>,
) -> Result<(), NoMemory>
    requires { pass.old.pool ≡ pool.now.id }
    ensures { IsSamePass pass.old pass.new }
{
    for _ in 0..pass.left() {
        add_one(rt, alloc, pool, pass)?;
    }
    Ok(())
}

/// As `add_all`, and tells that it ended, also after want of memory.
fn add_and_tell<R: Wait>(
    rt: &R,
    alloc: Global,
    pool: &SharedPool<Counter>,
    pass: &mut Pass<Counter>,
    ended: &AtomicU32,
) -> Result<(), NoMemory>
    requires { pass.old.pool ≡ pool.now.id }
    ensures { IsSamePass pass.old pass.new }
{
    let added = add_all(rt, alloc, pool, pass);
    ended.fetch_add(1, Ordering::SeqCst);
    added
}

/// Moves the groups on until both sessions have ended.
fn move_on<R: Wait>(
    rt: &R,
    alloc: Global,
    pool: &SharedPool<Counter>,
    pass: &mut SyncPass<Counter>,
    ended: &AtomicU32,
) -> Result<(), NoMemory>
    requires { pass.old.pool ≡ pool.now.id }
    ensures { IsSameSyncPass pass.old pass.new }
{
    for _ in rt.forever() {
        if ended.load(Ordering::SeqCst) == 2 {
            break;
        }
        if let Advanced::Idle { at: _ } = advance(rt, alloc, pool, pass)? {
            thread::yield_now();
        }
    }
    Ok(())
}

/// Both sessions at work, each in a thread of its own.
fn add_beside<R: Threads + Wait + Sync>(
    rt: &R,
    alloc: Global,
    pool: &SharedPool<Counter>,
    first: &mut Pass<Counter>,
    second: &mut Pass<Counter>,
    ended: &AtomicU32,
) -> Result<(), NoMemory>
    requires first { first.old.pool ≡ pool.now.id }
    requires second { second.old.pool ≡ pool.now.id }
    ensures first { IsSamePass first.old first.new }
    ensures second { IsSamePass second.old second.new }
{
    let (one, other) = join_mut(
        rt,
        &mut || add_and_tell(rt, alloc, pool, first, ended),
        &mut || add_and_tell(rt, alloc, pool, second, ended),
    );
    one?;
    other
}

/// Both sessions at work, and a thread that moves the groups on.
fn work<R: Threads + Wait + Sync>(
    rt: &R,
    alloc: Global,
    pool: &SharedPool<Counter>,
    first: &mut Pass<Counter>,
    second: &mut Pass<Counter>,
    sync: &mut SyncPass<Counter>,
) -> Result<(), NoMemory>
    requires first { first.old.pool ≡ pool.now.id }
    requires second { second.old.pool ≡ pool.now.id }
    requires sync { sync.old.pool ≡ pool.now.id }
    ensures first { IsSamePass first.old first.new }
    ensures second { IsSamePass second.old second.new }
    ensures sync { IsSameSyncPass sync.old sync.new }
{
    let ended = AtomicU32::new(0);
    let (moved, added) = join_mut(
        rt,
        &mut || move_on(rt, alloc, pool, sync, &ended),
        &mut ||
            requires { IsSync R.row × (first.now.pool ≡ pool.now.id) × (second.now.pool ≡ pool.now.id) }
            ensures { IsSamePass first.entry.now first.exit.now × IsSamePass second.entry.now second.exit.now }
        { add_beside(rt, alloc, pool, first, second, &ended) },
    );
    moved?;
    added
}

/// What is left of a counter to which two sessions add 1 as often as they have calls, each in a
/// thread of its own: the end of a legal history, whatever the schedule.
pub fn add_on_threads<R: Threads + Wait + Sync>(
    rt: &R,
    alloc: Global,
    value: u64,
    calls: u32,
) -> Result<Closed<Counter>, NoMemory>
    ensures { IfOk result (λ closed. EndsLegally value (calls ∷ calls ∷ []) closed) }
{
    let (pool, mut passes, mut sync) = SharedPool::new(alloc, Counter { value }, &[calls, calls])?;
    let Some(mut second) = passes.pop() else {
        unreachable!()
    };
    let Some(mut first) = passes.pop() else {
        unreachable!()
    };
    work(rt, alloc, &pool, &mut first, &mut second, &mut sync)?;
    let mut joined = Vec::new(alloc);
    joined.push(first)?;
    joined.push(second)?;
    pool.close(alloc, joined, sync)
}
