//! What a session does with its pass, and the thread that moves the groups on with its own.
ghost use Rattle.std.specs.Prelude.{◌≡◌, IfOk};
ghost use Rattle.shared_pool.specs.Passes.{IsSamePass, IsSameSyncPass};
ghost use Rattle.shared_pool.specs.Submits.{IsPassTicket};
ghost use Rattle.shared_pool_tests.specs.Working.{counter_means, IsForOne};

use crate::counter::{Counter, Request};
use shared_pool::{Advanced, Closed, Pass, Refusal, SharedPool, SyncPass, Ticket};
use std::alloc::Global;
use std::sync::Wait;
use zc_io::NoMemory;

/// A counter for one session.
pub fn counter_for_one(
    alloc: Global,
    value: u64,
    calls: u32,
) -> Result<(SharedPool<Counter>, Pass<Counter>, SyncPass<Counter>), NoMemory>
    ensures { IfOk result (λ made. IsForOne made.0 made.1 made.2) }
{
    let (pool, mut passes, sync) = SharedPool::new(alloc, Counter { value }, &[calls])?;
    match passes.pop() {
        Some(pass) => Ok((pool, pass, sync)),
        None => unreachable!(),
    }
}

/// What is left of it.
pub fn end_for_one(
    alloc: Global,
    pool: SharedPool<Counter>,
    pass: Pass<Counter>,
    sync: SyncPass<Counter>,
) -> Result<Closed<Counter>, NoMemory>
    requires { IsForOne pool pass sync }
{
    let mut passes = Vec::new(alloc);
    passes.push(pass)?;
    pool.close(alloc, passes, sync)
}

/// Makes the session's next call an addition; a session with no call to make finds no memory.
pub fn submit_addition<R: Wait>(
    rt: &R,
    alloc: Global,
    pool: &SharedPool<Counter>,
    pass: &mut Pass<Counter>,
    n: u64,
) -> Result<Ticket, Refusal<u64>>
    requires { pass.old.pool ≡ pool.now.id }
    ensures same { IsSamePass pass.old pass.new }
    ensures ticket { IfOk result (λ t. IsPassTicket counter_means pass.new t) }
{
    if pass.busy() || pass.left() == 0 {
        return Err(Refusal::NoMemory);
    }
    pool.submit(rt, alloc, pass, Request::Add(n))
}

/// Asks for the number, where the session has a call to make.
pub fn ask<R: Wait>(
    rt: &R,
    alloc: Global,
    pool: &SharedPool<Counter>,
    pass: &mut Pass<Counter>,
) -> Result<Option<u64>, NoMemory>
    requires { pass.old.pool ≡ pool.now.id }
    ensures { IsSamePass pass.old pass.new }
{
    if pass.busy() || pass.left() == 0 {
        return Ok(None);
    }
    let view = pool.open_read(rt, alloc, pass, Request::Ask)?;
    Ok(Some(view.answer()?))
}

/// The reply to an addition.
pub fn collect<R: Wait>(
    rt: &R,
    pool: &SharedPool<Counter>,
    pass: &mut Pass<Counter>,
    ticket: Ticket,
) -> Result<u64, NoMemory>
    requires own { pass.old.pool ≡ pool.now.id }
    requires ticket { IsPassTicket counter_means pass.old ticket }
    ensures { IsSamePass pass.old pass.new }
{
    pool.collect(rt, pass, ticket)
}

/// Moves the groups on by one event.
pub fn advance<R: Wait>(
    rt: &R,
    alloc: Global,
    pool: &SharedPool<Counter>,
    pass: &mut SyncPass<Counter>,
) -> Result<Advanced, NoMemory>
    requires { pass.old.pool ≡ pool.now.id }
    ensures { IsSameSyncPass pass.old pass.new }
{
    pool.advance(rt, alloc, pass)
}
