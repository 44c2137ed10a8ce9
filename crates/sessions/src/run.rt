//! A run from its begin to its end.
ghost use Rattle.std.specs.Prelude.{◌≡◌, ◌≤◌, ◌<◌, ◌^◌, ℕ, All, length, IfOk, slice_index_or};
ghost use Rattle.sessions.specs.Runs.{IsRun};
ghost use Rattle.sessions.specs.Workers.{MayWork, HasWorked};

use crate::asked::{counts_of, each_last_first, is_lawful};
use crate::crew::{Parts, crew, part};
use crate::gate::Gate;
use crate::shared::Shared;
use crate::signals::Signals;
use crate::worker::Worker;
use shared_pool::SharedPool;
use std::alloc::Global;
use std::sync::Wait;
use std::thread::{self, Threads};
use txg_core::{Event, SerialObject, Stated};
use zc_io::NoMemory;
use zp_names::Sequence;

/// What is left of a run.
#[derive(Drop)]
pub struct Run<O: Stated> {
    /// The object, as the calls left it.
    pub object: O,
    /// All events, the oldest first.
    pub journal: Vec<Event>,
    /// The replies of each session, in the order of its calls.
    pub replies: Vec<Sequence<O::Reply>>,
    /// The last transaction group that is synced.
    pub synced: u64,
}

/// The work of one worker of a run of so many sessions.
fn work<O: SerialObject + Drop, G: Gate, R: Wait>(
    rt: &R,
    shared: &Shared<O, G>,
    worker: &mut Worker<O>,
    sessions: u64,
)
    requires { MayWork O.means shared.now.pool.id worker.old }
    ensures { HasWorked O.means worker.old worker.new }
{
    match worker {
        Worker::Session(caller) => shared.serve(rt, caller),
        Worker::Groups(pass) => shared.advance_all(rt, pass, sessions),
    }
}

/// The work of all workers, each in a thread of its own.
fn work_all<O: SerialObject + Drop + Send + Sync, G: Gate + Sync, R: Threads + Wait + Sync>(
    rt: &R,
    shared: &Shared<O, G>,
    workers: &mut [Worker<O>],
    sessions: u64,
)
where
    O::Call: Send + Sync,
    O::Reply: Send + Sync,
    requires some { 0 < length workers.old }
    requires may { All (MayWork O.means shared.now.pool.id) workers.old }
    ensures { (i : ℕ) (d : _) → i < length workers.old → HasWorked O.means (slice_index_or workers.old i d) (slice_index_or workers.new i d) }
{
    let threads = workers.len();
    thread::for_each_mut(
        rt,
        workers,
        threads,
        &|_, worker| { work(rt, shared, worker, sessions) },
    );
}

/// Makes the calls of sessions, those of each in a thread of its own, while one more thread moves
/// the transaction groups on. There are at most 16 sessions, each of fewer than 2^32 calls.
///
/// Where threads can't be made the workers go one after the other, and the call may wait for good.
pub fn run_sessions<O: SerialObject + Drop + Send + Sync, G: Gate + Sync, R: Threads + Wait + Sync>(
    rt: &R,
    alloc: Global,
    object: O,
    sessions: Vec<Sequence<O::Call>>,
    gate: &G,
) -> Result<Run<O>, NoMemory>
where
    O::Call: Send + Sync,
    O::Reply: Send + Sync,
    requires few { length sessions.items ≤ 16 }
    requires short { All (λ calls. length calls < 2 ^ 32) sessions.items }
    ensures { IfOk result (λ run. IsRun O.means object sessions.items run) }
{
    is_lawful(&object);
    let count = sessions.len() as u64;
    let counts = counts_of(alloc, sessions.as_slice())?;
    let calls = each_last_first(alloc, &object, sessions)?;
    let (pool, passes, sync) = SharedPool::new(alloc, object, counts.as_slice())?;
    let mut workers = crew(alloc, passes, calls, sync)?;
    let shared = Shared {
        alloc,
        pool,
        signals: Signals::new(),
        gate,
    };
    work_all(rt, &shared, workers.as_mut_slice(), count);
    let Parts {
        passes,
        replies,
        groups,
    } = part(alloc, workers)?;
    let Some(sync) = groups else { unreachable!() };
    let Shared { pool, .. } = shared;
    let closed = pool.close(alloc, passes, sync)?;
    Ok(Run {
        object: closed.object,
        journal: closed.journal,
        replies,
        synced: closed.synced,
    })
}
