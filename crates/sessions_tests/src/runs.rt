//! Runs of a counter.
ghost use Rattle.std.specs.Prelude.{◌<◌, ◌^◌, All, IsTrue, length};

use sessions::{Gate, Run, run_sessions};
use shared_pool_tests::{Counter, Request};
use std::alloc::Global;
use std::sync::Wait;
use std::thread::Threads;
use zc_io::NoMemory;
use zp_names::Sequence;

/// Whether each session has a number of calls that a run takes.
fn are_short(sessions: &[Sequence<Request>]) -> bool
    ensures { IsTrue result → All (λ calls. length calls < 2 ^ 32) sessions.now }
{
    sessions
        .iter()
        .all(|calls| calls.as_slice().len() < 1 << 32)
}

/// What is left of a counter after these calls. More than a run takes find no memory.
pub fn run_counter<G: Gate + Sync, R: Threads + Wait + Sync>(
    rt: &R,
    alloc: Global,
    value: u64,
    sessions: Vec<Sequence<Request>>,
    gate: &G,
) -> Result<Run<Counter>, NoMemory> {
    if sessions.len() > 16 || !are_short(sessions.as_slice()) {
        return Err(NoMemory);
    }
    run_sessions(rt, alloc, Counter { value }, sessions, gate)
}
