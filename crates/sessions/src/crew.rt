//! The workers of a run, put together and taken apart.
ghost use Rattle.std.specs.Prelude.{◌≡◌, ◌≤◌, ◌∷◌, [], List, Some, length, map, slice_get, IfOk, OnOk};
ghost use Rattle.shared_pool.specs.Passes.{SyncPassView};
ghost use Rattle.sessions.specs.declared.worker.Worker.{Worker as WorkerOf};
ghost use Rattle.sessions.specs.Workers.{passes_in, replies_in, groups_in, IsCrew, ArePartsOf};

use crate::asked::Asked;
use crate::worker::{Caller, Worker};
use shared_pool::{Pass, SyncPass};
use std::alloc::Global;
use txg_core::Stated;
use zc_io::NoMemory;
use zp_names::Sequence;

/// A worker for each of these passes, with the session's calls, and one that moves the groups on.
pub(crate) fn crew<O: Stated + Drop>(
    alloc: Global,
    mut passes: Vec<Pass<O>>,
    mut calls: Vec<Vec<Asked<O>>>,
    sync: SyncPass<O>,
) -> Result<Vec<Worker<O>>, NoMemory>
    requires few { length passes.items ≤ 16 }
    requires as_many { length passes.items ≡ length calls.items }
    ensures { IfOk result (λ workers. IsCrew passes.items calls.items sync workers.items) }
{
    let mut workers = Vec::new(alloc);
    workers.push(Worker::Groups(sync))?;
    while let Some(pass) = passes.pop() {
        let Some(calls) = calls.pop() else {
            unreachable!()
        };
        let caller = Caller {
            session: passes.len() as u32,
            pass,
            calls,
            replies: None,
        };
        let Ok(()) = workers.insert(0, Worker::Session(caller)) else {
            return Err(NoMemory);
        };
    }
    Ok(workers)
}

/// What is taken of workers that have ended.
#[derive(Drop)]
pub(crate) struct Parts<O: Stated + Drop> {
    pub(crate) passes: Vec<Pass<O>>,
    pub(crate) replies: Vec<Sequence<O::Reply>>,
    pub(crate) groups: Option<SyncPass<O>>,
}

impl<O: Stated + Drop> Parts<O> {
    fn new(alloc: Global) -> Parts<O>
        ensures { ArePartsOf [] result }
    {
        Parts {
            passes: Vec::new(alloc),
            replies: Vec::new(alloc),
            groups: None,
        }
    }

    /// Puts a session's in front.
    fn add_session(&mut self, caller: Caller<O>) -> Result<(), NoMemory>
        ensures { OnOk result ((workers : List (WorkerOf O O.Call O.Reply)) → ArePartsOf workers self.old → ArePartsOf (WorkerOf.Session caller ∷ workers) self.new) }
    {
        let Caller {
            session: _,
            pass,
            calls: _,
            replies,
        } = caller;
        let Some(replies) = replies else {
            return Err(NoMemory);
        };
        let Ok(()) = self.passes.insert(0, pass) else {
            return Err(NoMemory);
        };
        let Ok(()) = self.replies.insert(0, replies) else {
            return Err(NoMemory);
        };
        Ok(())
    }

    /// Puts a worker's in front.
    fn add(&mut self, worker: Worker<O>) -> Result<(), NoMemory>
        ensures { OnOk result ((workers : List (WorkerOf O O.Call O.Reply)) → ArePartsOf workers self.old → ArePartsOf (worker ∷ workers) self.new) }
    {
        match worker {
            Worker::Session(caller) => self.add_session(caller),
            Worker::Groups(pass) => {
                self.groups = Some(pass);
                Ok(())
            }
        }
    }
}

/// What these workers leave. Want of memory also says that a session was not given all replies.
pub(crate) fn part<O: Stated + Drop>(
    alloc: Global,
    mut workers: Vec<Worker<O>>,
) -> Result<Parts<O>, NoMemory>
    ensures { IfOk result (λ parts. ArePartsOf workers.items parts) }
{
    let mut parts = Parts::new(alloc);
    while let Some(worker) = workers.pop() {
        parts.add(worker)?;
    }
    Ok(parts)
}
