//! The functions of `zfs.sync`, which change the pool.

ghost use Rattle.std.specs.Prelude.{◌≡◌, ◌≤◌, ◌+◌, IfOk, IfSome};
ghost use Rattle.lua_values.specs.Answers.{builtin_answer};
ghost use Rattle.lua_values.specs.Ids.{ids_of};
ghost use Rattle.lua_values.specs.Lending.{with_budget};
ghost use Rattle.lua_coroutines.specs.Hosts.{IsOfHeap};
ghost use Rattle.zp_tree.specs.WellFormed.{IsWellFormed};
ghost use Rattle.zcp_calls.specs.Syncing.{sync_name, sync_command, does_command, sync_by, sync_call};

use crate::answering::{number, raise_bad_arguments, raise_other_pool};
use crate::naming::{Named, one_name, pool_name};
use lua_values::{BuiltinResult, Heap, Lines, Value, ValueList};
use std::alloc::Global;
use std::sync::ledger::Ledger;
use zc_budget::Steps;
use zc_io::NoMemory;
use zp_changes::apply;
use zp_checks::check;
use zp_names::errno::EINVAL;
use zp_names::{Command, Name};
use zp_tree::Datasets;

/// A function of `zfs.sync` (zfs-program(8)).
#[derive(Clone, Copy, PartialEq, Eq, Debug, Drop)]
pub enum SyncCall {
    /// `zfs.sync.snapshot(dataset)`.
    Snapshot,
}

impl SyncCall {
    /// Its name, with the table that it stands in.
    pub fn name(self) -> &'static str
        ensures { result.now ≡ sync_name self }
    {
        match self {
            SyncCall::Snapshot => "zfs.sync.snapshot",
        }
    }
}

/// What a call asks for.
#[derive(Drop)]
pub(crate) enum Asked {
    /// This command.
    Does(Command),
    /// Something of another pool.
    Elsewhere(Name),
    /// A text stands where a name is wanted.
    NoName,
    /// The arguments are of another number or of other types.
    Wrong,
}

/// The command that a call is, by its arguments.
fn command_of(
    alloc: Global,
    which: SyncCall,
    pool: &[u8],
    args: &[Value],
) -> Result<Asked, NoMemory>
    ensures { IfOk result (λ asked. asked ≡ sync_command which pool.now args.now) }
{
    let SyncCall::Snapshot = which;
    match one_name(alloc, pool, args)? {
        Named::Here(name) => Ok(Asked::Does(Command::Snapshot { name })),
        Named::Elsewhere(name) => Ok(Asked::Elsewhere(name)),
        Named::NoName(_) => Ok(Asked::NoName),
        Named::Wrong => Ok(Asked::Wrong),
    }
}

/// Does a command where its check lets it pass, and answers the error number.
#[tactic(auto, using(zp_tree::proofs::Passing::zero_passes))]
fn do_command<T: Datasets>(
    heap: &Heap,
    tree: &mut T,
    command: &Command,
    txg: u64,
    now: u64,
) -> BuiltinResult
    requires { IsWellFormed (T.tree tree.old) }
    ensures answer { IfSome (builtin_answer result) (λ a. does_command command.now txg now heap.now (T.tree tree.old) ≡ (a, heap.now, T.tree tree.new)) }
    ensures own { IfSome (builtin_answer result) (IsOfHeap (ids_of heap.now)) }
    ensures well { IsWellFormed (T.tree tree.new) }
{
    let alloc = heap.alloc();
    let verdict = match check(alloc, tree, command) {
        Ok(verdict) => verdict,
        Err(NoMemory) => return BuiltinResult::NoMemory,
    };
    if verdict.errno != 0 {
        return BuiltinResult::Values(ValueList::of_one(alloc, number(verdict.errno)));
    }
    match apply(alloc, tree, command, txg, now) {
        Ok(()) => BuiltinResult::Values(ValueList::of_one(alloc, number(verdict.errno))),
        Err(NoMemory) => BuiltinResult::NoMemory,
    }
}

/// The answer to what a call asks for.
#[tactic(auto, using(crate::proofs::Staying::stays_left))]
fn sync_by<T: Datasets, L: Ledger>(
    heap: &mut Heap,
    tree: &mut T,
    asked: Asked,
    which: SyncCall,
    lines: Lines,
    txg: u64,
    now: u64,
    steps: &mut Steps<L>,
) -> BuiltinResult
    requires { IsWellFormed (T.tree tree.old) }
    ensures answer { IfSome (builtin_answer result) (λ a. sync_by asked which lines.now txg now heap.old (T.tree tree.old) ≡ (a, heap.new, T.tree tree.new)) }
    ensures own { IfSome (builtin_answer result) (IsOfHeap (ids_of heap.new)) }
    ensures others { heap.new ≡ with_budget heap.old heap.new.used }
    ensures well { IsWellFormed (T.tree tree.new) }
    ensures steps { steps.new ≤ steps.old + 1 }
{
    let alloc = heap.alloc();
    match asked {
        Asked::Does(command) => do_command(heap, tree, &command, txg, now),
        Asked::Elsewhere(name) => raise_other_pool(heap, &name, pool_name(tree), lines, steps),
        Asked::NoName => BuiltinResult::Values(ValueList::of_one(alloc, number(EINVAL))),
        Asked::Wrong => raise_bad_arguments(heap, which.name(), lines, steps),
    }
}

/// A call of a function of `zfs.sync` (zfs-program(8)), in a transaction group, at a moment in
/// seconds. It answers the error number of the command's check; where that is 0 the change is made,
/// and else nothing is changed. A name of another pool, and other arguments than the function's,
/// raise an error; a text that is no name is `EINVAL`. The tree stays well formed.
pub fn sync_call<T: Datasets, L: Ledger>(
    heap: &mut Heap,
    tree: &mut T,
    which: SyncCall,
    args: &[Value],
    lines: Lines,
    txg: u64,
    now: u64,
    steps: &mut Steps<L>,
) -> BuiltinResult
    requires { IsWellFormed (T.tree tree.old) }
    ensures answer { IfSome (builtin_answer result) (λ a. sync_call which args.now lines.now txg now heap.old (T.tree tree.old) ≡ (a, heap.new, T.tree tree.new)) }
    ensures own { IfSome (builtin_answer result) (IsOfHeap (ids_of heap.new)) }
    ensures others { heap.new ≡ with_budget heap.old heap.new.used }
    ensures well { IsWellFormed (T.tree tree.new) }
    ensures steps { steps.new ≤ steps.old + 1 }
{
    match command_of(heap.alloc(), which, pool_name(tree), args) {
        Ok(asked) => sync_by(heap, tree, asked, which, lines, txg, now, steps),
        Err(NoMemory) => BuiltinResult::NoMemory,
    }
}
