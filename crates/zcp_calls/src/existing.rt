//! Whether a dataset is there.

ghost use Rattle.std.specs.Prelude.{◌≡◌, ◌≤◌, ◌+◌, IfSome};
ghost use Rattle.lua_values.specs.Answers.{builtin_answer};
ghost use Rattle.lua_values.specs.Ids.{ids_of};
ghost use Rattle.lua_values.specs.Lending.{with_budget};
ghost use Rattle.lua_coroutines.specs.Hosts.{IsOfHeap};
ghost use Rattle.zcp_calls.specs.Existing.{exists_by, exists_call};

use crate::answering::{raise_bad_arguments, raise_no_name, raise_other_pool};
use crate::naming::{Named, one_name, pool_name};
use lua_values::{BuiltinResult, Heap, Lines, Value, ValueList};
use std::sync::ledger::Ledger;
use zc_budget::Steps;
use zc_io::NoMemory;
use zp_tree::Datasets;

/// The answer for what the argument names.
fn exists_by<T: Datasets, L: Ledger>(
    heap: &mut Heap,
    tree: &T,
    named: Named,
    lines: Lines,
    steps: &mut Steps<L>,
) -> BuiltinResult
    ensures answer { IfSome (builtin_answer result) (λ a. exists_by named lines.now (T.tree tree.now) heap.old ≡ (a, heap.new)) }
    ensures own { IfSome (builtin_answer result) (IsOfHeap (ids_of heap.new)) }
    ensures others { heap.new ≡ with_budget heap.old heap.new.used }
    ensures steps { steps.new ≤ steps.old + 1 }
{
    let alloc = heap.alloc();
    match named {
        Named::Here(name) => {
            let is_there = Value::Bool(zp_tree::exists(tree, &name));
            BuiltinResult::Values(ValueList::of_one(alloc, is_there))
        }
        Named::Elsewhere(name) => raise_other_pool(heap, &name, pool_name(tree), lines, steps),
        Named::NoName(name) => raise_no_name(heap, name.as_slice(), lines, steps),
        Named::Wrong => raise_bad_arguments(heap, "zfs.exists", lines, steps),
    }
}

/// `zfs.exists(dataset)`: whether there is a dataset, a snapshot or a bookmark of this name
/// (zfs-program(8)). A name of another pool, a text that is no name, and other arguments than one
/// text or number raise an error.
pub fn exists<T: Datasets, L: Ledger>(
    heap: &mut Heap,
    tree: &T,
    args: &[Value],
    lines: Lines,
    steps: &mut Steps<L>,
) -> BuiltinResult
    ensures answer { IfSome (builtin_answer result) (λ a. exists_call args.now lines.now (T.tree tree.now) heap.old ≡ (a, heap.new)) }
    ensures own { IfSome (builtin_answer result) (IsOfHeap (ids_of heap.new)) }
    ensures others { heap.new ≡ with_budget heap.old heap.new.used }
    ensures steps { steps.new ≤ steps.old + 1 }
{
    match one_name(heap.alloc(), pool_name(tree), args) {
        Ok(named) => exists_by(heap, tree, named, lines, steps),
        Err(NoMemory) => BuiltinResult::NoMemory,
    }
}
