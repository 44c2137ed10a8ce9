//! Answers.

ghost use Rattle.std.specs.Prelude.{◌≡◌, ◌≤◌, ◌+◌, IfSome};
ghost use Rattle.lua_values.specs.Answers.{builtin_answer};
ghost use Rattle.lua_values.specs.Ids.{ids_of, IsOf};
ghost use Rattle.lua_values.specs.Lending.{with_budget};
ghost use Rattle.lua_coroutines.specs.Hosts.{IsOfHeap};
ghost use Rattle.lua_arguments.specs.Answering.{gives_value, gives_text, raises_text, raises_at};

use lua_ops::{OpResult, fails};
use lua_values::{BuiltinResult, Heap, HeapFault, Lines, Value, ValueList};
use std::sync::ledger::Ledger;
use zc_budget::Steps;

/// Answers one value.
pub fn give_value(heap: &Heap, value: Value) -> BuiltinResult
    requires { IsOf (ids_of heap.now) value }
    ensures answer { IfSome (builtin_answer result) (λ a. gives_value value heap.now ≡ (a, heap.now)) }
    ensures own { IfSome (builtin_answer result) (IsOfHeap (ids_of heap.now)) }
{
    BuiltinResult::Values(ValueList::of_one(heap.alloc(), value))
}

/// Answers a text that comes to be.
pub fn give_text<L: Ledger>(heap: &mut Heap, text: &[u8], steps: &mut Steps<L>) -> BuiltinResult
    ensures answer { IfSome (builtin_answer result) (λ a. gives_text text.now heap.old ≡ (a, heap.new)) }
    ensures own { IfSome (builtin_answer result) (IsOfHeap (ids_of heap.new)) }
    ensures others { heap.new ≡ with_budget heap.old heap.new.used }
    ensures steps { steps.new ≤ steps.old + 1 }
{
    match heap.new_text(text, steps) {
        Ok(value) => BuiltinResult::Values(ValueList::of_one(heap.alloc(), value)),
        Err(HeapFault::Stop(stop)) => BuiltinResult::Stop(stop),
        Err(_) => BuiltinResult::NoMemory,
    }
}

/// Raises a text that comes to be.
pub fn raise_text<L: Ledger>(heap: &mut Heap, text: &[u8], steps: &mut Steps<L>) -> BuiltinResult
    ensures answer { IfSome (builtin_answer result) (λ a. raises_text text.now heap.old ≡ (a, heap.new)) }
    ensures own { IfSome (builtin_answer result) (IsOfHeap (ids_of heap.new)) }
    ensures others { heap.new ≡ with_budget heap.old heap.new.used }
    ensures steps { steps.new ≤ steps.old + 1 }
{
    match heap.new_text(text, steps) {
        Ok(value) => BuiltinResult::Raise(value),
        Err(HeapFault::Stop(stop)) => BuiltinResult::Stop(stop),
        Err(_) => BuiltinResult::NoMemory,
    }
}

/// Raises a text, with the line at work before it.
pub fn raise_at<L: Ledger>(
    heap: &mut Heap,
    text: &[u8],
    lines: Lines,
    steps: &mut Steps<L>,
) -> BuiltinResult
    ensures answer { IfSome (builtin_answer result) (λ a. raises_at lines.now text.now heap.old ≡ (a, heap.new)) }
    ensures own { IfSome (builtin_answer result) (IsOfHeap (ids_of heap.new)) }
    ensures others { heap.new ≡ with_budget heap.old heap.new.used }
    ensures steps { steps.new ≤ steps.old + 1 }
{
    match fails(heap, text, lines, steps) {
        OpResult::Raise(value) => BuiltinResult::Raise(value),
        OpResult::Stop(stop) => BuiltinResult::Stop(stop),
        _ => BuiltinResult::NoMemory,
    }
}
