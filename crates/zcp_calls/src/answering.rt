//! Answers and errors.

ghost use Rattle.std.specs.Prelude.{◌≡◌, ◌≤◌, ◌+◌, IfOk, IfSome, Some, pos, [], ◌∷◌};
ghost use Rattle.lua_meaning.specs.declared.value.Value.TheVariants as value;
ghost use Rattle.lua_values.specs.Answers.{builtin_answer};
ghost use Rattle.lua_values.specs.Ids.{ids_of};
ghost use Rattle.lua_values.specs.Lending.{with_budget};
ghost use Rattle.lua_coroutines.specs.Hosts.{IsOfHeap};
ghost use Rattle.zcp_calls.specs.Answering.{raises, bad_arguments_text, other_pool_text, no_name_text, read_only_text};

use lua_ops::{OpResult, fails};
use lua_values::{BuiltinResult, Heap, Lines, Value};
use std::alloc::{AllocError, Global};
use std::sync::ledger::Ledger;
use zc_budget::Steps;
use zp_names::Name;

/// A number.
pub(crate) fn number(n: u32) -> Value
    ensures { result ≡ value.Int (pos n) }
{
    Value::Int(n as i64)
}

/// Raises a text, with the line at work before it.
pub fn raise<L: Ledger>(
    heap: &mut Heap,
    text: &[u8],
    lines: Lines,
    steps: &mut Steps<L>,
) -> BuiltinResult
    ensures answer { IfSome (builtin_answer result) (λ a. raises lines.now text.now heap.old ≡ (a, heap.new)) }
    ensures own { IfSome (builtin_answer result) (IsOfHeap (ids_of heap.new)) }
    ensures others { heap.new ≡ with_budget heap.old heap.new.used }
    ensures steps { steps.new ≤ steps.old + 1 }
{
    match fails(heap, text, lines, steps) {
        OpResult::Raise(value) => BuiltinResult::Raise(value),
        OpResult::Stop(stop) => BuiltinResult::Stop(stop),
        _ => BuiltinResult::NoMemory,
    }
}

/// The text of an error where a function wants other arguments.
fn bad_arguments_text(alloc: Global, function: &str) -> Result<Vec<u8>, AllocError>
    ensures { IfOk result (λ text. text.items ≡ bad_arguments_text function.now) }
{
    let mut text = Vec::from_slice(alloc, b"bad arguments to ")?;
    text.extend_from_slice(function.as_bytes())?;
    Ok(text)
}

/// The text of an error where a name is one of another pool.
fn other_pool_text(alloc: Global, name: &[u8], pool: &[u8]) -> Result<Vec<u8>, AllocError>
    ensures { IfOk result (λ text. text.items ≡ other_pool_text name.now pool.now) }
{
    let mut text = Vec::from_slice(alloc, b"dataset '")?;
    text.extend_from_slice(name)?;
    text.extend_from_slice(b"' is not in pool '")?;
    text.extend_from_slice(pool)?;
    text.extend_from_slice(b"'")?;
    Ok(text)
}

/// The text of an error where a text is no name.
fn no_name_text(alloc: Global, name: &[u8]) -> Result<Vec<u8>, AllocError>
    ensures { IfOk result (λ text. text.items ≡ no_name_text name.now) }
{
    let mut text = Vec::from_slice(alloc, b"invalid dataset name '")?;
    text.extend_from_slice(name)?;
    text.extend_from_slice(b"'")?;
    Ok(text)
}

/// Raises that a function wants other arguments.
pub(crate) fn raise_bad_arguments<L: Ledger>(
    heap: &mut Heap,
    function: &str,
    lines: Lines,
    steps: &mut Steps<L>,
) -> BuiltinResult
    ensures answer { IfSome (builtin_answer result) (λ a. raises lines.now (bad_arguments_text function.now) heap.old ≡ (a, heap.new)) }
    ensures own { IfSome (builtin_answer result) (IsOfHeap (ids_of heap.new)) }
    ensures others { heap.new ≡ with_budget heap.old heap.new.used }
    ensures steps { steps.new ≤ steps.old + 1 }
{
    let Ok(text) = bad_arguments_text(heap.alloc(), function) else {
        return BuiltinResult::NoMemory;
    };
    raise(heap, text.as_slice(), lines, steps)
}

/// Raises that a name is one of another pool.
pub(crate) fn raise_other_pool<L: Ledger>(
    heap: &mut Heap,
    name: &Name,
    pool: &[u8],
    lines: Lines,
    steps: &mut Steps<L>,
) -> BuiltinResult
    ensures answer { IfSome (builtin_answer result) (λ a. raises lines.now (other_pool_text name.now pool.now) heap.old ≡ (a, heap.new)) }
    ensures own { IfSome (builtin_answer result) (IsOfHeap (ids_of heap.new)) }
    ensures others { heap.new ≡ with_budget heap.old heap.new.used }
    ensures steps { steps.new ≤ steps.old + 1 }
{
    let Ok(text) = other_pool_text(heap.alloc(), name.text().as_bytes(), pool) else {
        return BuiltinResult::NoMemory;
    };
    raise(heap, text.as_slice(), lines, steps)
}

/// Raises that a text is no name.
pub(crate) fn raise_no_name<L: Ledger>(
    heap: &mut Heap,
    name: &[u8],
    lines: Lines,
    steps: &mut Steps<L>,
) -> BuiltinResult
    ensures answer { IfSome (builtin_answer result) (λ a. raises lines.now (no_name_text name.now) heap.old ≡ (a, heap.new)) }
    ensures own { IfSome (builtin_answer result) (IsOfHeap (ids_of heap.new)) }
    ensures others { heap.new ≡ with_budget heap.old heap.new.used }
    ensures steps { steps.new ≤ steps.old + 1 }
{
    let Ok(text) = no_name_text(heap.alloc(), name) else {
        return BuiltinResult::NoMemory;
    };
    raise(heap, text.as_slice(), lines, steps)
}

/// Raises that a program that only reads can't change the pool.
pub fn raise_read_only<L: Ledger>(
    heap: &mut Heap,
    lines: Lines,
    steps: &mut Steps<L>,
) -> BuiltinResult
    ensures answer { IfSome (builtin_answer result) (λ a. raises lines.now read_only_text heap.old ≡ (a, heap.new)) }
    ensures own { IfSome (builtin_answer result) (IsOfHeap (ids_of heap.new)) }
    ensures others { heap.new ≡ with_budget heap.old heap.new.used }
    ensures steps { steps.new ≤ steps.old + 1 }
{
    let text = b"zfs.sync is not available in a read-only program";
    raise(heap, text, lines, steps)
}
