//! Basic functions over tables (Lua 5.2 manual, 6.1).

ghost use Rattle.std.specs.Prelude.{◌≡◌, ◌≤◌, ◌<◌, ◌+◌, All, IfOk, IfSome, length};
ghost use Rattle.lua_values.specs.Answers.{builtin_answer};
ghost use Rattle.lua_values.specs.Ids.{ids_of, IsOf, AreLater};
ghost use Rattle.lua_values.specs.Lending.{with_budget};
ghost use Rattle.lua_coroutines.specs.Hosts.{IsOfHeap};
ghost use Rattle.lua_meaning.specs.declared.value.Value.TheVariants as value;
ghost use Rattle.lua_arguments.specs.Answering.{gives_value};
ghost use Rattle.lua_base.specs.OfTables.{raw_get_call, raw_len_call, raw_set_call, stores};
ghost use Rattle.lua_base.specs.BaseCalls.{table_call};

use crate::function::TableFunction;
use crate::metatables::{get_metatable, set_metatable};
use crate::walks::{ipairs, ipairs_iterator, next, pairs};
use lua_arguments::{argument, bad_argument, give_value, raise_at, table_argument};
use lua_values::{Builtin, BuiltinResult, Heap, HeapFault, Lines, TableId, Value};
use std::alloc::AllocError;
use std::sync::ledger::Ledger;
use zc_budget::Steps;

/// The call of a basic function over a table.
#[tactic(auto, using(crate::proofs::Later::later_used))]
pub(crate) fn table_call<L: Ledger>(
    heap: &mut Heap,
    function: TableFunction,
    args: &[Value],
    lines: Lines,
    steps: &mut Steps<L>,
) -> BuiltinResult
    requires { All (IsOf (ids_of heap.old)) args.now }
    ensures answer { IfSome (builtin_answer result) (λ a. table_call function args.now lines.now heap.old ≡ (a, heap.new)) }
    ensures own { IfSome (builtin_answer result) (IsOfHeap (ids_of heap.new)) }
    ensures keeps { AreLater (ids_of heap.old) (ids_of heap.new) }
    ensures steps { steps.new ≤ steps.old + 4 }
{
    match function {
        TableFunction::GetMetatable => get_metatable(heap, args, lines, steps),
        TableFunction::SetMetatable => set_metatable(heap, args, lines, steps),
        TableFunction::Ipairs => ipairs(heap, args, lines, steps),
        TableFunction::IpairsIterator => ipairs_iterator(heap, args, lines, steps),
        TableFunction::Pairs => pairs(heap, args, lines, steps),
        TableFunction::Next => next(heap, args, lines, steps),
        TableFunction::RawGet => raw_get(heap, args, lines, steps),
        TableFunction::RawLen => raw_len(heap, args, lines, steps),
        TableFunction::RawSet => raw_set(heap, args, lines, steps),
    }
}

/// `rawget(t, k)`.
fn raw_get<L: Ledger>(
    heap: &mut Heap,
    args: &[Value],
    lines: Lines,
    steps: &mut Steps<L>,
) -> BuiltinResult
    requires { All (IsOf (ids_of heap.old)) args.now }
    ensures answer { IfSome (builtin_answer result) (λ a. raw_get_call args.now lines.now heap.old ≡ (a, heap.new)) }
    ensures own { IfSome (builtin_answer result) (IsOfHeap (ids_of heap.new)) }
    ensures others { heap.new ≡ with_budget heap.old heap.new.used }
    ensures steps { steps.new ≤ steps.old + 2 }
{
    let Some(table) = table_argument(heap, args, 0) else {
        return bad_argument(heap, 1, Builtin::RawGet, lines, steps);
    };
    let Some(key) = argument(heap, args, 1) else {
        return bad_argument(heap, 2, Builtin::RawGet, lines, steps);
    };
    match heap.get(table, key, steps) {
        Ok(value) => give_value(heap, value),
        Err(_) => BuiltinResult::NoMemory,
    }
}

/// `rawlen(v)`: of a table or a text.
fn raw_len<L: Ledger>(
    heap: &mut Heap,
    args: &[Value],
    lines: Lines,
    steps: &mut Steps<L>,
) -> BuiltinResult
    requires { All (IsOf (ids_of heap.old)) args.now }
    ensures answer { IfSome (builtin_answer result) (λ a. raw_len_call args.now lines.now heap.old ≡ (a, heap.new)) }
    ensures own { IfSome (builtin_answer result) (IsOfHeap (ids_of heap.new)) }
    ensures others { heap.new ≡ with_budget heap.old heap.new.used }
    ensures steps { steps.new ≤ steps.old + 2 }
{
    match argument(heap, args, 0) {
        Some(Value::Table(table)) => {
            let length = heap.border(*table, steps);
            give_value(heap, Value::Int(length))
        }
        Some(Value::Text(text)) => give_value(heap, Value::Int(text.as_slice().len() as i64)),
        _ => bad_argument(heap, 1, Builtin::RawLen, lines, steps),
    }
}

/// Puts a value into a table, and answers the table.
#[tactic(auto, using(crate::proofs::Later::later_used))]
fn store<L: Ledger>(
    heap: &mut Heap,
    table: TableId,
    key: Value,
    content: Value,
    lines: Lines,
    steps: &mut Steps<L>,
) -> BuiltinResult
    requires table { table < length heap.old.tables }
    requires key { IsOf (ids_of heap.old) key }
    requires content { IsOf (ids_of heap.old) content }
    ensures answer { IfSome (builtin_answer result) (λ a. stores table key content lines.now (gives_value (value.Table table)) heap.old ≡ (a, heap.new)) }
    ensures own { IfSome (builtin_answer result) (IsOfHeap (ids_of heap.new)) }
    ensures keeps { AreLater (ids_of heap.old) (ids_of heap.new) }
    ensures steps { steps.new ≤ steps.old + 2 }
{
    match heap.set(table, key, content, steps) {
        Ok(()) => give_value(heap, Value::Table(table)),
        Err(HeapFault::NilKey) => raise_at(heap, b"table index is nil", lines, steps),
        Err(HeapFault::Stop(stop)) => BuiltinResult::Stop(stop),
        Err(_) => BuiltinResult::NoMemory,
    }
}

/// Copies of two values.
fn copies(first: &Value, second: &Value) -> Result<(Value, Value), AllocError>
    ensures { IfOk result (λ pair. (pair.0 ≡ first.now) × (pair.1 ≡ second.now)) }
{
    Ok((first.clone()?, second.clone()?))
}

/// `rawset(t, k, v)`.
#[tactic(auto, using(crate::proofs::Later::later_used))]
fn raw_set<L: Ledger>(
    heap: &mut Heap,
    args: &[Value],
    lines: Lines,
    steps: &mut Steps<L>,
) -> BuiltinResult
    requires { All (IsOf (ids_of heap.old)) args.now }
    ensures answer { IfSome (builtin_answer result) (λ a. raw_set_call args.now lines.now heap.old ≡ (a, heap.new)) }
    ensures own { IfSome (builtin_answer result) (IsOfHeap (ids_of heap.new)) }
    ensures keeps { AreLater (ids_of heap.old) (ids_of heap.new) }
    ensures steps { steps.new ≤ steps.old + 4 }
{
    let Some(table) = table_argument(heap, args, 0) else {
        return bad_argument(heap, 1, Builtin::RawSet, lines, steps);
    };
    let Some(key) = argument(heap, args, 1) else {
        return bad_argument(heap, 2, Builtin::RawSet, lines, steps);
    };
    let Some(value) = argument(heap, args, 2) else {
        return bad_argument(heap, 3, Builtin::RawSet, lines, steps);
    };
    match copies(key, value) {
        Ok((key, value)) => store(heap, table, key, value, lines, steps),
        Err(_) => BuiltinResult::NoMemory,
    }
}
