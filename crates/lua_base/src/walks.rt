//! Walks of tables (Lua 5.2 manual, 6.1).

ghost use Rattle.std.specs.Prelude.{◌≡◌, ◌≤◌, ◌<◌, ◌+◌, [], ◌∷◌, All, IfSome, IfOk, length, pos, ◌+ℤ◌};
ghost use Rattle.lua_meaning.specs.Numbers.{wrapped};
ghost use Rattle.lua_meaning.specs.Tables.{pairs_behind};
ghost use Rattle.lua_meaning.specs.Heap.{table_at};
ghost use Rattle.lua_meaning.specs.Jobs.{CallThen};
ghost use Rattle.lua_meaning.specs.declared.status.After.TheVariants.{FirstThree};
ghost use Rattle.lua_meaning.specs.declared.value.Value.TheVariants as value;
ghost use Rattle.lua_values.specs.Answers.{builtin_answer};
ghost use Rattle.lua_values.specs.Ids.{ids_of, IsOf, IsOwnPair, AreLater};
ghost use Rattle.lua_values.specs.Lending.{with_budget};
ghost use Rattle.lua_coroutines.specs.Hosts.{IsOfHeap};
ghost use Rattle.lua_arguments.specs.Answering.{gives_values};
ghost use Rattle.lua_base.specs.OfTables.{iterates, ipairs_call, item_at, ipairs_iterator_call, pairs_call, walk_behind, pair_values, next_call};

use lua_arguments::{argument, bad_argument, number_argument, raise_at, table_argument};
use lua_values::{
    After, Builtin, BuiltinResult, Event, Heap, HeapFault, Lines, TableId, Value, ValueList,
};
use std::alloc::Global;
use std::sync::ledger::Ledger;
use zc_budget::Steps;
use zc_io::NoMemory;

/// Three values.
fn three(alloc: Global, first: Value, second: Value, third: Value) -> Result<ValueList, NoMemory>
    ensures { IfOk result (λ list. list ≡ first ∷ second ∷ third ∷ []) }
{
    let mut list = ValueList::of_two(alloc, first, second);
    list.push(third)?;
    Ok(list)
}

/// The next number, of which the lowest 64 bits stay.
#[tactic(auto, using(lua_ops::proofs::Wrapping::wrap_is))]
fn next_number(number: i64) -> i64
    ensures { result ≡ wrapped (number +ℤ pos 1) }
{
    let next = number as i128 + 1;
    (next.rem_euclid(18_446_744_073_709_551_616) as u64).cast_signed()
}

/// A metamethod is to be called with a value, of whose results the first three are given.
fn called(heap: &Heap, function: Value, value: &Value) -> BuiltinResult
    requires function { IsOf (ids_of heap.now) function }
    requires value { IsOf (ids_of heap.now) value.now }
    ensures answer { IfSome (builtin_answer result) (λ a. CallThen function (value.now ∷ []) FirstThree ≡ a) }
    ensures own { IfSome (builtin_answer result) (IsOfHeap (ids_of heap.now)) }
{
    match value.clone() {
        Err(_) => BuiltinResult::NoMemory,
        Ok(value) => BuiltinResult::CallThen {
            function,
            args: ValueList::of_one(heap.alloc(), value),
            after: After::FirstThree,
        },
    }
}

/// Answers an iterator, the table that it goes over, and where it begins.
fn give_iterator(heap: &Heap, iterator: Builtin, table: TableId, start: Value) -> BuiltinResult
    requires table { table < length heap.now.tables }
    requires start { IsOf (ids_of heap.now) start }
    ensures answer { IfSome (builtin_answer result) (λ a. gives_values (value.Builtin iterator ∷ value.Table table ∷ start ∷ []) heap.now ≡ (a, heap.now)) }
    ensures own { IfSome (builtin_answer result) (IsOfHeap (ids_of heap.now)) }
{
    match three(
        heap.alloc(),
        Value::Builtin(iterator),
        Value::Table(table),
        start,
    ) {
        Ok(list) => BuiltinResult::Values(list),
        Err(_) => BuiltinResult::NoMemory,
    }
}

/// `ipairs(t)`.
pub(crate) fn ipairs<L: Ledger>(
    heap: &mut Heap,
    args: &[Value],
    lines: Lines,
    steps: &mut Steps<L>,
) -> BuiltinResult
    requires { All (IsOf (ids_of heap.old)) args.now }
    ensures answer { IfSome (builtin_answer result) (λ a. ipairs_call args.now lines.now heap.old ≡ (a, heap.new)) }
    ensures own { IfSome (builtin_answer result) (IsOfHeap (ids_of heap.new)) }
    ensures others { heap.new ≡ with_budget heap.old heap.new.used }
    ensures steps { steps.new ≤ steps.old + 2 }
{
    let Some(value) = argument(heap, args, 0) else {
        return bad_argument(heap, 1, Builtin::Ipairs, lines, steps);
    };
    match heap.metamethod(value, Event::Ipairs, steps) {
        Err(_) => BuiltinResult::NoMemory,
        Ok(Value::Nil) => match table_argument(heap, args, 0) {
            None => bad_argument(heap, 1, Builtin::Ipairs, lines, steps),
            Some(table) => give_iterator(heap, Builtin::IpairsIterator, table, Value::Int(0)),
        },
        Ok(function) => called(heap, function, value),
    }
}

/// `pairs(t)`.
pub(crate) fn pairs<L: Ledger>(
    heap: &mut Heap,
    args: &[Value],
    lines: Lines,
    steps: &mut Steps<L>,
) -> BuiltinResult
    requires { All (IsOf (ids_of heap.old)) args.now }
    ensures answer { IfSome (builtin_answer result) (λ a. pairs_call args.now lines.now heap.old ≡ (a, heap.new)) }
    ensures own { IfSome (builtin_answer result) (IsOfHeap (ids_of heap.new)) }
    ensures others { heap.new ≡ with_budget heap.old heap.new.used }
    ensures steps { steps.new ≤ steps.old + 2 }
{
    let Some(value) = argument(heap, args, 0) else {
        return bad_argument(heap, 1, Builtin::Pairs, lines, steps);
    };
    match heap.metamethod(value, Event::Pairs, steps) {
        Err(_) => BuiltinResult::NoMemory,
        Ok(Value::Nil) => match table_argument(heap, args, 0) {
            None => bad_argument(heap, 1, Builtin::Pairs, lines, steps),
            Some(table) => give_iterator(heap, Builtin::Next, table, Value::Nil),
        },
        Ok(function) => called(heap, function, value),
    }
}

/// Answers a key and its value, or nil where there is no value.
fn give_item(heap: &Heap, key: i64, content: Value) -> BuiltinResult
    requires { IsOf (ids_of heap.now) content }
    ensures answer { IfSome (builtin_answer result) (λ a. gives_values (item_at (value.Int key) content) heap.now ≡ (a, heap.now)) }
    ensures own { IfSome (builtin_answer result) (IsOfHeap (ids_of heap.now)) }
{
    match content {
        Value::Nil => BuiltinResult::Values(ValueList::of_one(heap.alloc(), Value::Nil)),
        content => {
            BuiltinResult::Values(ValueList::of_two(heap.alloc(), Value::Int(key), content))
        }
    }
}

/// The iterator of `ipairs`.
pub(crate) fn ipairs_iterator<L: Ledger>(
    heap: &mut Heap,
    args: &[Value],
    lines: Lines,
    steps: &mut Steps<L>,
) -> BuiltinResult
    requires { All (IsOf (ids_of heap.old)) args.now }
    ensures answer { IfSome (builtin_answer result) (λ a. ipairs_iterator_call args.now lines.now heap.old ≡ (a, heap.new)) }
    ensures own { IfSome (builtin_answer result) (IsOfHeap (ids_of heap.new)) }
    ensures others { heap.new ≡ with_budget heap.old heap.new.used }
    ensures steps { steps.new ≤ steps.old + 2 }
{
    let Some(table) = table_argument(heap, args, 0) else {
        return bad_argument(heap, 1, Builtin::IpairsIterator, lines, steps);
    };
    let number = match number_argument(args, 1) {
        None => return bad_argument(heap, 2, Builtin::IpairsIterator, lines, steps),
        Some(number) => next_number(number),
    };
    match heap.get(table, &Value::Int(number), steps) {
        Err(_) => BuiltinResult::NoMemory,
        Ok(content) => give_item(heap, number, content),
    }
}

/// Answers a pair, or nil at the end.
fn give_pair(heap: &Heap, pair: Option<(Value, Value)>) -> BuiltinResult
    requires { IfSome pair (IsOwnPair (ids_of heap.now)) }
    ensures answer { IfSome (builtin_answer result) (λ a. gives_values (pair_values pair) heap.now ≡ (a, heap.now)) }
    ensures own { IfSome (builtin_answer result) (IsOfHeap (ids_of heap.now)) }
{
    match pair {
        None => BuiltinResult::Values(ValueList::of_one(heap.alloc(), Value::Nil)),
        Some((key, content)) => {
            BuiltinResult::Values(ValueList::of_two(heap.alloc(), key, content))
        }
    }
}

/// Goes on behind a key.
#[tactic(auto, using(lua_arguments::proofs::Ticking::ticks_enough, lua_arguments::proofs::Ticking::ticks_short))]
fn walk<L: Ledger>(
    heap: &mut Heap,
    table: TableId,
    key: &Value,
    lines: Lines,
    steps: &mut Steps<L>,
) -> BuiltinResult
    requires { table < length heap.old.tables }
    ensures answer { IfSome (builtin_answer result) (λ a. walk_behind (pairs_behind (table_at heap.old table).pairs key.now) lines.now heap.old ≡ (a, heap.new)) }
    ensures own { IfSome (builtin_answer result) (IsOfHeap (ids_of heap.new)) }
    ensures others { heap.new ≡ with_budget heap.old heap.new.used }
    ensures steps { steps.new ≤ steps.old + 2 }
{
    let _used = heap.budget().used();
    match heap.next(table, key, steps) {
        Ok(pair) => give_pair(heap, pair),
        Err(HeapFault::Stop(stop)) => BuiltinResult::Stop(stop),
        Err(HeapFault::UnknownKey) => raise_at(heap, b"invalid key to next", lines, steps),
        Err(_) => BuiltinResult::NoMemory,
    }
}

/// `next(t, k)`.
pub(crate) fn next<L: Ledger>(
    heap: &mut Heap,
    args: &[Value],
    lines: Lines,
    steps: &mut Steps<L>,
) -> BuiltinResult
    requires { All (IsOf (ids_of heap.old)) args.now }
    ensures answer { IfSome (builtin_answer result) (λ a. next_call args.now lines.now heap.old ≡ (a, heap.new)) }
    ensures own { IfSome (builtin_answer result) (IsOfHeap (ids_of heap.new)) }
    ensures others { heap.new ≡ with_budget heap.old heap.new.used }
    ensures steps { steps.new ≤ steps.old + 2 }
{
    let Some(table) = table_argument(heap, args, 0) else {
        return bad_argument(heap, 1, Builtin::Next, lines, steps);
    };
    match argument(heap, args, 1) {
        None => walk(heap, table, &Value::Nil, lines, steps),
        Some(key) => walk(heap, table, key, lines, steps),
    }
}
