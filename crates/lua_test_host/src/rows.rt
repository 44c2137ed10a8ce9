//! The functions of the host.

ghost use Rattle.std.specs.Prelude.{◌≡◌, ◌<◌, length, All, IfOk, IfSome, Some, slice_get};
ghost use Rattle.lua_meaning.specs.Values.{first};
ghost use Rattle.lua_values.specs.Answers.{builtin_answer};
ghost use Rattle.lua_values.specs.Ids.{ids_of, IsOf, AreLater};
ghost use Rattle.lua_coroutines.specs.Hosts.{IsOfHeap};
ghost use Rattle.lua_test_host.specs.declared.row.Row.TheVariants as row;
ghost use Rattle.lua_test_host.specs.FewFunctions.{raises_at_line, metatable_set, iterator_of, answers, calls, iterator_step, gives_left, text_left, not_made, table_of, plain_text_in, second};

use crate::row::Row;
use crate::values::{
    first_table, first_text, first_value, has_nil, other_values, second_table, twice,
};
use lua_ops::{OpResult, fails};
use lua_values::{
    After, BuiltinResult, Heap, HeapFault, IterId, IterState, Lines, LuaText, TableId, Value,
    ValueList,
};
use std::sync::ledger::Ledger;
use zc_budget::{Steps, Stop};
use zc_io::NoMemory;
use zp_names::ListKind;

/// The answer where something wasn't made.
fn refused(fault: HeapFault) -> BuiltinResult
    ensures { result ≡ not_made fault }
{
    match fault {
        HeapFault::Stop(stop) => BuiltinResult::Stop(stop),
        _ => BuiltinResult::NoMemory,
    }
}

/// Raises a text, with the line at work before it.
fn raised<L: Ledger>(
    heap: &mut Heap,
    text: &[u8],
    lines: Lines,
    steps: &mut Steps<L>,
) -> BuiltinResult
    ensures answer { IfSome (builtin_answer result) (λ a. raises_at_line text.now lines.now heap.old ≡ (a, heap.new)) }
    ensures own { IfSome (builtin_answer result) (IsOfHeap (ids_of heap.new)) }
    ensures keeps { AreLater (ids_of heap.old) (ids_of heap.new) }
    ensures threads { heap.new.threads ≡ heap.old.threads }
{
    match fails(heap, text, lines, steps) {
        OpResult::Raise(value) => BuiltinResult::Raise(value),
        OpResult::Stop(stop) => BuiltinResult::Stop(stop),
        _ => BuiltinResult::NoMemory,
    }
}

/// Gives a table this metatable, and answers the table.
fn with_meta<L: Ledger>(
    heap: &mut Heap,
    table: TableId,
    meta: TableId,
    lines: Lines,
    steps: &mut Steps<L>,
) -> BuiltinResult
    requires table { table < length heap.old.tables }
    requires meta { meta < length heap.old.tables }
    ensures answer { IfSome (builtin_answer result) (λ a. metatable_set (Some table) (Some meta) lines.now heap.old ≡ (a, heap.new)) }
    ensures own { IfSome (builtin_answer result) (IsOfHeap (ids_of heap.new)) }
    ensures keeps { AreLater (ids_of heap.old) (ids_of heap.new) }
    ensures threads { heap.new.threads ≡ heap.old.threads }
{
    let _line = lines.first();
    heap.set_meta(table, Some(meta), steps);
    BuiltinResult::Values(ValueList::of_one(heap.alloc(), Value::Table(table)))
}

/// `setmetatable(t, m)` with this table.
fn set_metatable_of<L: Ledger>(
    heap: &mut Heap,
    table: TableId,
    args: &[Value],
    lines: Lines,
    steps: &mut Steps<L>,
) -> BuiltinResult
    requires args { All (IsOf (ids_of heap.old)) args.now }
    requires table { table < length heap.old.tables }
    ensures answer { IfSome (builtin_answer result) (λ a. metatable_set (Some table) (table_of (second args.now)) lines.now heap.old ≡ (a, heap.new)) }
    ensures own { IfSome (builtin_answer result) (IsOfHeap (ids_of heap.new)) }
    ensures keeps { AreLater (ids_of heap.old) (ids_of heap.new) }
    ensures threads { heap.new.threads ≡ heap.old.threads }
{
    match second_table(args) {
        None => raised(heap, b"bad argument 2 to setmetatable", lines, steps),
        Some(meta) => with_meta(heap, table, meta, lines, steps),
    }
}

/// `setmetatable(t, m)`.
fn set_metatable<L: Ledger>(
    heap: &mut Heap,
    args: &[Value],
    lines: Lines,
    steps: &mut Steps<L>,
) -> BuiltinResult
    requires { All (IsOf (ids_of heap.old)) args.now }
    ensures answer { IfSome (builtin_answer result) (λ a. metatable_set (table_of (first args.now)) (table_of (second args.now)) lines.now heap.old ≡ (a, heap.new)) }
    ensures own { IfSome (builtin_answer result) (IsOfHeap (ids_of heap.new)) }
    ensures keeps { AreLater (ids_of heap.old) (ids_of heap.new) }
    ensures threads { heap.new.threads ≡ heap.old.threads }
{
    match first_table(args) {
        None => raised(heap, b"bad argument 1 to setmetatable", lines, steps),
        Some(table) => set_metatable_of(heap, table, args, lines, steps),
    }
}

/// An iterator function that begins with this text.
fn new_iterator<L: Ledger>(
    heap: &mut Heap,
    text: LuaText,
    lines: Lines,
    steps: &mut Steps<L>,
) -> BuiltinResult
    ensures answer { IfSome (builtin_answer result) (λ a. iterator_of (Some text) lines.now heap.old ≡ (a, heap.new)) }
    ensures own { IfSome (builtin_answer result) (IsOfHeap (ids_of heap.new)) }
    ensures keeps { AreLater (ids_of heap.old) (ids_of heap.new) }
    ensures threads { heap.new.threads ≡ heap.old.threads }
{
    let _line = lines.first();
    let state = IterState::List {
        kind: ListKind::Children,
        id: 0,
        last: text,
    };
    match heap.new_iter(state, steps) {
        Ok(value) => BuiltinResult::Values(ValueList::of_one(heap.alloc(), value)),
        Err(fault) => refused(fault),
    }
}

/// `zfs.list.children(text)`.
fn iterator<L: Ledger>(
    heap: &mut Heap,
    args: &[Value],
    lines: Lines,
    steps: &mut Steps<L>,
) -> BuiltinResult
    requires { All (IsOf (ids_of heap.old)) args.now }
    ensures answer { IfSome (builtin_answer result) (λ a. iterator_of (plain_text_in (first args.now)) lines.now heap.old ≡ (a, heap.new)) }
    ensures own { IfSome (builtin_answer result) (IsOfHeap (ids_of heap.new)) }
    ensures keeps { AreLater (ids_of heap.old) (ids_of heap.new) }
    ensures threads { heap.new.threads ≡ heap.old.threads }
{
    match first_text(args) {
        Err(NoMemory) => BuiltinResult::NoMemory,
        Ok(None) => raised(heap, b"bad argument 1 to zfs.list.children", lines, steps),
        Ok(Some(text)) => new_iterator(heap, text, lines, steps),
    }
}

/// `error(v)`.
fn raising(heap: &mut Heap, args: &[Value], lines: Lines) -> BuiltinResult
    requires { All (IsOf (ids_of heap.old)) args.now }
    ensures answer { IfSome (builtin_answer result) (λ a. answers row.Raises args.now lines.now heap.old ≡ (a, heap.new)) }
    ensures own { IfSome (builtin_answer result) (IsOfHeap (ids_of heap.new)) }
    ensures keeps { AreLater (ids_of heap.old) (ids_of heap.new) }
    ensures threads { heap.new.threads ≡ heap.old.threads }
{
    let _alloc = heap.alloc();
    let _line = lines.first();
    match first_value(args) {
        Ok(value) => BuiltinResult::Raise(value),
        Err(NoMemory) => BuiltinResult::NoMemory,
    }
}

/// `collectgarbage(v)`.
fn stopping(heap: &mut Heap, args: &[Value], lines: Lines) -> BuiltinResult
    ensures answer { IfSome (builtin_answer result) (λ a. answers row.Stops args.now lines.now heap.old ≡ (a, heap.new)) }
    ensures own { IfSome (builtin_answer result) (IsOfHeap (ids_of heap.new)) }
    ensures keeps { AreLater (ids_of heap.old) (ids_of heap.new) }
    ensures threads { heap.new.threads ≡ heap.old.threads }
{
    let _alloc = heap.alloc();
    let _line = lines.first();
    if has_nil(args) {
        return BuiltinResult::Stop(Stop::Memory);
    }
    BuiltinResult::Stop(Stop::Instructions)
}

/// `table.unpack(..)`.
fn giving(heap: &mut Heap, args: &[Value], lines: Lines) -> BuiltinResult
    requires { All (IsOf (ids_of heap.old)) args.now }
    ensures answer { IfSome (builtin_answer result) (λ a. answers row.GivesTwice args.now lines.now heap.old ≡ (a, heap.new)) }
    ensures own { IfSome (builtin_answer result) (IsOfHeap (ids_of heap.new)) }
    ensures keeps { AreLater (ids_of heap.old) (ids_of heap.new) }
    ensures threads { heap.new.threads ≡ heap.old.threads }
{
    let _line = lines.first();
    match twice(heap.alloc(), args) {
        Ok(values) => BuiltinResult::Values(values),
        Err(NoMemory) => BuiltinResult::NoMemory,
    }
}

/// What calls its first argument with the others.
fn calling(heap: &mut Heap, args: &[Value], after: After) -> BuiltinResult
    requires { All (IsOf (ids_of heap.old)) args.now }
    ensures answer { IfSome (builtin_answer result) (λ a. calls after args.now heap.old ≡ (a, heap.new)) }
    ensures own { IfSome (builtin_answer result) (IsOfHeap (ids_of heap.new)) }
    ensures keeps { AreLater (ids_of heap.old) (ids_of heap.new) }
    ensures threads { heap.new.threads ≡ heap.old.threads }
{
    let Ok(function) = first_value(args) else {
        return BuiltinResult::NoMemory;
    };
    match other_values(heap.alloc(), args) {
        Ok(others) => BuiltinResult::CallThen {
            function,
            args: others,
            after,
        },
        Err(NoMemory) => BuiltinResult::NoMemory,
    }
}

/// What each row answers.
pub(crate) fn answer<L: Ledger>(
    heap: &mut Heap,
    row: Row,
    args: &[Value],
    lines: Lines,
    steps: &mut Steps<L>,
) -> BuiltinResult
    requires { All (IsOf (ids_of heap.old)) args.now }
    ensures answer { IfSome (builtin_answer result) (λ a. answers row args.now lines.now heap.old ≡ (a, heap.new)) }
    ensures own { IfSome (builtin_answer result) (IsOfHeap (ids_of heap.new)) }
    ensures keeps { AreLater (ids_of heap.old) (ids_of heap.new) }
    ensures threads { heap.new.threads ≡ heap.old.threads }
{
    match row {
        Row::SetsMetatable => set_metatable(heap, args, lines, steps),
        Row::Raises => raising(heap, args, lines),
        Row::Stops => stopping(heap, args, lines),
        Row::CallsForThree => calling(heap, args, After::FirstThree),
        Row::CallsForText => calling(heap, args, After::OneText),
        Row::GivesTwice => giving(heap, args, lines),
        Row::MakesIterator => iterator(heap, args, lines, steps),
        Row::IsNone => raised(heap, b"attempt to call a nil value", lines, steps),
    }
}

/// What is left of the text of an iterator function.
fn left(heap: &Heap, iter: IterId) -> Result<LuaText, NoMemory>
    requires { iter < length heap.now.iters }
    ensures { IfOk result (λ text. text ≡ text_left (slice_get heap.now.iters iter)) }
{
    match heap.iter(iter) {
        IterState::List { last, .. } => Ok(last.clone()?),
        IterState::Wrap(_) => Ok(LuaText::from_slice(heap.alloc(), &[])?),
    }
}

/// Gives what is left, from which the first byte falls.
fn give<L: Ledger>(
    heap: &mut Heap,
    iter: IterId,
    left: &[u8],
    steps: &mut Steps<L>,
) -> BuiltinResult
    requires { iter < length heap.old.iters }
    ensures answer { IfSome (builtin_answer result) (λ a. gives_left left.now iter heap.old ≡ (a, heap.new)) }
    ensures own { IfSome (builtin_answer result) (IsOfHeap (ids_of heap.new)) }
    ensures keeps { AreLater (ids_of heap.old) (ids_of heap.new) }
    ensures threads { heap.new.threads ≡ heap.old.threads }
{
    let Ok(rest) = LuaText::from_slice(heap.alloc(), &left[1.min(left.len())..]) else {
        return BuiltinResult::NoMemory;
    };
    match heap.new_text(left, steps) {
        Ok(value) => {
            heap.move_iter(iter, rest, steps);
            BuiltinResult::Values(ValueList::of_one(heap.alloc(), value))
        }
        Err(fault) => refused(fault),
    }
}

/// The step of an iterator function.
pub(crate) fn step<L: Ledger>(heap: &mut Heap, iter: IterId, steps: &mut Steps<L>) -> BuiltinResult
    requires { iter < length heap.old.iters }
    ensures answer { IfSome (builtin_answer result) (λ a. iterator_step iter heap.old ≡ (a, heap.new)) }
    ensures own { IfSome (builtin_answer result) (IsOfHeap (ids_of heap.new)) }
    ensures keeps { AreLater (ids_of heap.old) (ids_of heap.new) }
    ensures threads { heap.new.threads ≡ heap.old.threads }
{
    let Ok(text) = left(heap, iter) else {
        return BuiltinResult::NoMemory;
    };
    if text.as_slice().is_empty() {
        return BuiltinResult::Values(ValueList::of_one(heap.alloc(), Value::Nil));
    }
    give(heap, iter, text.as_slice(), steps)
}
