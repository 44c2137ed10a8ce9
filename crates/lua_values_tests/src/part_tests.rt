//! Variables, metatables, iterators and the places of tables.

ghost use Rattle.std.specs.Prelude.{◌≡◌, ◌<◌, length, IfOk};
ghost use Rattle.lua_values.specs.Ids.{ids_of, AreLater};

use lua_values::{Event, Heap, HeapFault, IterState, LuaText, TableId, Value};
use std::alloc::Global;
use std::marker::Brand;
use std::process::Abort;
use std::sync::ledger::{Blank, Ledger};
use std::test::Fail;
use zc_budget::{Budget, Steps};
use zp_names::ListKind;

/// The length of the text in a variable that was changed.
fn changed<L: Ledger>(heap: &mut Heap, steps: &mut Steps<L>) -> Result<usize, HeapFault> {
    let old = heap.new_text(b"old", steps)?;
    let new = heap.new_text(b"newer", steps)?;
    let cell = heap.new_cell(old, steps)?;
    heap.set_cell(cell, new, steps);
    match heap.cell(cell, steps) {
        Ok(Value::Text(text)) => Ok(text.as_slice().len()),
        _ => Err(HeapFault::NoMemory),
    }
}

/// A further table.
fn further<L: Ledger>(heap: &mut Heap, steps: &mut Steps<L>) -> Result<TableId, HeapFault>
    ensures made { IfOk result (λ table. table < length heap.new.tables) }
    ensures keeps { AreLater (ids_of heap.old) (ids_of heap.new) }
{
    match heap.new_table(steps)? {
        Value::Table(table) => Ok(table),
        _ => Err(HeapFault::NoMemory),
    }
}

/// What a table has for `__index` and for `__len`, of which its metatable has the first.
fn found<L: Ledger>(heap: &mut Heap, steps: &mut Steps<L>) -> Result<(Value, Value), HeapFault> {
    let table = further(heap, steps)?;
    let meta = further(heap, steps)?;
    let key = heap.new_text(b"__index", steps)?;
    heap.set(meta, key, Value::Int(5), steps)?;
    heap.set_meta(table, Some(meta), steps);
    let Ok(index) = heap.metamethod(&Value::Table(table), Event::Index, steps) else {
        return Err(HeapFault::NoMemory);
    };
    let Ok(len) = heap.metamethod(&Value::Table(table), Event::Len, steps) else {
        return Err(HeapFault::NoMemory);
    };
    Ok((index, len))
}

/// The place of key 2 in a table that got 1 and 2, where 1 was set to nil and put again, and the border then.
fn kept<L: Ledger>(heap: &mut Heap, steps: &mut Steps<L>) -> Result<(bool, i64), HeapFault> {
    let table = further(heap, steps)?;
    heap.set(table, Value::Int(1), Value::Int(10), steps)?;
    heap.set(table, Value::Int(2), Value::Int(20), steps)?;
    heap.set(table, Value::Int(1), Value::Nil, steps)?;
    heap.set(table, Value::Int(1), Value::Int(30), steps)?;
    let border = heap.border(table, steps);
    let is_second = heap.pair(table, 1) == Some((&Value::Int(2), &Value::Int(20)));
    Ok((is_second, border))
}

/// The length of the last name that an iterator over a list notes.
fn noted<L: Ledger>(heap: &mut Heap, steps: &mut Steps<L>) -> Result<usize, HeapFault> {
    let first = LuaText::from_slice(heap.alloc(), b"")?;
    let last = LuaText::from_slice(heap.alloc(), b"rpool/home")?;
    let state = IterState::List {
        kind: ListKind::Children,
        id: 1,
        last: first,
    };
    let Value::Iter(iter) = heap.new_iter(state, steps)? else {
        return Err(HeapFault::NoMemory);
    };
    heap.move_iter(iter, last, steps);
    match heap.iter(iter) {
        IterState::List { last, .. } => Ok(last.as_slice().len()),
        IterState::Wrap(_) => Ok(0),
    }
}

fn on_heaps<L: Ledger>(rt: &impl Abort, alloc: Global, blank: Blank) -> Result<(), Fail>
    requires name { blank.name ≡ L.name }
    requires parts { blank.parts ≡ L.parts }
    requires some { 0 < blank.parts }
{
    let mut steps: Steps<L> = Steps::new(blank);
    let mut heap = Heap::new(alloc, Budget::new(100, 10_000))?;
    let variable = changed(&mut heap, &mut steps)?;
    assert!(rt; variable == 5);
    let metamethods = found(&mut heap, &mut steps)?;
    assert!(rt; metamethods == (Value::Int(5), Value::Nil));
    let places = kept(&mut heap, &mut steps)?;
    assert!(rt; places == (true, 2));
    let last = noted(&mut heap, &mut steps)?;
    assert!(rt; last == 10);
    Ok(())
}

#[test]
fn parts(rt: HostRuntime) -> Result<(), Fail> {
    let alloc = rt.alloc();
    on_heaps::<Brand>(&rt, alloc, Blank::new(1))
}
