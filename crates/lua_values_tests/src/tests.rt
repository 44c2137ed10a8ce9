//! Lists and heaps, where there is memory.

ghost use Rattle.std.specs.Prelude.{◌≡◌, ◌<◌, length, IfOk};

use lua_ast::NodeId;
use lua_values::{Event, Heap, HeapFault, IterState, LuaText, TableId, Value, ValueList};
use std::alloc::Global;
use std::marker::Brand;
use std::process::Abort;
use std::sync::ledger::{Blank, Ledger};
use std::test::Fail;
use zc_budget::{Budget, Steps};
use zc_io::NoMemory;

#[test]
fn lists_of_values(rt: HostRuntime) -> Result<(), Fail> {
    let alloc = rt.alloc();
    let mut list = ValueList::of_two(alloc, Value::Int(2), Value::Bool(true));
    list.push_first(Value::Int(1))?;
    list.append(ValueList::of_one(alloc, Value::Nil))?;
    list.push(Value::Int(9))?;
    assert!(rt; list.len() == 5);
    assert!(rt; list.get(3) == Some(&Value::Nil));
    assert!(rt; list.get(5).is_none());
    assert!(rt; list.take_at(4) == Value::Int(9));
    assert!(rt; list.take_at(4) == Value::Nil);
    list.truncate(2);
    let copy = ValueList::from_slice(alloc, list.as_slice())?;
    assert!(rt; copy.len() == 2);
    assert!(rt; copy.into_first() == Value::Int(1));
    assert!(rt; ValueList::new(alloc).is_empty());
    Ok(())
}

/// A table with values at 1, 2 and 4.
fn with_items<L: Ledger>(heap: &mut Heap, steps: &mut Steps<L>) -> Result<TableId, HeapFault>
    ensures { IfOk result (λ table. table < length heap.new.tables) }
{
    let Value::Table(table) = heap.new_table(steps)? else {
        return Err(HeapFault::NoMemory);
    };
    heap.set(table, Value::Int(1), Value::Int(10), steps)?;
    heap.set(table, Value::Int(2), Value::Int(20), steps)?;
    heap.set(table, Value::Int(4), Value::Int(40), steps)?;
    Ok(table)
}

/// The borders before and after the value at 2 goes, and what a walk finds then behind 1.
fn walked<L: Ledger>(
    heap: &mut Heap,
    steps: &mut Steps<L>,
) -> Result<(i64, i64, Option<(Value, Value)>), HeapFault> {
    let table = with_items(heap, steps)?;
    let before = heap.border(table, steps);
    heap.set(table, Value::Int(2), Value::Nil, steps)?;
    let after = heap.border(table, steps);
    let found = heap.next(table, &Value::Int(1), steps)?;
    Ok((before, after, found))
}

/// What a walk from a key that was never put is refused with.
fn lost<L: Ledger>(heap: &mut Heap, steps: &mut Steps<L>) -> Result<HeapFault, HeapFault> {
    let table = with_items(heap, steps)?;
    match heap.next(table, &Value::Int(9), steps) {
        Ok(_) => Ok(HeapFault::NoMemory),
        Err(fault) => Ok(fault),
    }
}

/// Makes one of each kind: 26, 24, 64, 256 and 64 bytes.
fn made<L: Ledger>(heap: &mut Heap, steps: &mut Steps<L>) -> Result<(u64, u64), HeapFault> {
    let text = heap.new_text(b"ab", steps)?;
    let cell = heap.new_cell(text, steps)?;
    heap.new_closure(NodeId::new(7), &[cell], steps)?;
    let thread = heap.new_thread(steps)?;
    heap.new_iter(IterState::Wrap(thread), steps)?;
    Ok(heap.budget().used())
}

/// The value of a global.
fn global<L: Ledger>(
    alloc: Global,
    heap: &Heap,
    name: &[u8],
    steps: &mut Steps<L>,
) -> Result<Value, NoMemory> {
    let key = Value::Text(LuaText::from_slice(alloc, name)?);
    heap.get(heap.globals(), &key, steps)
}

fn on_heaps<L: Ledger>(rt: &impl Abort, alloc: Global, blank: Blank) -> Result<(), Fail>
    requires name { blank.name ≡ L.name }
    requires parts { blank.parts ≡ L.parts }
    requires some { 0 < blank.parts }
{
    let mut steps: Steps<L> = Steps::new(blank);
    let mut heap = Heap::new(alloc, Budget::new(100, 10_000))?;
    let used = made(&mut heap, &mut steps)?;
    assert!(rt; used == (0, 26 + 24 + 64 + 256 + 64));
    let walk = walked(&mut heap, &mut steps)?;
    assert!(rt; walk == (2, 1, Some((Value::Int(4), Value::Int(40)))));
    let fault = lost(&mut heap, &mut steps)?;
    assert!(rt; fault == HeapFault::UnknownKey);
    let strings = global(alloc, &heap, b"string", &mut steps)?;
    assert!(rt; strings == Value::Table(heap.strings()));
    let index = heap.metamethod(&Value::Table(heap.strings()), Event::Index, &mut steps)?;
    assert!(rt; index == Value::Nil);
    Ok(())
}

#[test]
fn heaps(rt: HostRuntime) -> Result<(), Fail> {
    let alloc = rt.alloc();
    on_heaps::<Brand>(&rt, alloc, Blank::new(1))
}
