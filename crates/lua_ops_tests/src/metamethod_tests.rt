//! Operators on tables that have metamethods. A number stands for each metamethod.

ghost use Rattle.std.specs.Prelude.{◌≡◌, ◌<◌, length, IfOk};
ghost use Rattle.lua_values.specs.Ids.{ids_of, IsOf, AreLater};

use lua_ops::{ArithOp, CompareOp, OpResult, arith, compare, concat, equal, length};
use lua_values::{Heap, HeapFault, TableId, Value};
use std::alloc::Global;
use std::marker::Brand;
use std::process::Abort;
use std::sync::ledger::{Blank, Ledger};
use std::test::Fail;
use zc_budget::{Budget, Steps};

/// A further table.
fn further<L: Ledger>(heap: &mut Heap, steps: &mut Steps<L>) -> Result<TableId, HeapFault>
    ensures made { IfOk result (λ table. table < length heap.new.tables) }
    ensures keeps { AreLater (ids_of heap.old) (ids_of heap.new) }
{
    match heap.new_table(steps)? {
        Value::Table(table) => Ok(table),
        _ => Err(HeapFault::NoMemory),
    }
}

/// Puts a number at a text.
fn put<L: Ledger>(
    heap: &mut Heap,
    table: TableId,
    name: &[u8],
    number: i64,
    steps: &mut Steps<L>,
) -> Result<(), HeapFault>
    requires { table < length heap.old.tables }
    ensures { AreLater (ids_of heap.old) (ids_of heap.new) }
{
    let name = heap.new_text(name, steps)?;
    heap.set(table, name, Value::Int(number), steps)
}

/// A table with a metamethod for each event.
fn with_all<L: Ledger>(heap: &mut Heap, steps: &mut Steps<L>) -> Result<Value, HeapFault>
    ensures own { IfOk result (IsOf (ids_of heap.new)) }
    ensures keeps { AreLater (ids_of heap.old) (ids_of heap.new) }
{
    let table = further(heap, steps)?;
    let meta = further(heap, steps)?;
    put(heap, meta, b"__lt", 1, steps)?;
    put(heap, meta, b"__le", 2, steps)?;
    put(heap, meta, b"__eq", 3, steps)?;
    put(heap, meta, b"__concat", 4, steps)?;
    put(heap, meta, b"__add", 5, steps)?;
    put(heap, meta, b"__unm", 6, steps)?;
    put(heap, meta, b"__len", 7, steps)?;
    heap.set_meta(table, Some(meta), steps);
    Ok(Value::Table(table))
}

/// A table with a metamethod for `<`, and the same for `==` as the other table.
fn with_few<L: Ledger>(heap: &mut Heap, steps: &mut Steps<L>) -> Result<Value, HeapFault>
    ensures own { IfOk result (IsOf (ids_of heap.new)) }
    ensures keeps { AreLater (ids_of heap.old) (ids_of heap.new) }
{
    let table = further(heap, steps)?;
    let meta = further(heap, steps)?;
    put(heap, meta, b"__lt", 8, steps)?;
    put(heap, meta, b"__eq", 3, steps)?;
    heap.set_meta(table, Some(meta), steps);
    Ok(Value::Table(table))
}

/// The metamethod that is called and whether its result is negated, where this is its first operand.
fn called(answer: OpResult, first: &Value) -> Option<(i64, bool)> {
    let OpResult::Meta {
        function: Value::Int(number),
        args,
        negated,
    } = answer
    else {
        return None;
    };
    if equal(&args.into_first(), first) {
        Some((number, negated))
    } else {
        None
    }
}

/// `<` and `<=` of a table with `__le` and one without, and of a number and the latter.
fn ordered<L: Ledger>(
    heap: &mut Heap,
    all: &Value,
    few: &Value,
    steps: &mut Steps<L>,
) -> [Option<(i64, bool)>; 4]
    requires all { IsOf (ids_of heap.old) all.now }
    requires few { IsOf (ids_of heap.old) few.now }
    ensures { ids_of heap.new ≡ ids_of heap.old }
{
    let one = Value::Int(1);
    let less = compare(heap, CompareOp::Less, &one, few, &[3], steps);
    let other = compare(heap, CompareOp::Less, few, all, &[3], steps);
    let by_le = compare(heap, CompareOp::LessEqual, few, all, &[3], steps);
    let by_lt = compare(heap, CompareOp::LessEqual, few, &one, &[3], steps);
    [
        called(less, &one),
        called(other, few),
        called(by_le, few),
        called(by_lt, &one),
    ]
}

/// `==`, `..` and `+` of two tables, of which the second alone has the latter two.
fn joined<L: Ledger>(
    heap: &mut Heap,
    all: &Value,
    few: &Value,
    steps: &mut Steps<L>,
) -> [Option<(i64, bool)>; 3]
    requires all { IsOf (ids_of heap.old) all.now }
    requires few { IsOf (ids_of heap.old) few.now }
    ensures { ids_of heap.new ≡ ids_of heap.old }
{
    let same = compare(heap, CompareOp::Equal, few, all, &[3], steps);
    let text = concat(heap, few, all, &[3], steps);
    let sum = arith(heap, ArithOp::Add, few, all, &[3], steps);
    [called(same, few), called(text, few), called(sum, few)]
}

/// Unary `-` and `#` of a table.
fn of_one<L: Ledger>(heap: &mut Heap, all: &Value, steps: &mut Steps<L>) -> [Option<(i64, bool)>; 2]
    requires { IsOf (ids_of heap.old) all.now }
    ensures { ids_of heap.new ≡ ids_of heap.old }
{
    let negated = arith(heap, ArithOp::Neg, all, all, &[3], steps);
    let counted = length(heap, all, &[3], steps);
    [called(negated, all), called(counted, all)]
}

fn on_heaps<L: Ledger>(rt: &impl Abort, alloc: Global, blank: Blank) -> Result<(), Fail>
    requires name { blank.name ≡ L.name }
    requires parts { blank.parts ≡ L.parts }
    requires some { 0 < blank.parts }
{
    let mut steps: Steps<L> = Steps::new(blank);
    let mut heap = Heap::new(alloc, Budget::new(100, 10_000))?;
    let all = with_all(&mut heap, &mut steps)?;
    let few = with_few(&mut heap, &mut steps)?;
    let order = ordered(&mut heap, &all, &few, &mut steps);
    assert!(rt;
        order
            == [
                Some((8, false)),
                Some((8, false)),
                Some((2, false)),
                Some((8, true))
            ]
    );
    let made = joined(&mut heap, &all, &few, &mut steps);
    assert!(rt; made == [Some((3, false)), Some((4, false)), Some((5, false))]);
    let alone = of_one(&mut heap, &all, &mut steps);
    assert!(rt; alone == [Some((6, false)), Some((7, false))]);
    Ok(())
}

#[test]
fn metamethods(rt: HostRuntime) -> Result<(), Fail> {
    let alloc = rt.alloc();
    on_heaps::<Brand>(&rt, alloc, Blank::new(1))
}
