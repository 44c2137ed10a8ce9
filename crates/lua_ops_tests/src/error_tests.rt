//! What operators raise, where they stop, and the texts of values.

ghost use Rattle.std.specs.Prelude.{◌≡◌, ◌<◌};
ghost use Rattle.lua_values.specs.Ids.{ids_of, IsOf};

use lua_ops::{ArithOp, CompareOp, OpResult, arith, compare, concat, length, to_text};
use lua_values::{Heap, LuaText, Value};
use std::alloc::Global;
use std::marker::Brand;
use std::process::Abort;
use std::sync::ledger::{Blank, Ledger};
use std::test::Fail;
use zc_budget::{Budget, Steps, Stop};
use zc_io::NoMemory;

/// Whether an answer raises this text, with line 3 before it.
fn raises(answer: OpResult, text: &[u8]) -> bool {
    match answer {
        OpResult::Raise(Value::Text(raised)) => {
            let whole = raised.as_slice();
            whole.starts_with(b"[string \"channel program\"]:3: ") && &whole[30..] == text
        }
        _ => false,
    }
}

/// Whether an answer is this text.
fn is_text(answer: OpResult, text: &[u8]) -> bool {
    match answer {
        OpResult::Done(Value::Text(told)) => told.as_slice() == text,
        _ => false,
    }
}

/// Whether `a + b` raises this text.
fn sum_raises<L: Ledger>(
    heap: &mut Heap,
    a: &Value,
    b: &Value,
    text: &[u8],
    steps: &mut Steps<L>,
) -> bool
    requires first { IsOf (ids_of heap.old) a.now }
    requires second { IsOf (ids_of heap.old) b.now }
    ensures { ids_of heap.new ≡ ids_of heap.old }
{
    raises(arith(heap, ArithOp::Add, a, b, &[3], steps), text)
}

/// Whether arithmetic names the first operand that doesn't count as a number.
fn names_no_number<L: Ledger>(heap: &mut Heap, text: &Value, steps: &mut Steps<L>) -> bool
    requires { IsOf (ids_of heap.old) text.now }
    ensures { ids_of heap.new ≡ ids_of heap.old }
{
    let table = Value::Table(heap.globals());
    let one = Value::Int(1);
    let on_nil = b"attempt to perform arithmetic on a nil value";
    let on_table = b"attempt to perform arithmetic on a table value";
    let on_text = b"attempt to perform arithmetic on a string value";
    let nil_first = sum_raises(heap, &Value::Nil, &table, on_nil, steps);
    let table_first = sum_raises(heap, &table, &Value::Nil, on_table, steps);
    let second = sum_raises(heap, &one, text, on_text, steps);
    let alone = raises(arith(heap, ArithOp::Neg, text, &one, &[3], steps), on_text);
    nil_first && table_first && second && alone
}

/// Whether `..` names the first operand that doesn't count as a text, and `#` what has no length.
fn names_no_text<L: Ledger>(heap: &mut Heap, text: &Value, steps: &mut Steps<L>) -> bool
    requires { IsOf (ids_of heap.old) text.now }
    ensures { ids_of heap.new ≡ ids_of heap.old }
{
    let table = Value::Table(heap.globals());
    let one = Value::Int(1);
    let both = concat(heap, &Value::Nil, &table, &[3], steps);
    let second = concat(heap, text, &table, &[3], steps);
    let counted = length(heap, &one, &[3], steps);
    raises(both, b"attempt to concatenate a nil value")
        && raises(second, b"attempt to concatenate a table value")
        && raises(counted, b"attempt to get length of a number value")
}

/// Whether comparisons name both operands in their order.
fn names_both<L: Ledger>(heap: &mut Heap, text: &Value, steps: &mut Steps<L>) -> bool
    requires { IsOf (ids_of heap.old) text.now }
    ensures { ids_of heap.new ≡ ids_of heap.old }
{
    let table = Value::Table(heap.globals());
    let one = Value::Int(1);
    let less = compare(heap, CompareOp::Less, &one, text, &[3], steps);
    let not_greater = compare(heap, CompareOp::LessEqual, text, &Value::Nil, &[3], steps);
    let tables = compare(heap, CompareOp::LessEqual, &table, &table, &[3], steps);
    raises(less, b"attempt to compare number with string")
        && raises(not_greater, b"attempt to compare string with nil")
        && raises(tables, b"attempt to compare table with table")
}

/// Whether the texts of values that are no texts are right.
fn tells<L: Ledger>(heap: &mut Heap, steps: &mut Steps<L>) -> bool
    ensures { ids_of heap.new ≡ ids_of heap.old }
{
    let strings = Value::Table(heap.strings());
    let table = to_text(heap, &strings, steps);
    let truth = to_text(heap, &Value::Bool(false), steps);
    let least = to_text(heap, &Value::Int(i64::MIN), steps);
    is_text(table, b"table: 2")
        && is_text(truth, b"false")
        && is_text(least, b"-9223372036854775808")
}

/// Where a text of 128 bytes, which takes 152 bytes and two instructions, stops.
fn stopped<L: Ledger>(
    alloc: Global,
    budget: Budget,
    half: LuaText,
    steps: &mut Steps<L>,
) -> Result<Option<Stop>, NoMemory> {
    let mut heap = Heap::new(alloc, budget)?;
    let half = Value::Text(half);
    match concat(&mut heap, &half, &half, &[3], steps) {
        OpResult::Stop(stop) => Ok(Some(stop)),
        _ => Ok(None),
    }
}

fn on_heaps<L: Ledger>(rt: &impl Abort, alloc: Global, blank: Blank) -> Result<(), Fail>
    requires name { blank.name ≡ L.name }
    requires parts { blank.parts ≡ L.parts }
    requires some { 0 < blank.parts }
{
    let mut steps: Steps<L> = Steps::new(blank);
    let mut heap = Heap::new(alloc, Budget::new(100, 10_000))?;
    let text = Value::Text(LuaText::from_slice(alloc, b"1x")?);
    let arithmetic = names_no_number(&mut heap, &text, &mut steps);
    assert!(rt; arithmetic);
    let texts = names_no_text(&mut heap, &text, &mut steps);
    assert!(rt; texts);
    let order = names_both(&mut heap, &text, &mut steps);
    assert!(rt; order);
    let told = tells(&mut heap, &mut steps);
    assert!(rt; told);
    let half = LuaText::from_slice(alloc, &[b'a'; 64])?;
    let memory = stopped(alloc, Budget::new(2, 151), half.clone()?, &mut steps)?;
    assert!(rt; memory == Some(Stop::Memory));
    let instructions = stopped(alloc, Budget::new(1, 152), half.clone()?, &mut steps)?;
    assert!(rt; instructions == Some(Stop::Instructions));
    let none = stopped(alloc, Budget::new(2, 152), half, &mut steps)?;
    assert!(rt; none.is_none());
    Ok(())
}

#[test]
fn errors(rt: HostRuntime) -> Result<(), Fail> {
    let alloc = rt.alloc();
    on_heaps::<Brand>(&rt, alloc, Blank::new(1))
}
