//! Operators on a heap, where there is memory.

ghost use Rattle.std.specs.Prelude.{◌≡◌, ◌<◌};

use lua_ops::{
    ArithOp, CompareOp, OpResult, arith, compare, concat, equal, length, to_int, to_text,
};
use lua_values::{Heap, LuaText, Value};
use std::alloc::Global;
use std::marker::Brand;
use std::process::Abort;
use std::sync::ledger::{Blank, Ledger};
use std::test::Fail;
use zc_budget::{Budget, Steps};

/// The number that an answer is, or that its text counts as.
fn number(answer: OpResult) -> Option<i64> {
    match answer {
        OpResult::Done(value) => to_int(&value),
        _ => None,
    }
}

/// The length of the text that an answer raises.
fn raised(answer: OpResult) -> usize {
    match answer {
        OpResult::Raise(Value::Text(text)) => text.as_slice().len(),
        _ => 0,
    }
}

/// -7 / 2 and 3 ^ 5.
fn worked_out<L: Ledger>(heap: &mut Heap, steps: &mut Steps<L>) -> (Option<i64>, Option<i64>) {
    let quotient = arith(
        heap,
        ArithOp::Div,
        &Value::Int(-7),
        &Value::Int(2),
        &[3],
        steps,
    );
    let power = arith(
        heap,
        ArithOp::Pow,
        &Value::Int(3),
        &Value::Int(5),
        &[3],
        steps,
    );
    (number(quotient), number(power))
}

/// What 1 % 0 and 1 < nil raise.
fn refused<L: Ledger>(heap: &mut Heap, steps: &mut Steps<L>) -> (usize, usize) {
    let by_zero = arith(
        heap,
        ArithOp::Mod,
        &Value::Int(1),
        &Value::Int(0),
        &[3],
        steps,
    );
    let order = compare(
        heap,
        CompareOp::Less,
        &Value::Int(1),
        &Value::Nil,
        &[3],
        steps,
    );
    (raised(by_zero), raised(order))
}

/// 1 .. 2, and the text of -8.
fn of_texts<L: Ledger>(heap: &mut Heap, steps: &mut Steps<L>) -> (Option<i64>, Option<i64>) {
    let joined = number(concat(heap, &Value::Int(1), &Value::Int(2), &[3], steps));
    let told = number(to_text(heap, &Value::Int(-8), steps));
    (joined, told)
}

fn on_heaps<L: Ledger>(rt: &impl Abort, alloc: Global, blank: Blank) -> Result<(), Fail>
    requires name { blank.name ≡ L.name }
    requires parts { blank.parts ≡ L.parts }
    requires some { 0 < blank.parts }
{
    let mut steps: Steps<L> = Steps::new(blank);
    let mut heap = Heap::new(alloc, Budget::new(100, 10_000))?;
    let worked = worked_out(&mut heap, &mut steps);
    assert!(rt; worked == (Some(-4), Some(243)));
    let raised = refused(&mut heap, &mut steps);
    assert!(rt; raised == (55, 64));
    let text = Value::Text(LuaText::from_slice(alloc, b" 0x10 ")?);
    assert!(rt; to_int(&text) == Some(16));
    assert!(rt; equal(&text, &text));
    let long = number(length(&mut heap, &text, &[3], &mut steps));
    assert!(rt; long == Some(6));
    let texts = of_texts(&mut heap, &mut steps);
    assert!(rt; texts == (Some(12), Some(-8)));
    Ok(())
}

#[test]
fn operators(rt: HostRuntime) -> Result<(), Fail> {
    let alloc = rt.alloc();
    on_heaps::<Brand>(&rt, alloc, Blank::new(1))
}
