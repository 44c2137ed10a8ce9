//! `==`, `<` and `<=` (Lua 5.2 manual, 3.4.3).

ghost use Rattle.std.specs.Prelude.{◌≡◌, ◌≤◌, ◌+◌, IfOk};
ghost use Rattle.std.specs.Ordering.{nat_cmp};
ghost use Rattle.std.specs.Cmp.Lexicographic.{slice_cmp};
ghost use Rattle.lua_meaning.specs.Values.{same};
ghost use Rattle.lua_meaning.specs.Operators.{common, equal, less, less_by, less_or_same, not_greater_by};
ghost use Rattle.lua_values.specs.Lending.{with_budget};
ghost use Rattle.lua_values.specs.Ids.{ids_of, IsOf};
ghost use Rattle.lua_ops.specs.Answers.{IsOpAnswer, IsOwnAnswer};
ghost use Rattle.lua_ops.specs.Kinds.{compare_op};

use crate::errors::fails_compare;
use crate::metamethods::{called, either};
use crate::result::OpResult;
use lua_values::{Event, Heap, Lines, LuaText, Value};
use std::cmp::Ordering;
use std::sync::ledger::Ledger;
use zc_budget::Steps;
use zc_io::NoMemory;

/// A comparison. `a > b` is `b < a`, `a >= b` is `b <= a`, and `~=` is the negation of `==`.
#[derive(Clone, Copy, PartialEq, Eq, Debug, Drop)]
pub enum CompareOp {
    /// `==`
    Equal,
    /// `<`
    Less,
    /// `<=`
    LessEqual,
}

/// Compares two values; of what a metamethod answers the caller takes the truth.
pub fn compare<L: Ledger>(
    heap: &mut Heap,
    op: CompareOp,
    a: &Value,
    b: &Value,
    lines: Lines,
    steps: &mut Steps<L>,
) -> OpResult
    requires first { IsOf (ids_of heap.old) a.now }
    requires second { IsOf (ids_of heap.old) b.now }
    ensures answer { IsOpAnswer (compare_op op a.now b.now lines.now) heap.old result heap.new }
    ensures own { IsOwnAnswer (ids_of heap.new) result }
    ensures others { heap.new ≡ with_budget heap.old heap.new.used }
    ensures steps { steps.new ≤ steps.old + 256 }
{
    match op {
        CompareOp::Equal => is_equal(heap, a, b, steps),
        CompareOp::Less => less(heap, a, b, lines, steps),
        CompareOp::LessEqual => not_greater(heap, a, b, lines, steps),
    }
}

/// The same kind and the same value, without metamethods; tables and functions by identity.
pub fn equal(a: &Value, b: &Value) -> bool
    ensures { result ≡ same a.now b.now }
{
    match (a, b) {
        (Value::Nil, Value::Nil) => true,
        (Value::Bool(a), Value::Bool(b)) => *a == *b,
        (Value::Int(a), Value::Int(b)) => *a == *b,
        (Value::Text(a), Value::Text(b)) => *a == *b,
        (Value::Table(a), Value::Table(b)) => a.number() == b.number(),
        (Value::Closure(a), Value::Closure(b)) => a.number() == b.number(),
        (Value::Builtin(a), Value::Builtin(b)) => *a == *b,
        (Value::Iter(a), Value::Iter(b)) => a.number() == b.number(),
        (Value::Thread(a), Value::Thread(b)) => a.number() == b.number(),
        _ => false,
    }
}

/// `==`: the same, or else the `__eq` that two tables both have.
fn is_equal<L: Ledger>(heap: &mut Heap, a: &Value, b: &Value, steps: &mut Steps<L>) -> OpResult
    requires first { IsOf (ids_of heap.old) a.now }
    requires second { IsOf (ids_of heap.old) b.now }
    ensures answer { IsOpAnswer (equal a.now b.now) heap.old result heap.new }
    ensures own { IsOwnAnswer (ids_of heap.new) result }
    ensures others { heap.new ≡ heap.old }
    ensures steps { steps.new ≤ steps.old + 4 }
{
    if equal(a, b) {
        return OpResult::Done(Value::Bool(true));
    }
    match common(heap, a, b, steps) {
        Err(_) => OpResult::NoMemory,
        Ok(Value::Nil) => OpResult::Done(Value::Bool(false)),
        Ok(function) => called(heap, function, a, b, false),
    }
}

/// The `__eq` that two tables both have, or nil.
fn common<L: Ledger>(
    heap: &Heap,
    a: &Value,
    b: &Value,
    steps: &mut Steps<L>,
) -> Result<Value, NoMemory>
    requires first { IsOf (ids_of heap.now) a.now }
    requires second { IsOf (ids_of heap.now) b.now }
    ensures value { IfOk result (λ f. f ≡ common heap.now a.now b.now) }
    ensures own { IfOk result (IsOf (ids_of heap.now)) }
    ensures steps { steps.new ≤ steps.old + 4 }
{
    match (a, b) {
        (Value::Table(_), Value::Table(_)) => {
            let first = heap.metamethod(a, Event::Eq, steps)?;
            let second = heap.metamethod(b, Event::Eq, steps)?;
            if equal(&first, &second) {
                Ok(first)
            } else {
                Ok(Value::Nil)
            }
        }
        _ => Ok(Value::Nil),
    }
}

/// `<`: of two numbers or two texts, or else by `__lt`.
fn less<L: Ledger>(
    heap: &mut Heap,
    a: &Value,
    b: &Value,
    lines: Lines,
    steps: &mut Steps<L>,
) -> OpResult
    requires first { IsOf (ids_of heap.old) a.now }
    requires second { IsOf (ids_of heap.old) b.now }
    ensures answer { IsOpAnswer (less a.now b.now lines.now) heap.old result heap.new }
    ensures own { IsOwnAnswer (ids_of heap.new) result }
    ensures others { heap.new ≡ with_budget heap.old heap.new.used }
    ensures steps { steps.new ≤ steps.old + 5 }
{
    match (a, b) {
        (Value::Int(x), Value::Int(y)) => OpResult::Done(Value::Bool(*x < *y)),
        (Value::Text(x), Value::Text(y)) => { OpResult::Done(Value::Bool(order(x, y).is_lt())) }
        _ => less_by_metamethod(heap, a, b, lines, steps),
    }
}

/// The order of two texts, by bytes.
fn order(x: &LuaText, y: &LuaText) -> Ordering
    ensures { result ≡ slice_cmp nat_cmp x.now y.now }
{
    x.as_slice().cmp(y.as_slice())
}

/// `<` of other values.
fn less_by_metamethod<L: Ledger>(
    heap: &mut Heap,
    a: &Value,
    b: &Value,
    lines: Lines,
    steps: &mut Steps<L>,
) -> OpResult
    requires first { IsOf (ids_of heap.old) a.now }
    requires second { IsOf (ids_of heap.old) b.now }
    ensures answer { IsOpAnswer (less_by a.now b.now lines.now) heap.old result heap.new }
    ensures own { IsOwnAnswer (ids_of heap.new) result }
    ensures others { heap.new ≡ with_budget heap.old heap.new.used }
    ensures steps { steps.new ≤ steps.old + 5 }
{
    match either(heap, Event::Lt, a, b, steps) {
        Err(_) => OpResult::NoMemory,
        Ok(Value::Nil) => fails_compare(heap, a, b, lines, steps),
        Ok(function) => called(heap, function, a, b, false),
    }
}

/// `<=`: of two numbers or two texts, or else by `__le`, or `not (b < a)` by `__lt`.
fn not_greater<L: Ledger>(
    heap: &mut Heap,
    a: &Value,
    b: &Value,
    lines: Lines,
    steps: &mut Steps<L>,
) -> OpResult
    requires first { IsOf (ids_of heap.old) a.now }
    requires second { IsOf (ids_of heap.old) b.now }
    ensures answer { IsOpAnswer (less_or_same a.now b.now lines.now) heap.old result heap.new }
    ensures own { IsOwnAnswer (ids_of heap.new) result }
    ensures others { heap.new ≡ with_budget heap.old heap.new.used }
    ensures steps { steps.new ≤ steps.old + 9 }
{
    match (a, b) {
        (Value::Int(x), Value::Int(y)) => OpResult::Done(Value::Bool(*x <= *y)),
        (Value::Text(x), Value::Text(y)) => { OpResult::Done(Value::Bool(order(x, y).is_le())) }
        _ => not_greater_by_metamethod(heap, a, b, lines, steps),
    }
}

/// `<=` of other values.
fn not_greater_by_metamethod<L: Ledger>(
    heap: &mut Heap,
    a: &Value,
    b: &Value,
    lines: Lines,
    steps: &mut Steps<L>,
) -> OpResult
    requires first { IsOf (ids_of heap.old) a.now }
    requires second { IsOf (ids_of heap.old) b.now }
    ensures answer { IsOpAnswer (not_greater_by a.now b.now lines.now) heap.old result heap.new }
    ensures own { IsOwnAnswer (ids_of heap.new) result }
    ensures others { heap.new ≡ with_budget heap.old heap.new.used }
    ensures steps { steps.new ≤ steps.old + 9 }
{
    match either(heap, Event::Le, a, b, steps) {
        Err(_) => OpResult::NoMemory,
        Ok(Value::Nil) => match either(heap, Event::Lt, b, a, steps) {
            Err(_) => OpResult::NoMemory,
            Ok(Value::Nil) => fails_compare(heap, a, b, lines, steps),
            Ok(function) => called(heap, function, b, a, true),
        },
        Ok(function) => called(heap, function, a, b, false),
    }
}
