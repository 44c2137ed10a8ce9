//! Metamethods (Lua 5.2 manual, 2.4).

ghost use Rattle.std.specs.Prelude.{◌≡◌, ◌≤◌, ◌+◌, ◌∷◌, [], false, IfOk};
ghost use Rattle.lua_meaning.specs.Operators.{either};
ghost use Rattle.lua_values.specs.Events.{event_name};
ghost use Rattle.lua_values.specs.Ids.{ids_of, IsOf};
ghost use Rattle.lua_ops.specs.Answers.{IsOwnAnswer, IsCallOf};

use crate::result::OpResult;
use lua_values::{Event, Heap, Value, ValueList};
use std::alloc::Global;
use std::sync::ledger::Ledger;
use zc_budget::Steps;
use zc_io::NoMemory;

/// The metamethod of the first of two values that has one.
pub(crate) fn either<L: Ledger>(
    heap: &Heap,
    event: Event,
    a: &Value,
    b: &Value,
    steps: &mut Steps<L>,
) -> Result<Value, NoMemory>
    requires first { IsOf (ids_of heap.now) a.now }
    requires second { IsOf (ids_of heap.now) b.now }
    ensures value { IfOk result (λ f. f ≡ either heap.now (event_name event) a.now b.now) }
    ensures own { IfOk result (IsOf (ids_of heap.now)) }
    ensures steps { steps.new ≤ steps.old + 2 }
{
    match heap.metamethod(a, event, steps)? {
        Value::Nil => heap.metamethod(b, event, steps),
        function => Ok(function),
    }
}

/// A metamethod is to be called with two operands.
pub(crate) fn called(heap: &Heap, function: Value, a: &Value, b: &Value, negated: bool) -> OpResult
    requires function { IsOf (ids_of heap.now) function }
    requires first { IsOf (ids_of heap.now) a.now }
    requires second { IsOf (ids_of heap.now) b.now }
    ensures answer { IsCallOf function (a.now ∷ b.now ∷ []) negated result }
    ensures own { IsOwnAnswer (ids_of heap.now) result }
{
    match operands(heap.alloc(), a, b) {
        Err(_) => OpResult::NoMemory,
        Ok(args) => OpResult::Meta {
            function,
            args,
            negated,
        },
    }
}

/// Copies of two operands.
fn operands(alloc: Global, a: &Value, b: &Value) -> Result<ValueList, NoMemory>
    ensures { IfOk result (λ args. args ≡ a.now ∷ b.now ∷ []) }
{
    Ok(ValueList::of_two(alloc, a.clone()?, b.clone()?))
}

/// A metamethod is to be called with one operand.
pub(crate) fn called_with(heap: &Heap, function: Value, a: &Value) -> OpResult
    requires function { IsOf (ids_of heap.now) function }
    requires operand { IsOf (ids_of heap.now) a.now }
    ensures answer { IsCallOf function (a.now ∷ []) false result }
    ensures own { IsOwnAnswer (ids_of heap.now) result }
{
    match a.clone() {
        Err(_) => OpResult::NoMemory,
        Ok(a) => OpResult::Meta {
            function,
            args: ValueList::of_one(heap.alloc(), a),
            negated: false,
        },
    }
}
