//! `#` (Lua 5.2 manual, 3.4.6).

ghost use Rattle.std.specs.Prelude.{◌≡◌, ◌≤◌, ◌+◌};
ghost use Rattle.lua_meaning.specs.Operators.{len, own_length};
ghost use Rattle.lua_values.specs.Lending.{with_budget};
ghost use Rattle.lua_values.specs.Ids.{ids_of, IsOf};
ghost use Rattle.lua_ops.specs.Answers.{IsOpAnswer, IsOwnAnswer};

use crate::errors::fails_on;
use crate::metamethods::called_with;
use crate::result::OpResult;
use lua_values::{Event, Heap, Lines, Value};
use std::sync::ledger::Ledger;
use zc_budget::Steps;

/// `#a`: the bytes of a text; for a table its `__len`, or else the least n at whose successor it has
/// nil.
pub fn length<L: Ledger>(heap: &mut Heap, a: &Value, lines: Lines, steps: &mut Steps<L>) -> OpResult
    requires { IsOf (ids_of heap.old) a.now }
    ensures answer { IsOpAnswer (len a.now lines.now) heap.old result heap.new }
    ensures own { IsOwnAnswer (ids_of heap.new) result }
    ensures others { heap.new ≡ with_budget heap.old heap.new.used }
    ensures steps { steps.new ≤ steps.old + 256 }
{
    if let Value::Text(text) = a {
        return OpResult::Done(Value::Int(text.as_slice().len() as i64));
    }
    match heap.metamethod(a, Event::Len, steps) {
        Err(_) => OpResult::NoMemory,
        Ok(Value::Nil) => own_length(heap, a, lines, steps),
        Ok(function) => called_with(heap, function, a),
    }
}

/// `#` without a metamethod.
fn own_length<L: Ledger>(heap: &mut Heap, a: &Value, lines: Lines, steps: &mut Steps<L>) -> OpResult
    requires { IsOf (ids_of heap.old) a.now }
    ensures answer { IsOpAnswer (own_length a.now lines.now) heap.old result heap.new }
    ensures own { IsOwnAnswer (ids_of heap.new) result }
    ensures others { heap.new ≡ with_budget heap.old heap.new.used }
    ensures steps { steps.new ≤ steps.old + 1 }
{
    match a {
        Value::Table(table) => OpResult::Done(Value::Int(heap.border(*table, steps))),
        _ => fails_on(heap, "get length of", a, lines, steps),
    }
}
