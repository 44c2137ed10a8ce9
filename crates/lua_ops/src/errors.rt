//! Errors, with the line at work before their text.

ghost use Rattle.std.specs.Prelude.{◌≡◌, ◌≤◌, ◌+◌, ◌++◌, codes, IfOk};
ghost use Rattle.lua_meaning.specs.Runs.{line_at, error_text, attempt_text};
ghost use Rattle.lua_meaning.specs.Values.{type_name};
ghost use Rattle.lua_meaning.specs.Operators.{op_fails, op_fails_on, fails_compare};
ghost use Rattle.lua_values.specs.Lending.{with_budget};
ghost use Rattle.lua_values.specs.Ids.{ids_of};
ghost use Rattle.lua_ops.specs.Answers.{IsOpAnswer, IsOwnAnswer};

use crate::result::{OpResult, refused};
use itoa::Buffer;
use lua_values::{Heap, Lines, Value};
use std::alloc::{AllocError, Global};
use std::sync::ledger::Ledger;
use zc_budget::Steps;

/// The name of a value's type, as `type` gives it (Lua 5.2 manual, 6.1).
pub fn type_name(value: &Value) -> &'static str
    ensures { result.now ≡ type_name value.now }
{
    match value {
        Value::Nil => "nil",
        Value::Bool(_) => "boolean",
        Value::Int(_) => "number",
        Value::Text(_) => "string",
        Value::Table(_) => "table",
        Value::Thread(_) => "thread",
        Value::Closure(_) | Value::Builtin(_) | Value::Iter(_) => "function",
    }
}

/// The line at work.
fn line_at(lines: Lines) -> u32
    ensures { result ≡ line_at lines.now }
{
    match lines.first() {
        Some(line) => *line,
        None => 0,
    }
}

/// An error's text, with the line at work before it.
fn error_text(alloc: Global, lines: Lines, text: &[u8]) -> Result<Vec<u8>, AllocError>
    ensures { IfOk result (λ whole. whole.items ≡ error_text lines.now text.now) }
{
    let mut buffer = Buffer::new();
    let mut whole = Vec::from_slice(alloc, b"[string \"channel program\"]:")?;
    whole.extend_from_slice(buffer.format(line_at(lines)).as_bytes())?;
    whole.extend_from_slice(b": ")?;
    whole.extend_from_slice(text)?;
    Ok(whole)
}

/// The text of an error where a value isn't of the type that is wanted.
fn attempt_text(alloc: Global, what: &str, value: &Value) -> Result<Vec<u8>, AllocError>
    ensures { IfOk result (λ whole. whole.items ≡ attempt_text what.now value.now) }
{
    let mut whole = Vec::from_slice(alloc, b"attempt to ")?;
    whole.extend_from_slice(what.as_bytes())?;
    whole.extend_from_slice(b" a ")?;
    whole.extend_from_slice(type_name(value).as_bytes())?;
    whole.extend_from_slice(b" value")?;
    Ok(whole)
}

/// The text of an error where two values can't be compared.
fn compare_text(alloc: Global, a: &Value, b: &Value) -> Result<Vec<u8>, AllocError>
    ensures { IfOk result (λ whole. whole.items ≡ codes "attempt to compare " ++ type_name a.now ++ codes " with " ++ type_name b.now) }
{
    let mut whole = Vec::from_slice(alloc, b"attempt to compare ")?;
    whole.extend_from_slice(type_name(a).as_bytes())?;
    whole.extend_from_slice(b" with ")?;
    whole.extend_from_slice(type_name(b).as_bytes())?;
    Ok(whole)
}

/// Raises a text, with the line at work before it.
pub fn fails<L: Ledger>(
    heap: &mut Heap,
    text: &[u8],
    lines: Lines,
    steps: &mut Steps<L>,
) -> OpResult
    ensures answer { IsOpAnswer (op_fails lines.now text.now) heap.old result heap.new }
    ensures own { IsOwnAnswer (ids_of heap.new) result }
    ensures others { heap.new ≡ with_budget heap.old heap.new.used }
    ensures steps { steps.new ≤ steps.old + 1 }
{
    let Ok(whole) = error_text(heap.alloc(), lines, text) else {
        return OpResult::NoMemory;
    };
    match heap.new_text(whole.as_slice(), steps) {
        Ok(value) => OpResult::Raise(value),
        Err(fault) => refused(fault),
    }
}

/// Raises that a value isn't of the type that is wanted.
pub fn fails_on<L: Ledger>(
    heap: &mut Heap,
    what: &str,
    value: &Value,
    lines: Lines,
    steps: &mut Steps<L>,
) -> OpResult
    ensures answer { IsOpAnswer (op_fails_on lines.now what.now value.now) heap.old result heap.new }
    ensures own { IsOwnAnswer (ids_of heap.new) result }
    ensures others { heap.new ≡ with_budget heap.old heap.new.used }
    ensures steps { steps.new ≤ steps.old + 1 }
{
    let Ok(text) = attempt_text(heap.alloc(), what, value) else {
        return OpResult::NoMemory;
    };
    fails(heap, text.as_slice(), lines, steps)
}

/// Raises that two values can't be compared.
pub(crate) fn fails_compare<L: Ledger>(
    heap: &mut Heap,
    a: &Value,
    b: &Value,
    lines: Lines,
    steps: &mut Steps<L>,
) -> OpResult
    ensures answer { IsOpAnswer (fails_compare a.now b.now lines.now) heap.old result heap.new }
    ensures own { IsOwnAnswer (ids_of heap.new) result }
    ensures others { heap.new ≡ with_budget heap.old heap.new.used }
    ensures steps { steps.new ≤ steps.old + 1 }
{
    let Ok(text) = compare_text(heap.alloc(), a, b) else {
        return OpResult::NoMemory;
    };
    fails(heap, text.as_slice(), lines, steps)
}
