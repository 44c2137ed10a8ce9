//! `..`, and numbers as texts (Lua 5.2 manual, 3.4.2 and 3.4.5).

ghost use Rattle.std.specs.Prelude.{◌≡◌, ◌≤◌, ◌+◌, ◌++◌, Some, None, true, false, codes, IfOk, IfErr, OnOk, option_map, is_some};
ghost use Rattle.std.specs.Fmt.{signed_decimal};
ghost use Rattle.lua_meaning.specs.Builtins.{name_of};
ghost use Rattle.lua_meaning.specs.Numbers.{as_text};
ghost use Rattle.lua_meaning.specs.Texts.{plain_text, to_text};
ghost use Rattle.lua_meaning.specs.Operators.{Op, Stopped, op_ticks, concat, concat_text, two_texts, not_texts, first_without};
ghost use Rattle.lua_values.specs.Lending.{with_budget};
ghost use Rattle.lua_values.specs.Ids.{ids_of, IsOf};
ghost use Rattle.lua_ops.specs.Answers.{IsOpAnswer, IsOwnAnswer};
ghost use Rattle.lua_ops.specs.Texts.{joined_texts, IsAppended};

use crate::errors::fails_on;
use crate::metamethods::{called, either};
use crate::result::{OpResult, refused};
use itoa::Buffer;
use lua_values::{Builtin, Event, Heap, Lines, Value};
use std::alloc::{AllocError, Global};
use std::sync::ledger::Ledger;
use zc_budget::{Steps, Stop};

/// `a .. b`: of two texts or numbers, or else by `__concat`.
#[tactic(auto, using(crate::proofs::Concats::concat_joined, crate::proofs::Concats::concat_apart))]
pub fn concat<L: Ledger>(
    heap: &mut Heap,
    a: &Value,
    b: &Value,
    lines: Lines,
    steps: &mut Steps<L>,
) -> OpResult
    requires first { IsOf (ids_of heap.old) a.now }
    requires second { IsOf (ids_of heap.old) b.now }
    ensures answer { IsOpAnswer (concat (two_texts (as_text a.now) (as_text b.now)) a.now b.now lines.now) heap.old result heap.new }
    ensures own { IsOwnAnswer (ids_of heap.new) result }
    ensures others { heap.new ≡ with_budget heap.old heap.new.used }
    ensures steps { steps.new ≤ steps.old + 256 }
{
    match joined(heap.alloc(), a, b) {
        Err(_) => OpResult::NoMemory,
        Ok(Some(text)) => join(heap, text.as_slice(), steps),
        Ok(None) => concat_by_metamethod(heap, a, b, lines, steps),
    }
}

/// `..` of values that are not both texts.
fn concat_by_metamethod<L: Ledger>(
    heap: &mut Heap,
    a: &Value,
    b: &Value,
    lines: Lines,
    steps: &mut Steps<L>,
) -> OpResult
    requires first { IsOf (ids_of heap.old) a.now }
    requires second { IsOf (ids_of heap.old) b.now }
    ensures answer { IsOpAnswer (concat not_texts a.now b.now lines.now) heap.old result heap.new }
    ensures own { IsOwnAnswer (ids_of heap.new) result }
    ensures others { heap.new ≡ with_budget heap.old heap.new.used }
    ensures steps { steps.new ≤ steps.old + 5 }
{
    match either(heap, Event::Concat, a, b, steps) {
        Err(_) => OpResult::NoMemory,
        Ok(Value::Nil) => fails_on(heap, "concatenate", first_without_text(a, b), lines, steps),
        Ok(function) => called(heap, function, a, b, false),
    }
}

/// Whether a value counts as a text where one is wanted.
fn is_text(value: &Value) -> bool
    ensures { result ≡ is_some (as_text value.now) }
{
    matches!(value, Value::Text(_) | Value::Int(_))
}

/// Of two values that are not both texts, the first that isn't.
fn first_without_text<'a>(a: &'a Value, b: &'a Value) -> &'a Value
    ensures { result.now ≡ first_without as_text a.now b.now }
{
    if is_text(a) { b } else { a }
}

/// Adds the text that a value counts as, and tells whether it does.
fn append(whole: &mut Vec<u8>, value: &Value) -> Result<bool, AllocError>
    ensures { IfOk result (λ there. IsAppended (as_text value.now) whole.old.items there whole.new.items) }
{
    match value {
        Value::Text(text) => whole.extend_from_slice(text.as_slice())?,
        Value::Int(number) => {
            let mut buffer = Buffer::new();
            whole.extend_from_slice(buffer.format(*number).as_bytes())?;
        }
        _ => return Ok(false),
    }
    Ok(true)
}

/// Two values as one text, where both count as texts.
fn joined(alloc: Global, a: &Value, b: &Value) -> Result<Option<Vec<u8>>, AllocError>
    ensures { IfOk result (λ text. option_map (λ t. t.items) text ≡ joined_texts (two_texts (as_text a.now) (as_text b.now))) }
{
    let mut whole = Vec::new(alloc);
    if !append(&mut whole, a)? {
        return Ok(None);
    }
    if !append(&mut whole, b)? {
        return Ok(None);
    }
    Ok(Some(whole))
}

/// So many instructions.
#[tactic(auto, using(crate::proofs::Ticking::ticks_stop, crate::proofs::Ticking::ticks_go))]
fn tick_all(heap: &mut Heap, count: usize) -> Result<(), Stop>
    ensures ok { OnOk result ((k : Op) → op_ticks count k heap.old ≡ k heap.new) }
    ensures stops { IfErr result (λ stop. (k : Op) → op_ticks count k heap.old ≡ (Stopped stop, heap.new)) }
    ensures others { heap.new ≡ with_budget heap.old heap.new.used }
{
    let mut left = count;
    while left > 0 {
        heap.budget().tick()?;
        left -= 1;
    }
    Ok(())
}

/// A joined text: its memory, then an instruction for each 64 bytes of it.
fn join<L: Ledger>(heap: &mut Heap, text: &[u8], steps: &mut Steps<L>) -> OpResult
    ensures answer { IsOpAnswer (concat_text text.now) heap.old result heap.new }
    ensures own { IsOwnAnswer (ids_of heap.new) result }
    ensures others { heap.new ≡ with_budget heap.old heap.new.used }
    ensures steps { steps.new ≤ steps.old + 1 }
{
    match heap.new_text(text, steps) {
        Err(fault) => refused(fault),
        Ok(value) => match tick_all(heap, text.len() / 64) {
            Ok(()) => OpResult::Done(value),
            Err(stop) => OpResult::Stop(stop),
        },
    }
}

/// The text of a value, without its metamethods: a text is itself, a number its digits.
pub fn to_text<L: Ledger>(heap: &mut Heap, value: &Value, steps: &mut Steps<L>) -> OpResult
    requires { IsOf (ids_of heap.old) value.now }
    ensures answer { IsOpAnswer (to_text value.now) heap.old result heap.new }
    ensures own { IsOwnAnswer (ids_of heap.new) result }
    ensures others { heap.new ≡ with_budget heap.old heap.new.used }
    ensures steps { steps.new ≤ steps.old + 1 }
{
    if let Value::Text(text) = value {
        return match text.clone() {
            Err(_) => OpResult::NoMemory,
            Ok(text) => OpResult::Done(Value::Text(text)),
        };
    }
    let Ok(text) = text_of(heap.alloc(), value) else {
        return OpResult::NoMemory;
    };
    match heap.new_text(text.as_slice(), steps) {
        Ok(value) => OpResult::Done(value),
        Err(fault) => refused(fault),
    }
}

/// The text of a value.
fn text_of(alloc: Global, value: &Value) -> Result<Vec<u8>, AllocError>
    ensures { IfOk result (λ text. text.items ≡ plain_text value.now) }
{
    match value {
        Value::Nil => Vec::from_slice(alloc, b"nil"),
        Value::Bool(true) => Vec::from_slice(alloc, b"true"),
        Value::Bool(false) => Vec::from_slice(alloc, b"false"),
        Value::Int(number) => numbered(alloc, "", *number as i128),
        Value::Text(text) => Vec::from_slice(alloc, text.as_slice()),
        Value::Table(id) => numbered(alloc, "table: ", id.number() as i128),
        Value::Closure(id) => numbered(alloc, "function: ", id.number() as i128 + 1),
        Value::Builtin(builtin) => named(alloc, *builtin),
        Value::Iter(id) => numbered(alloc, "function: iter ", id.number() as i128 + 1),
        Value::Thread(id) => numbered(alloc, "thread: ", id.number() as i128),
    }
}

/// A number behind the kind of what it counts.
fn numbered(alloc: Global, kind: &str, number: i128) -> Result<Vec<u8>, AllocError>
    ensures { IfOk result (λ text. text.items ≡ kind.now ++ signed_decimal number) }
{
    let mut buffer = Buffer::new();
    let mut text = Vec::from_slice(alloc, kind.as_bytes())?;
    text.extend_from_slice(buffer.format(number).as_bytes())?;
    Ok(text)
}

/// The text of a built-in.
fn named(alloc: Global, builtin: Builtin) -> Result<Vec<u8>, AllocError>
    ensures { IfOk result (λ text. text.items ≡ codes "function: " ++ name_of builtin) }
{
    let mut text = Vec::from_slice(alloc, b"function: ")?;
    text.extend_from_slice(builtin.name().as_bytes())?;
    Ok(text)
}
