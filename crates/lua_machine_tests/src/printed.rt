//! How a run ends, printed.

use lua_machine::Outcome;
use lua_values::{Builtin, LuaText, Value};
use std::alloc::{AllocError, Global};
use zc_budget::Stop;

pub(crate) fn put(out: &mut Vec<u8>, text: &str) -> Result<(), AllocError> {
    out.extend_from_slice(text.as_bytes())?;
    Ok(())
}

/// The end of a line.
pub(crate) fn put_line(out: &mut Vec<u8>) -> Result<(), AllocError> {
    out.push(b'\n')?;
    Ok(())
}

fn put_int(alloc: Global, out: &mut Vec<u8>, number: i64) -> Result<(), AllocError> {
    let text = format!(in alloc; "{number}")?;
    put(out, text.as_str())
}

/// A word and a number.
pub(crate) fn put_number(
    alloc: Global,
    out: &mut Vec<u8>,
    word: &str,
    number: u64,
) -> Result<(), AllocError> {
    let text = format!(in alloc; "{word} {number}")?;
    put(out, text.as_str())
}

/// A text in quotes.
fn put_text(out: &mut Vec<u8>, text: &LuaText) -> Result<(), AllocError> {
    out.push(b'"')?;
    out.extend_from_slice(text.as_slice())?;
    out.push(b'"')?;
    Ok(())
}

fn put_bool(out: &mut Vec<u8>, is: bool) -> Result<(), AllocError> {
    put(out, if is { "true" } else { "false" })
}

fn put_builtin(out: &mut Vec<u8>, id: Builtin) -> Result<(), AllocError> {
    put(out, "built-in ")?;
    put(out, id.name())
}

/// A value. A table and a function are told by their numbers.
fn put_value(alloc: Global, out: &mut Vec<u8>, value: &Value) -> Result<(), AllocError> {
    match value {
        Value::Nil => put(out, "nil"),
        Value::Bool(is) => put_bool(out, *is),
        Value::Int(number) => put_int(alloc, out, *number),
        Value::Text(text) => put_text(out, text),
        Value::Table(id) => put_number(alloc, out, "table", id.number() as u64),
        Value::Closure(id) => put_number(alloc, out, "closure", id.number() as u64),
        Value::Builtin(id) => put_builtin(out, *id),
        Value::Iter(id) => put_number(alloc, out, "iterator", id.number() as u64),
        Value::Thread(id) => put_number(alloc, out, "thread", id.number() as u64),
    }
}

/// Values, each behind a blank.
fn put_values(alloc: Global, out: &mut Vec<u8>, values: &[Value]) -> Result<(), AllocError> {
    for value in values {
        put(out, " ")?;
        put_value(alloc, out, value)?;
    }
    Ok(())
}

fn put_stop(out: &mut Vec<u8>, stop: Stop) -> Result<(), AllocError> {
    match stop {
        Stop::Instructions => put(out, "stopped by instructions"),
        Stop::Memory => put(out, "stopped by memory"),
    }
}

/// An outcome.
pub(crate) fn put_outcome(
    alloc: Global,
    out: &mut Vec<u8>,
    outcome: &Outcome,
) -> Result<(), AllocError> {
    match outcome {
        Outcome::Returned(values) => {
            put(out, "returned")?;
            put_values(alloc, out, values.as_slice())
        }
        Outcome::Raised(value) => {
            put(out, "raised ")?;
            put_value(alloc, out, value)
        }
        Outcome::Stopped(stop) => put_stop(out, *stop),
        Outcome::NoMemory => put(out, "no memory"),
    }
}
