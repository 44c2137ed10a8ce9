//! A short printed form of what the names of a text mean.

ghost use Rattle.std.specs.Prelude.{◌<◌, length};

use lua_ast::{AstText, Node, NodeId};
use lua_scope::{Parsed, Place};
use std::alloc::{AllocError, Global};

pub(crate) fn put(out: &mut Vec<u8>, text: &str) -> Result<(), AllocError> {
    out.extend_from_slice(text.as_bytes())?;
    Ok(())
}

/// A line of text.
pub(crate) fn put_text(out: &mut Vec<u8>, text: &[u8]) -> Result<(), AllocError> {
    out.extend_from_slice(text)?;
    out.push(b'\n')?;
    Ok(())
}

fn put_number(alloc: Global, out: &mut Vec<u8>, number: u32) -> Result<(), AllocError> {
    let text = format!(in alloc; " {number}")?;
    put(out, text.as_str())
}

/// A name and its place.
fn put_name(
    alloc: Global,
    out: &mut Vec<u8>,
    name: &AstText,
    place: Place,
) -> Result<(), AllocError> {
    out.extend_from_slice(name.as_slice())?;
    match place {
        Place::Local(number) => {
            put(out, " local")?;
            put_number(alloc, out, number)
        }
        Place::Captured(number) => {
            put(out, " captured")?;
            put_number(alloc, out, number)
        }
        Place::Global => put(out, " global"),
    }
}

/// A function with its first variable and those that it captures.
fn put_function(
    alloc: Global,
    out: &mut Vec<u8>,
    first: u32,
    captured: &[u32],
) -> Result<(), AllocError> {
    put(out, "function")?;
    put_number(alloc, out, first)?;
    put(out, " captures")?;
    for number in captured {
        put_number(alloc, out, *number)?;
    }
    Ok(())
}

/// A node that declares variables, with the first of them.
fn put_first(alloc: Global, out: &mut Vec<u8>, kind: &str, first: u32) -> Result<(), AllocError> {
    put(out, kind)?;
    put_number(alloc, out, first)
}

/// What a node means that is a Name or declares variables. Other nodes are left out.
fn put_node(alloc: Global, out: &mut Vec<u8>, parsed: &Parsed, id: NodeId) -> Result<(), AllocError>
    requires { id < length parsed.now.chunk.nodes }
{
    match parsed.chunk().node(id) {
        Node::Name { text } => put_name(alloc, out, text, parsed.place(id))?,
        Node::Function { .. } => {
            put_function(alloc, out, parsed.first_variable(id), parsed.captured(id))?
        }
        Node::Local { .. } => put_first(alloc, out, "local", parsed.first_variable(id))?,
        Node::LocalFunction { .. } => put_first(
            alloc,
            out,
            "local function",
            parsed.first_variable(id),
        )?,
        Node::NumFor { .. } => put_first(alloc, out, "for", parsed.first_variable(id))?,
        Node::GenFor { .. } => put_first(alloc, out, "for in", parsed.first_variable(id))?,
        _ => return Ok(()),
    }
    put(out, "; ")
}

/// How many variables a text has, which of them are captured, and what its nodes mean, in their order: names in text
/// order, and each node that declares variables behind its parts.
pub(crate) fn put_program(
    alloc: Global,
    out: &mut Vec<u8>,
    parsed: &Parsed,
) -> Result<(), AllocError> {
    let count = parsed.chunk().len();
    for number in 0..count {
        put_node(alloc, out, parsed, NodeId::new(number as u32))?;
    }
    put(out, "variables")?;
    put_number(alloc, out, parsed.variables())?;
    put(out, ", captured")?;
    for variable in 0..parsed.variables() {
        if parsed.is_captured(variable) {
            put_number(alloc, out, variable)?;
        }
    }
    Ok(())
}
