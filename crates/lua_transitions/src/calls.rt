//! What calls and built-ins that wait make of values that they are given.

ghost use Rattle.std.specs.Prelude.{◌≡◌, IfOk, slice_get};
ghost use Rattle.lua_steps.specs.Given as table;
ghost use Rattle.lua_steps.specs.Parts.{list_at};

use crate::parts;
use lua_ast::{Chunk, NodeId};
use lua_coroutines::{CalleeFrame, Frame, NativeFrame};
use lua_meaning::{LuaText, Value};
use lua_steps::{Given, Mode};
use lua_values::ValueList;
use std::alloc::Global;
use zc_io::NoMemory;

/// A call: the next argument, or the call.
pub fn argument_given(
    chunk: &Chunk,
    node: NodeId,
    next: usize,
    function: Value,
    mut values: ValueList,
    given: ValueList,
) -> Result<Given, NoMemory>
    ensures { IfOk result (λ g. g ≡ table.argument_next node next function values given (slice_get (list_at chunk.now.nodes node) next)) }
{
    match parts::part_at(chunk, node, next) {
        None => {
            values.append(given)?;
            Ok(Given::Goes(Mode::Apply {
                node,
                function,
                args: values,
            }))
        }
        Some(part) => {
            values.push(given.into_first())?;
            Ok(Given::Enters(
                Frame::Args {
                    node,
                    next: next + 1,
                    function,
                    values,
                },
                Mode::Begin(part),
            ))
        }
    }
}

/// The first argument of a call, behind those that are there.
fn argument_first(
    alloc: Global,
    chunk: &Chunk,
    node: NodeId,
    function: Value,
    values: ValueList,
) -> Given
    ensures { result ≡ table.argument_first node function values (slice_get (list_at chunk.now.nodes node) 0) }
{
    match parts::part_at(chunk, node, 0) {
        None => Given::Enters(
            Frame::Args {
                node,
                next: 0,
                function,
                values,
            },
            Mode::Give(ValueList::new(alloc)),
        ),
        Some(part) => Given::Enters(
            Frame::Args {
                node,
                next: 1,
                function,
                values,
            },
            Mode::Begin(part),
        ),
    }
}

/// What is to be called.
pub fn callee_given(
    alloc: Global,
    chunk: &Chunk,
    frame: CalleeFrame,
    given: ValueList,
) -> Result<Given, NoMemory>
    ensures { IfOk result (λ g. g ≡ table.callee_given chunk.now.nodes frame given) }
{
    match frame {
        CalleeFrame::Function { node } => Ok(argument_first(
            alloc,
            chunk,
            node,
            given.into_first(),
            ValueList::new(alloc),
        )),
        CalleeFrame::Receiver { node } => {
            let receiver = given.into_first();
            let object = receiver.clone()?;
            let key = Value::Text(LuaText::from_slice(alloc, parts::name(chunk, node))?);
            Ok(Given::Enters(
                Frame::Callee(CalleeFrame::Method { node, receiver }),
                Mode::Look { node, object, key },
            ))
        }
        CalleeFrame::Method { node, receiver } => Ok(argument_first(
            alloc,
            chunk,
            node,
            given.into_first(),
            ValueList::of_one(alloc, receiver),
        )),
    }
}

/// A built-in that waits.
pub fn native_given(frame: NativeFrame, given: ValueList) -> Given
    ensures { result ≡ table.native_given frame given }
{
    match frame {
        NativeFrame::Waits {
            after,
            lines,
            caller,
        } => Given::Returns(
            caller,
            Mode::Made {
                after,
                lines,
                values: given,
            },
        ),
        NativeFrame::Yields { lines, caller } => Given::Returns(
            caller,
            Mode::Results {
                lines,
                values: given,
            },
        ),
        NativeFrame::Resumes { .. } => Given::Goes(Mode::Give(given)),
    }
}
