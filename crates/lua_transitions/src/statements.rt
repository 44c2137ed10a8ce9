//! What blocks, bodies, `local`, `return` and `if` make of values that they are given.

ghost use Rattle.std.specs.Prelude.{◌≡◌, ◌<◌, ◌+◌, ◌^◌, IfOk, slice_get};
ghost use Rattle.lua_steps.specs.Given as table;
ghost use Rattle.lua_steps.specs.Parts.{blocks_at, list_at, tests_at, otherwise_at};
ghost use Rattle.lua_steps.specs.Starts.{otherwise_or_none};

use crate::operands::is_true;
use crate::parts;
use lua_ast::{Chunk, NodeId};
use lua_coroutines::{BodyFrame, Frame};
use lua_steps::{Given, Mode};
use lua_values::ValueList;
use std::alloc::Global;
use zc_io::NoMemory;

/// A block, or the body of a function. What a statement gives is not looked at.
pub fn body_given(alloc: Global, chunk: &Chunk, frame: BodyFrame, _values: ValueList) -> Given
    ensures { result ≡ table.body_given chunk.now.nodes frame _values }
{
    match frame {
        BodyFrame::Statements { block, next, outer } => match parts::part_at(chunk, block, next) {
            None => Given::Cuts(outer, Mode::Give(ValueList::new(alloc))),
            Some(part) => Given::Enters(
                Frame::Body(BodyFrame::Statements {
                    block,
                    next: next + 1,
                    outer,
                }),
                Mode::Begin(part),
            ),
        },
        BodyFrame::Open { block, next, outer } => match parts::part_at(chunk, block, next) {
            None => Given::Goes(Mode::Give(ValueList::new(alloc))),
            Some(part) => Given::Enters(
                Frame::Body(BodyFrame::Open {
                    block,
                    next: next + 1,
                    outer,
                }),
                Mode::Begin(part),
            ),
        },
        BodyFrame::Caller { call } => Given::Returns(call, Mode::Give(ValueList::new(alloc))),
    }
}

/// `local`: the next expression, or the names.
pub fn local_given(
    chunk: &Chunk,
    node: NodeId,
    next: usize,
    mut values: ValueList,
    given: ValueList,
) -> Result<Given, NoMemory>
    ensures { IfOk result (λ g. g ≡ table.local_next node next values given (slice_get (list_at chunk.now.nodes node) next)) }
{
    match parts::part_at(chunk, node, next) {
        None => {
            values.append(given)?;
            Ok(Given::Goes(Mode::Declare { node, values }))
        }
        Some(part) => {
            values.push(given.into_first())?;
            Ok(Given::Enters(
                Frame::Locals {
                    node,
                    next: next + 1,
                    values,
                },
                Mode::Begin(part),
            ))
        }
    }
}

/// `return`: the next expression, or the return.
pub fn result_given(
    chunk: &Chunk,
    node: NodeId,
    next: usize,
    mut values: ValueList,
    given: ValueList,
) -> Result<Given, NoMemory>
    ensures { IfOk result (λ g. g ≡ table.result_next node next values given (slice_get (list_at chunk.now.nodes node) next)) }
{
    match parts::part_at(chunk, node, next) {
        None => {
            values.append(given)?;
            Ok(Given::Goes(Mode::Return { node, values }))
        }
        Some(part) => {
            values.push(given.into_first())?;
            Ok(Given::Enters(
                Frame::Return {
                    node,
                    next: next + 1,
                    values,
                },
                Mode::Begin(part),
            ))
        }
    }
}

/// The `else` of an `if`, or nothing.
fn otherwise_or_none(alloc: Global, otherwise: Option<NodeId>) -> Mode
    ensures { result ≡ otherwise_or_none otherwise }
{
    match otherwise {
        None => Mode::Give(ValueList::new(alloc)),
        Some(block) => Mode::Begin(block),
    }
}

/// The next test of an `if`, or its `else`.
fn test_next(alloc: Global, chunk: &Chunk, node: NodeId, place: usize) -> Given
    requires { place + 1 < 2 ^ 64 }
    ensures { result ≡ table.test_next node place (otherwise_at chunk.now.nodes node) (slice_get (tests_at chunk.now.nodes node) (place + 1)) (slice_get (blocks_at chunk.now.nodes node) (place + 1)) }
{
    let test = parts::test_of_case(chunk, node, place + 1);
    let block = parts::block_of_case(chunk, node, place + 1);
    match (test, block) {
        (Some(test), Some(_)) => Given::Enters(
            Frame::If {
                node,
                test: place + 1,
            },
            Mode::Begin(test),
        ),
        _ => Given::Goes(otherwise_or_none(alloc, parts::otherwise(chunk, node))),
    }
}

/// A test of an `if`.
pub fn if_given(alloc: Global, chunk: &Chunk, node: NodeId, place: usize, given: ValueList) -> Given
    ensures { result ≡ table.if_given chunk.now.nodes node place (slice_get (blocks_at chunk.now.nodes node) place) given }
{
    match parts::block_of_case(chunk, node, place) {
        None => Given::Goes(otherwise_or_none(alloc, parts::otherwise(chunk, node))),
        Some(block) => {
            if is_true(&given.into_first()) {
                Given::Goes(Mode::Begin(block))
            } else {
                test_next(alloc, chunk, node, place)
            }
        }
    }
}
