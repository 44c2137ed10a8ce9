//! What loops make of values that they are given (Lua 5.2 manual, 3.3.4 and 3.3.5).

ghost use Rattle.std.specs.Prelude.{◌≡◌, ◌+ℤ◌, IfOk, slice_get};
ghost use Rattle.lua_meaning.specs.Numbers.{fits};
ghost use Rattle.lua_steps.specs.Given as table;
ghost use Rattle.lua_steps.specs.Parts.{list_at, step_at};

use crate::operands::is_true;
use crate::parts;
use lua_ast::{Chunk, NodeId};
use lua_coroutines::{CountFrame, EachFrame, Frame, RepeatFrame, WhileFrame};
use lua_meaning::Value;
use lua_steps::{Given, Mode};
use lua_values::ValueList;
use std::alloc::Global;
use zc_io::NoMemory;

/// The test or the block of a `while`.
pub fn while_given(alloc: Global, chunk: &Chunk, frame: WhileFrame, given: ValueList) -> Given
    ensures { result ≡ table.while_given chunk.now.nodes frame given }
{
    match frame {
        WhileFrame::Test { node, outer } => {
            if is_true(&given.into_first()) {
                Given::Enters(
                    Frame::While(WhileFrame::Turn { node, outer }),
                    Mode::Begin(parts::block(chunk, node)),
                )
            } else {
                Given::Goes(Mode::Give(ValueList::new(alloc)))
            }
        }
        WhileFrame::Turn { node, outer } => Given::Goes(Mode::Turn { node, outer }),
    }
}

/// The block or the test of a `repeat`.
pub fn repeat_given(alloc: Global, chunk: &Chunk, frame: RepeatFrame, given: ValueList) -> Given
    ensures { result ≡ table.repeat_given chunk.now.nodes frame given }
{
    match frame {
        RepeatFrame::Turn {
            node,
            outer,
            before,
        } => Given::Enters(
            Frame::Repeat(RepeatFrame::Test {
                node,
                outer,
                before,
            }),
            Mode::Begin(parts::test(chunk, node)),
        ),
        RepeatFrame::Test {
            node,
            outer,
            before,
        } => {
            if is_true(&given.into_first()) {
                Given::Cuts(before, Mode::Give(ValueList::new(alloc)))
            } else {
                Given::Cuts(before, Mode::Round { node, outer })
            }
        }
    }
}

/// The step of a numeric `for`, which is 1 where there is none.
fn step_next(alloc: Global, chunk: &Chunk, node: NodeId, first: Value, limit: Value) -> Given
    ensures { result ≡ table.step_next node first limit (step_at chunk.now.nodes node) }
{
    let frame = Frame::Count(CountFrame::Step { node, first, limit });
    match parts::step(chunk, node) {
        None => Given::Enters(frame, Mode::Give(ValueList::of_one(alloc, Value::Int(1)))),
        Some(step) => Given::Enters(frame, Mode::Begin(step)),
    }
}

/// The next number of a numeric `for`, where it has 64 bits.
fn number_next(alloc: Global, node: NodeId, at: i64, limit: i64, step: i64, outer: usize) -> Mode
    ensures { result ≡ table.number_next (fits (at +ℤ step)) node (at +ℤ step) limit step outer }
{
    match at.checked_add(step) {
        None => Mode::Give(ValueList::new(alloc)),
        Some(at) => Mode::Count {
            node,
            at,
            limit,
            step,
            outer,
        },
    }
}

/// A part or the block of a numeric `for`.
pub fn count_given(alloc: Global, chunk: &Chunk, frame: CountFrame, given: ValueList) -> Given
    ensures { result ≡ table.count_given chunk.now.nodes frame given }
{
    match frame {
        CountFrame::First { node } => Given::Enters(
            Frame::Count(CountFrame::Limit {
                node,
                first: given.into_first(),
            }),
            Mode::Begin(parts::limit(chunk, node)),
        ),
        CountFrame::Limit { node, first } => step_next(
            alloc,
            chunk,
            node,
            first,
            given.into_first(),
        ),
        CountFrame::Step { node, first, limit } => Given::Goes(Mode::Start {
            node,
            first,
            limit,
            step: given.into_first(),
        }),
        CountFrame::Turn {
            node,
            at,
            limit,
            step,
            outer,
            before,
        } => { Given::Cuts(before, number_next(alloc, node, at, limit, step, outer)) }
    }
}

/// What stands behind `in`: the next expression, or the iterator function, the state and the first
/// control value.
fn each_next(
    chunk: &Chunk,
    node: NodeId,
    next: usize,
    locals: usize,
    mut values: ValueList,
    given: ValueList,
) -> Result<Given, NoMemory>
    ensures { IfOk result (λ g. g ≡ table.each_next node next locals values given (slice_get (list_at chunk.now.nodes node) next)) }
{
    match parts::part_at(chunk, node, next) {
        None => {
            values.append(given)?;
            let function = values.take_at(0);
            let state = values.take_at(1);
            let control = values.take_at(2);
            Ok(Given::Goes(Mode::Next {
                node,
                function,
                state,
                control,
                outer: locals,
            }))
        }
        Some(part) => {
            values.push(given.into_first())?;
            Ok(Given::Enters(
                Frame::Each(EachFrame::Values {
                    node,
                    next: next + 1,
                    values,
                }),
                Mode::Begin(part),
            ))
        }
    }
}

/// A part or the block of a generic `for`, where so many locals are in scope.
pub fn each_given(
    chunk: &Chunk,
    locals: usize,
    frame: EachFrame,
    given: ValueList,
) -> Result<Given, NoMemory>
    ensures { IfOk result (λ g. g ≡ table.each_given chunk.now.nodes locals frame given) }
{
    match frame {
        EachFrame::Values { node, next, values } => each_next(
            chunk, node, next, locals, values, given,
        ),
        EachFrame::Next {
            node,
            function,
            state,
            outer,
        } => {
            Ok(Given::Goes(Mode::Each {
                node,
                function,
                state,
                outer,
                values: given,
            }))
        }
        EachFrame::Turn {
            node,
            function,
            state,
            control,
            outer,
            before,
        } => {
            Ok(Given::Cuts(
                before,
                Mode::Next {
                    node,
                    function,
                    state,
                    control,
                    outer,
                },
            ))
        }
    }
}
