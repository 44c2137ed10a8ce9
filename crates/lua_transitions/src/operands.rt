//! What operators, indexes, assignments and table constructors make of values that they are given.

ghost use Rattle.std.specs.Prelude.{◌≡◌, IfOk, slice_get};
ghost use Rattle.lua_meaning.specs.Operators.{negated_if, told};
ghost use Rattle.lua_meaning.specs.Values.{truth};
ghost use Rattle.lua_steps.specs.Frames.{told_of};
ghost use Rattle.lua_steps.specs.Given as table;
ghost use Rattle.lua_steps.specs.Parts.{list_at};

use crate::parts;
use lua_ast::{BinOp, Chunk, LogicOp, NodeId};
use lua_coroutines::{AssignFrame, Frame, OperandFrame, TableFrame, Targets};
use lua_meaning::Value;
use lua_steps::{Given, Mode};
use lua_values::ValueList;
use std::alloc::Global;
use zc_io::NoMemory;

/// Whether a value counts as true: all but nil and false do (Lua 5.2 manual, 3.3.4).
pub fn is_true(value: &Value) -> bool
    ensures { result ≡ truth value.now }
{
    match value {
        Value::Nil => false,
        Value::Bool(is_true) => *is_true,
        _ => true,
    }
}

/// What a node makes of an operator's answer: of a comparison it is true or false.
pub fn told(op: BinOp, value: Value) -> Value
    ensures { result ≡ told op value }
{
    match op {
        BinOp::Eq | BinOp::Less | BinOp::LessEq | BinOp::Greater | BinOp::GreaterEq => {
            Value::Bool(is_true(&value))
        }
        BinOp::Ne => Value::Bool(!is_true(&value)),
        _ => value,
    }
}

/// What a node makes of what its metamethod gave.
pub fn told_of(op: Option<BinOp>, negated: bool, value: Value) -> Value
    ensures { result ≡ told_of op (negated_if negated value) }
{
    let value = if negated {
        Value::Bool(!is_true(&value))
    } else {
        value
    };
    match op {
        None => value,
        Some(op) => told(op, value),
    }
}

/// The left operand of `and` or `or`.
fn logic_given(alloc: Global, op: LogicOp, node: NodeId, right: NodeId, value: Value) -> Given
    ensures { result ≡ table.logic_given op (truth value) node right value }
{
    let goes_on = match op {
        LogicOp::And => is_true(&value),
        LogicOp::Or => !is_true(&value),
    };
    if goes_on {
        Given::Enters(Frame::Operand(OperandFrame::Only), Mode::Begin(right))
    } else {
        Given::Goes(Mode::Give(ValueList::of_one(alloc, value)))
    }
}

/// An operand, or what an operator's metamethod gave.
pub fn operand_given(alloc: Global, chunk: &Chunk, frame: OperandFrame, given: ValueList) -> Given
    ensures { result ≡ table.operand_given chunk.now.nodes frame given }
{
    let value = given.into_first();
    match frame {
        OperandFrame::Left { node } => Given::Enters(
            Frame::Operand(OperandFrame::Right { node, left: value }),
            Mode::Begin(parts::right(chunk, node)),
        ),
        OperandFrame::Right { node, left } => Given::Goes(Mode::Binary {
            node,
            left,
            right: value,
        }),
        OperandFrame::Logic { node } => logic_given(
            alloc,
            parts::logic_op(chunk, node),
            node,
            parts::right(chunk, node),
            value,
        ),
        OperandFrame::One { node } => Given::Goes(Mode::Unary {
            node,
            operand: value,
        }),
        OperandFrame::Only => Given::Goes(Mode::Give(ValueList::of_one(alloc, value))),
        OperandFrame::Object { node } => Given::Enters(
            Frame::Operand(OperandFrame::Key {
                node,
                object: value,
            }),
            Mode::Begin(parts::key(chunk, node)),
        ),
        OperandFrame::Key { node, object } => Given::Goes(Mode::Look {
            node,
            object,
            key: value,
        }),
        OperandFrame::Metamethod { op, negated } => {
            Given::Goes(Mode::Give(ValueList::of_one(alloc, told_of(op, negated, value))))
        }
    }
}

/// An assignment: the next expression, or the stores.
pub fn value_given(
    chunk: &Chunk,
    node: NodeId,
    next: usize,
    targets: Targets,
    mut values: ValueList,
    given: ValueList,
) -> Result<Given, NoMemory>
    ensures { IfOk result (λ g. g ≡ table.value_next node next targets values given (slice_get (list_at chunk.now.nodes node) next)) }
{
    match parts::part_at(chunk, node, next) {
        None => {
            values.append(given)?;
            Ok(Given::Goes(Mode::Stores {
                node,
                targets,
                values,
            }))
        }
        Some(part) => {
            values.push(given.into_first())?;
            Ok(Given::Enters(
                Frame::Assign(AssignFrame::Values {
                    node,
                    next: next + 1,
                    targets,
                    values,
                }),
                Mode::Begin(part),
            ))
        }
    }
}

/// A key or a value of a table constructor.
pub fn table_given(frame: TableFrame, given: ValueList) -> Given
    ensures { result ≡ table.table_given frame given }
{
    match frame {
        TableFrame::Item {
            node,
            next,
            table,
            count,
        } => Given::Goes(Mode::Items {
            node,
            next,
            table,
            count,
            values: given,
        }),
        TableFrame::Key {
            node,
            next,
            table,
            count,
            value,
        } => Given::Enters(
            Frame::Table(TableFrame::Entry {
                node,
                next,
                table,
                count,
                key: given.into_first(),
            }),
            Mode::Begin(value),
        ),
        TableFrame::Entry {
            node,
            next,
            table,
            count,
            key,
        } => {
            Given::Goes(Mode::Entry {
                node,
                next,
                table,
                count,
                key,
                value: given.into_first(),
            })
        }
    }
}
