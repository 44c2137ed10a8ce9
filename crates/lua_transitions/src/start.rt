//! How the nodes begin that make nothing: with a frame, or none.

ghost use Rattle.std.specs.Prelude.{◌≡◌};
ghost use Rattle.lua_steps.specs.Starts.{operand_start, list_start, plain_start, first_or_none, after_first};

use lua_ast::{Ids, Node, NodeId};
use lua_coroutines::{CalleeFrame, CountFrame, EachFrame, Frame, OperandFrame, Targets};
use lua_steps::Mode;
use lua_values::ValueList;
use std::alloc::Global;

/// The frame of a node that begins with an operand, and the operand.
pub fn operand_start(id: NodeId, node: &Node) -> Option<(Frame, NodeId)>
    ensures { result ≡ operand_start id node.now }
{
    match node {
        Node::Index { object, .. } => {
            Some((Frame::Operand(OperandFrame::Object { node: id }), *object))
        }
        Node::Call { function, .. } => {
            Some((Frame::Callee(CalleeFrame::Function { node: id }), *function))
        }
        Node::Method { object, .. } => {
            Some((Frame::Callee(CalleeFrame::Receiver { node: id }), *object))
        }
        Node::Binary { left, .. } => {
            Some((Frame::Operand(OperandFrame::Left { node: id }), *left))
        }
        Node::Logic { left, .. } => {
            Some((Frame::Operand(OperandFrame::Logic { node: id }), *left))
        }
        Node::Unary { operand, .. } => {
            Some((Frame::Operand(OperandFrame::One { node: id }), *operand))
        }
        Node::Paren { inner } => Some((Frame::Operand(OperandFrame::Only), *inner)),
        Node::NumFor { first, .. } => {
            Some((Frame::Count(CountFrame::First { node: id }), *first))
        }
        _ => None,
    }
}

/// The place behind the first of a list of parts, and that part, or no value where there is none.
fn first_of(alloc: Global, parts: &Ids) -> (usize, Mode)
    ensures place { result.0 ≡ after_first parts.now }
    ensures mode { result.1 ≡ first_or_none parts.now }
{
    match parts.as_slice().first() {
        None => (0, Mode::Give(ValueList::new(alloc))),
        Some(part) => (1, Mode::Begin(*part)),
    }
}

/// The frame of a node with a list of parts, and what it begins with.
pub fn list_start(alloc: Global, id: NodeId, node: &Node) -> Option<(Frame, Mode)>
    ensures { result ≡ list_start id node.now }
{
    let values = ValueList::new(alloc);
    match node {
        Node::Local { exps, .. } => {
            let (next, mode) = first_of(alloc, exps);
            Some((
                Frame::Locals {
                    node: id,
                    next,
                    values,
                },
                mode,
            ))
        }
        Node::Return { exps } => {
            let (next, mode) = first_of(alloc, exps);
            Some((
                Frame::Return {
                    node: id,
                    next,
                    values,
                },
                mode,
            ))
        }
        Node::GenFor { exps, .. } => {
            let (next, mode) = first_of(alloc, exps);
            let frame = EachFrame::Values {
                node: id,
                next,
                values,
            };
            Some((Frame::Each(frame), mode))
        }
        _ => None,
    }
}

/// What a node does that puts no frame on, where so many locals are in scope.
pub fn plain_start(alloc: Global, id: NodeId, locals: usize, node: &Node) -> Option<Mode>
    ensures { result ≡ plain_start id locals node.now }
{
    match node {
        Node::CallStat { call } => Some(Mode::Begin(*call)),
        Node::Do { block } => Some(Mode::Begin(*block)),
        Node::Break => Some(Mode::Break),
        Node::Goto { .. } => Some(Mode::Jump { goto: id }),
        Node::Label { .. } => Some(Mode::Give(ValueList::new(alloc))),
        Node::Assign { .. } => Some(Mode::Targets {
            node: id,
            next: 0,
            targets: Targets::new(alloc),
        }),
        Node::Repeat { .. } => Some(Mode::Round {
            node: id,
            outer: locals,
        }),
        _ => None,
    }
}
