//! Returns, breaks and gotos on their way through the frames (Lua 5.2 manual, 3.3.4).

ghost use Rattle.std.specs.Prelude.{◌≡◌, [], List, ℕ, true, false, IfOk};
ghost use Rattle.lua_ast.specs.declared.node.LinedNode.{LinedNode};
ghost use Rattle.lua_meaning.specs.Code.{Code};
ghost use Rattle.lua_steps.specs.declared.given.Given.TheVariants as given;
ghost use Rattle.lua_steps.specs.declared.mode.Mode.TheVariants as mode;
ghost use Rattle.lua_steps.specs.Parts.{of_part};
ghost use Rattle.lua_steps.specs.Passed as passed;
ghost use Rattle.lua_steps.specs.Machine.{left_top, broken_top, jumped_top};

use crate::declaring::take_up;
use lua_ast::{Chunk, Node, NodeId};
use lua_configuration::Configuration;
use lua_coroutines::{BodyFrame, CountFrame, EachFrame, Frame, RepeatFrame, WhileFrame};
use lua_steps::{Given, Mode};
use lua_transitions::parts;
use lua_values::ValueList;
use std::alloc::Global;
use zc_io::NoMemory;

/// A return ends the body of a function.
#[tactic(auto, using(crate::proofs::OtherFrames::return_passes))]
fn returned(values: ValueList, frame: Frame) -> Given
    ensures { result ≡ passed.returned values frame }
{
    match frame {
        Frame::Body(body) => match body {
            BodyFrame::Caller { call } => Given::Returns(call, Mode::Give(values)),
            BodyFrame::Statements { .. } => Given::Goes(Mode::Leave(values)),
            BodyFrame::Open { .. } => Given::Goes(Mode::Leave(values)),
        },
        _ => Given::Goes(Mode::Leave(values)),
    }
}

/// A return comes to the frame on top.
pub(crate) fn leave(configuration: &mut Configuration, values: ValueList) -> Result<Mode, NoMemory>
    ensures { (nodes : List LinedNode) (code : Code) → IfOk result (λ m. (m, configuration.new) ≡ left_top nodes code configuration.old.frames values configuration.old) }
{
    let Some(frame) = configuration.take_top() else {
        return Ok(Mode::Leave(values));
    };
    take_up(configuration, returned(values, frame))
}

/// The locals of a loop that ended go out of scope.
fn ended(alloc: Global, outer: usize) -> Given
    ensures { result ≡ given.Cuts outer (mode.Give []) }
{
    Given::Cuts(outer, Mode::Give(ValueList::new(alloc)))
}

/// A break ends the innermost loop.
#[tactic(auto, using(crate::proofs::OtherFrames::break_passes, crate::proofs::OtherFrames::break_passes_count))]
fn broken(alloc: Global, frame: Frame) -> Given
    ensures { result ≡ passed.broken frame }
{
    match frame {
        Frame::Body(body) => match body {
            BodyFrame::Caller { call } => Given::Returns(call, Mode::Give(ValueList::new(alloc))),
            BodyFrame::Statements { .. } => Given::Goes(Mode::Break),
            BodyFrame::Open { .. } => Given::Goes(Mode::Break),
        },
        Frame::While(turn) => match turn {
            WhileFrame::Test { outer, .. } => ended(alloc, outer),
            WhileFrame::Turn { outer, .. } => ended(alloc, outer),
        },
        Frame::Repeat(turn) => match turn {
            RepeatFrame::Turn { outer, .. } => ended(alloc, outer),
            RepeatFrame::Test { outer, .. } => ended(alloc, outer),
        },
        Frame::Count(turn) => match turn {
            CountFrame::Turn { outer, .. } => ended(alloc, outer),
            _ => Given::Goes(Mode::Break),
        },
        Frame::Each(turn) => match turn {
            EachFrame::Next { outer, .. } => ended(alloc, outer),
            EachFrame::Turn { outer, .. } => ended(alloc, outer),
            EachFrame::Values { .. } => Given::Goes(Mode::Break),
        },
        _ => Given::Goes(Mode::Break),
    }
}

/// A break comes to the frame on top.
pub(crate) fn break_out(configuration: &mut Configuration) -> Result<Mode, NoMemory>
    ensures { (nodes : List LinedNode) (code : Code) → IfOk result (λ m. (m, configuration.new) ≡ broken_top nodes code configuration.old.frames configuration.old) }
{
    let Some(frame) = configuration.take_top() else {
        return Ok(Mode::Break);
    };
    let given = broken(configuration.alloc(), frame);
    take_up(configuration, given)
}

/// Whether a statement is the label of this name.
fn is_label(chunk: &Chunk, statement: NodeId, name: &[u8]) -> bool
    ensures { result ≡ of_part chunk.now.nodes false (passed.is_label_of name.now) statement }
{
    match parts::node_at(chunk, statement) {
        Some(Node::Label { label }) => label.as_slice() == name,
        _ => false,
    }
}

/// How many locals a statement leaves in scope behind it.
fn locals_left(chunk: &Chunk, statement: NodeId) -> usize
    ensures { result ≡ of_part chunk.now.nodes 0 passed.locals_left statement }
{
    match parts::node_at(chunk, statement) {
        Some(Node::Local { names, .. }) => names.len(),
        Some(Node::LocalFunction { .. }) => 1,
        _ => 0,
    }
}

/// The place of a goto's label in a block, and how many locals are declared before it. There is no
/// memory for 2^64 locals.
#[tactic(auto, using(crate::proofs::Labels::label_there, crate::proofs::Labels::label_further, crate::proofs::Labels::no_label))]
fn label_in(chunk: &Chunk, block: NodeId, goto: NodeId) -> Result<Option<(usize, usize)>, NoMemory>
    ensures { IfOk result (λ found. found ≡ passed.label_in chunk.now.nodes block goto) }
{
    let name = parts::name(chunk, goto);
    let mut place = 0;
    let mut locals: usize = 0;
    while let Some(statement) = parts::part_at(chunk, block, place) {
        if is_label(chunk, statement, name) {
            return Ok(Some((place, locals)));
        }
        let Some(more) = locals.checked_add(locals_left(chunk, statement)) else {
            return Err(NoMemory);
        };
        locals = more;
        place += 1;
    }
    Ok(None)
}

/// A goto comes to a block, where `is_open` that of a `repeat`: it goes on at its label there, if
/// the block has it.
fn landed(
    chunk: &Chunk,
    block: NodeId,
    outer: usize,
    goto: NodeId,
    is_open: bool,
) -> Result<Given, NoMemory>
    ensures closed { is_open ≡ false → IfOk result (λ g. g ≡ passed.landed_in chunk.now.nodes block outer goto (passed.label_in chunk.now.nodes block goto)) }
    ensures open { is_open ≡ true → IfOk result (λ g. g ≡ passed.landed_open chunk.now.nodes block outer goto (passed.label_in chunk.now.nodes block goto)) }
{
    let Some((next, locals)) = label_in(chunk, block, goto)? else {
        return Ok(Given::Goes(Mode::Jump { goto }));
    };
    let Some(count) = outer.checked_add(locals) else {
        return Err(NoMemory);
    };
    if is_open {
        let body = BodyFrame::Open { block, next, outer };
        return Ok(Given::Lands(count, Frame::Body(body)));
    }
    let body = BodyFrame::Statements { block, next, outer };
    Ok(Given::Lands(count, Frame::Body(body)))
}

/// A goto goes on at its label, in the innermost block that has it.
#[tactic(auto, using(crate::proofs::OtherFrames::jump_passes))]
fn jumped(alloc: Global, chunk: &Chunk, goto: NodeId, frame: Frame) -> Result<Given, NoMemory>
    ensures { IfOk result (λ g. g ≡ passed.jumped chunk.now.nodes goto frame) }
{
    match frame {
        Frame::Body(body) => match body {
            BodyFrame::Statements { block, outer, .. } => landed(chunk, block, outer, goto, false),
            BodyFrame::Open { block, outer, .. } => landed(chunk, block, outer, goto, true),
            BodyFrame::Caller { call } => {
                Ok(Given::Returns(call, Mode::Give(ValueList::new(alloc))))
            }
        },
        _ => Ok(Given::Goes(Mode::Jump { goto })),
    }
}

/// A goto comes to the frame on top.
pub(crate) fn jump(
    configuration: &mut Configuration,
    chunk: &Chunk,
    goto: NodeId,
) -> Result<Mode, NoMemory>
    ensures { (code : Code) → IfOk result (λ m. (m, configuration.new) ≡ jumped_top chunk.now.nodes code goto configuration.old.frames configuration.old) }
{
    let Some(frame) = configuration.take_top() else {
        return Ok(Mode::Jump { goto });
    };
    let given = jumped(configuration.alloc(), chunk, goto, frame)?;
    take_up(configuration, given)
}
