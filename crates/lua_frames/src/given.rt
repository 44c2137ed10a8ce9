//! The frame on top goes on with values that it is given.

ghost use Rattle.std.specs.Prelude.{◌≡◌, IfOk};
ghost use Rattle.lua_code.specs.CodeOf.{code_of};
ghost use Rattle.lua_coroutines.specs.declared.frame.AssignFrame.TheVariants as assign;
ghost use Rattle.lua_steps.specs.Given as table;
ghost use Rattle.lua_steps.specs.Machine.{given_top};

use crate::declaring::take_up;
use lua_ast::NodeId;
use lua_code::first_variable;
use lua_configuration::Configuration;
use lua_coroutines::{AssignFrame, Frame, Targets};
use lua_meaning::Target;
use lua_scope::Parsed;
use lua_steps::{Given, Mode};
use lua_transitions::{
    argument_given, body_given, callee_given, count_given, each_given, if_given, local_given,
    native_given, operand_given, parts, repeat_given, result_given, table_given, value_given,
    while_given,
};
use lua_values::ValueList;
use zc_io::NoMemory;

/// `local function`: the function is stored in its local.
fn function_given(
    configuration: &Configuration,
    parsed: &Parsed,
    node: NodeId,
    values: ValueList,
) -> Result<Given, NoMemory>
    ensures { IfOk result (λ g. g ≡ table.assign_given parsed.now.chunk.nodes (code_of parsed.now.chunk) configuration.now.call.locals (assign.Function node) values) }
{
    let alloc = configuration.alloc();
    let mut targets = Targets::new(alloc);
    targets.push(configuration.local_target(first_variable(parsed, node)))?;
    let values = ValueList::of_one(alloc, values.into_first());
    Ok(Given::Goes(Mode::Stores {
        node,
        targets,
        values,
    }))
}

/// An assignment (Lua 5.2 manual, 3.3.3).
fn assign_given(
    configuration: &Configuration,
    parsed: &Parsed,
    frame: AssignFrame,
    values: ValueList,
) -> Result<Given, NoMemory>
    ensures { IfOk result (λ g. g ≡ table.assign_given parsed.now.chunk.nodes (code_of parsed.now.chunk) configuration.now.call.locals frame values) }
{
    match frame {
        AssignFrame::Object {
            node,
            next,
            index,
            targets,
        } => Ok(Given::Enters(
            Frame::Assign(AssignFrame::Key {
                node,
                next,
                targets,
                object: values.into_first(),
            }),
            Mode::Begin(parts::key(parsed.chunk(), index)),
        )),
        AssignFrame::Key {
            node,
            next,
            mut targets,
            object,
        } => {
            targets.push(Target::Entry {
                object,
                key: values.into_first(),
            })?;
            Ok(Given::Goes(Mode::Targets {
                node,
                next,
                targets,
            }))
        }
        AssignFrame::Values {
            node,
            next,
            targets,
            values: before,
        } => value_given(parsed.chunk(), node, next, targets, before, values),
        AssignFrame::Stores {
            node,
            targets,
            values,
        } => Ok(Given::Goes(Mode::Stores {
            node,
            targets,
            values,
        })),
        AssignFrame::Function { node } => function_given(configuration, parsed, node, values),
    }
}

/// What a frame makes of values that it is given.
fn frame_given(
    configuration: &Configuration,
    parsed: &Parsed,
    frame: Frame,
    values: ValueList,
) -> Result<Given, NoMemory>
    ensures { IfOk result (λ g. g ≡ table.frame_given parsed.now.chunk.nodes (code_of parsed.now.chunk) configuration.now.call.locals frame values) }
{
    let alloc = configuration.alloc();
    let chunk = parsed.chunk();
    match frame {
        Frame::Body(body) => Ok(body_given(alloc, chunk, body, values)),
        Frame::Locals {
            node,
            next,
            values: before,
        } => local_given(chunk, node, next, before, values),
        Frame::Assign(assign) => assign_given(configuration, parsed, assign, values),
        Frame::Callee(callee) => callee_given(alloc, chunk, callee, values),
        Frame::Args {
            node,
            next,
            function,
            values: before,
        } => argument_given(chunk, node, next, function, before, values),
        Frame::If { node, test } => Ok(if_given(alloc, chunk, node, test, values)),
        Frame::While(turn) => Ok(while_given(alloc, chunk, turn, values)),
        Frame::Repeat(turn) => Ok(repeat_given(alloc, chunk, turn, values)),
        Frame::Count(turn) => Ok(count_given(alloc, chunk, turn, values)),
        Frame::Each(turn) => each_given(chunk, configuration.local_count(), turn, values),
        Frame::Table(field) => Ok(table_given(field, values)),
        Frame::Operand(operand) => Ok(operand_given(alloc, chunk, operand, values)),
        Frame::Return {
            node,
            next,
            values: before,
        } => result_given(chunk, node, next, before, values),
        Frame::Native(native) => Ok(native_given(native, values)),
    }
}

/// Hands values to the frame on top.
pub(crate) fn give(
    configuration: &mut Configuration,
    parsed: &Parsed,
    values: ValueList,
) -> Result<Mode, NoMemory>
    ensures { IfOk result (λ m. (m, configuration.new) ≡ given_top parsed.now.chunk.nodes (code_of parsed.now.chunk) configuration.old.frames values configuration.old) }
{
    let Some(frame) = configuration.take_top() else {
        return Ok(Mode::Give(values));
    };
    let given = frame_given(configuration, parsed, frame, values)?;
    take_up(configuration, given)
}
