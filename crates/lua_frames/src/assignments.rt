//! Assignments (Lua 5.2 manual, 3.3.3).

ghost use Rattle.std.specs.Prelude.{◌≡◌, ◌<◌, ◌+◌, ◌^◌, ◌∷◌, ℕ, List, Some, All, IfOk, slice_get};
ghost use Rattle.lua_ast.specs.declared.node.LinedNode.{LinedNode};
ghost use Rattle.lua_meaning.specs.Code.{Code};
ghost use Rattle.lua_ast.specs.declared.node.Node.TheVariants as ast;
ghost use Rattle.lua_ast.specs.Decode.{node_at};
ghost use Rattle.lua_values.specs.Ids.{ids_of, IsOf};
ghost use Rattle.lua_code.specs.CodeOf.{code_of};
ghost use Rattle.lua_steps.specs.Own.{IsOwnTarget};
ghost use Rattle.lua_steps.specs.Parts.{list_at, targets_at};
ghost use Rattle.lua_steps.specs.Machine.{storing, values_begun, target_begun, target_next};

use lua_ast::{Chunk, Node, NodeId};
use lua_code::variable;
use lua_configuration::Configuration;
use lua_coroutines::{AssignFrame, Frame, Targets};
use lua_meaning::Target;
use lua_scope::Parsed;
use lua_steps::Mode;
use lua_transitions::parts;
use lua_values::{Value, ValueList};
use std::sync::ledger::Ledger;
use zc_budget::Steps;
use zc_io::NoMemory;

/// The first value of an assignment.
fn begin_values(
    configuration: &mut Configuration,
    chunk: &Chunk,
    node: NodeId,
    targets: Targets,
) -> Result<Mode, NoMemory>
    ensures { IfOk result (λ m. (m, configuration.new) ≡ values_begun chunk.now.nodes node targets (slice_get (list_at chunk.now.nodes node) 0) configuration.old) }
{
    let alloc = configuration.alloc();
    let values = ValueList::new(alloc);
    let first = parts::part_at(chunk, node, 0);
    let next = if first.is_some() { 1 } else { 0 };
    configuration.enter(Frame::Assign(AssignFrame::Values {
        node,
        next,
        targets,
        values,
    }))?;
    match first {
        None => Ok(Mode::Give(ValueList::new(alloc))),
        Some(part) => Ok(Mode::Begin(part)),
    }
}

/// A target that is a name.
fn begin_name_target(
    configuration: &mut Configuration,
    parsed: &Parsed,
    node: NodeId,
    next: usize,
    target: NodeId,
    name: &[u8],
    mut targets: Targets,
) -> Result<Mode, NoMemory>
    requires { next + 1 < 2 ^ 64 }
    ensures { IfOk result (λ m. (m, configuration.new) ≡ target_begun parsed.now.chunk.nodes (code_of parsed.now.chunk) node next target targets (Some (ast.Name name.now)) configuration.old) }
{
    if let Err(stop) = configuration.tick() {
        return Ok(Mode::Stopped(stop));
    }
    targets.push(configuration.name_target(variable(parsed, target), name)?)?;
    Ok(Mode::Targets {
        node,
        next: next + 1,
        targets,
    })
}

/// A target that is an index: its object.
fn begin_index_target(
    configuration: &mut Configuration,
    node: NodeId,
    next: usize,
    index: NodeId,
    object: NodeId,
    targets: Targets,
) -> Result<Mode, NoMemory>
    requires { next + 1 < 2 ^ 64 }
    ensures { (nodes : List LinedNode) → (code : Code) → (key : ℕ) → IfOk result (λ m. (m, configuration.new) ≡ target_begun nodes code node next index targets (Some (ast.Index object key)) configuration.old) }
{
    if let Err(stop) = configuration.tick() {
        return Ok(Mode::Stopped(stop));
    }
    configuration.enter(Frame::Assign(AssignFrame::Object {
        node,
        next: next + 1,
        index,
        targets,
    }))?;
    Ok(Mode::Begin(object))
}

/// A target of an assignment.
fn begin_target(
    configuration: &mut Configuration,
    parsed: &Parsed,
    node: NodeId,
    next: usize,
    target: NodeId,
    mut targets: Targets,
) -> Result<Mode, NoMemory>
    requires { next + 1 < 2 ^ 64 }
    ensures { IfOk result (λ m. (m, configuration.new) ≡ target_begun parsed.now.chunk.nodes (code_of parsed.now.chunk) node next target targets (node_at parsed.now.chunk.nodes target) configuration.old) }
{
    match parts::node_at(parsed.chunk(), target) {
        Some(Node::Name { text }) => begin_name_target(
            configuration,
            parsed,
            node,
            next,
            target,
            text.as_slice(),
            targets,
        ),
        Some(Node::Index { object, .. }) => {
            begin_index_target(configuration, node, next, target, *object, targets)
        }
        _ => {
            targets.push(Target::Nowhere)?;
            Ok(Mode::Targets {
                node,
                next: next + 1,
                targets,
            })
        }
    }
}

/// The next target of an assignment, or its values, where no target is left.
pub(crate) fn next_target(
    configuration: &mut Configuration,
    parsed: &Parsed,
    node: NodeId,
    next: usize,
    targets: Targets,
) -> Result<Mode, NoMemory>
    ensures { IfOk result (λ m. (m, configuration.new) ≡ target_next parsed.now.chunk.nodes (code_of parsed.now.chunk) node next targets (slice_get (targets_at parsed.now.chunk.nodes node) next) configuration.old) }
{
    match parts::target_at(parsed.chunk(), node, next) {
        None => begin_values(configuration, parsed.chunk(), node, targets),
        Some(target) => begin_target(configuration, parsed, node, next, target, targets),
    }
}

/// Stores the first value to a target.
fn store_in<L: Ledger>(
    configuration: &mut Configuration,
    chunk: &Chunk,
    node: NodeId,
    target: Target,
    targets: Targets,
    mut values: ValueList,
    steps: &mut Steps<L>,
) -> Result<Mode, NoMemory>
    requires target { IsOwnTarget (ids_of configuration.old.heap) target }
    requires values { All (IsOf (ids_of configuration.old.heap)) values }
    ensures { IfOk result (λ m. (m, configuration.new) ≡ storing chunk.now.nodes node (target ∷ targets) values configuration.old) }
{
    let value = values.take_first();
    match target {
        Target::Local(variable) => configuration.hold(variable, value),
        Target::Cell(cell) => configuration.set_cell(cell, value, steps),
        Target::Nowhere => {}
        Target::Global(name) => {
            let globals = configuration.heap().globals();
            let line = parts::line_number(chunk, node);
            let mode = Mode::Stores {
                node,
                targets,
                values,
            };
            return configuration.put(line, globals, Value::Text(name), value, mode, steps);
        }
        Target::Entry { object, key } => {
            configuration.enter(Frame::Assign(AssignFrame::Stores {
                node,
                targets,
                values,
            }))?;
            return Ok(Mode::Put {
                node,
                object,
                key,
                value,
            });
        }
    }
    Ok(Mode::Stores {
        node,
        targets,
        values,
    })
}

/// Stores the first value to the first target; without targets the assignment has ended.
pub(crate) fn store<L: Ledger>(
    configuration: &mut Configuration,
    chunk: &Chunk,
    node: NodeId,
    mut targets: Targets,
    values: ValueList,
    steps: &mut Steps<L>,
) -> Result<Mode, NoMemory>
    requires targets { All (IsOwnTarget (ids_of configuration.old.heap)) targets }
    requires values { All (IsOf (ids_of configuration.old.heap)) values }
    ensures { IfOk result (λ m. (m, configuration.new) ≡ storing chunk.now.nodes node targets values configuration.old) }
{
    match targets.take_first() {
        None => Ok(Mode::Give(ValueList::new(configuration.alloc()))),
        Some(target) => store_in(configuration, chunk, node, target, targets, values, steps),
    }
}
