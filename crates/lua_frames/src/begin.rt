//! How nodes begin: those that make something, or read what was made, and those that put a frame
//! on (Lua 5.2 manual, 3.3 and 3.4).

ghost use Rattle.std.specs.Prelude.{◌≡◌, ℕ, List, length, IfOk, slice_get};
ghost use Rattle.lua_ast.specs.declared.node.LinedNode.{LinedNode};
ghost use Rattle.lua_ast.specs.declared.node.Node.TheVariants as ast;
ghost use Rattle.lua_ast.specs.Decode.{node_at};
ghost use Rattle.lua_meaning.specs.Code.{Code};
ghost use Rattle.lua_meaning.specs.declared.value.Value.TheVariants as value;
ghost use Rattle.lua_values.specs.Ids.{ids_of};
ghost use Rattle.lua_code.specs.CodeOf.{code_of};
ghost use Rattle.lua_coroutines.specs.declared.frame.Frame.TheVariants as frame;
ghost use Rattle.lua_coroutines.specs.declared.frame.AssignFrame.TheVariants as assign;
ghost use Rattle.lua_steps.specs.declared.mode.Mode.TheVariants as mode;
ghost use Rattle.lua_steps.specs.Own.{IsOwnCall};
ghost use Rattle.lua_steps.specs.Configuration.{with_frame};
ghost use Rattle.lua_steps.specs.Effects.{declared};
ghost use Rattle.lua_frames.specs.NodeConstants.{constants_of};
ghost use Rattle.lua_steps.specs.Starts.{IsNode, operand_start, list_start, plain_start, otherwise_or_none};
ghost use Rattle.lua_steps.specs.Machine.{declaring, if_begun, started, node_begun, begun};

use crate::constants::Constants;
use crate::declaring::declare;
use lua_ast::{Ids, Node, NodeId};
use lua_code::{captured, first_variable, variable};
use lua_configuration::Configuration;
use lua_coroutines::{AssignFrame, BodyFrame, Frame, WhileFrame};
use lua_scope::Parsed;
use lua_steps::Mode;
use lua_transitions::{list_start, operand_start, parts, plain_start};
use lua_values::{Value, ValueList};
use std::alloc::Global;
use std::sync::ledger::Ledger;
use zc_budget::{Steps, Stop};
use zc_io::NoMemory;

/// The `else` of an `if`, or nothing.
fn otherwise_or_none(alloc: Global, otherwise: Option<NodeId>) -> Mode
    ensures { result ≡ otherwise_or_none otherwise }
{
    match otherwise {
        None => Mode::Give(ValueList::new(alloc)),
        Some(block) => Mode::Begin(block),
    }
}

/// `if`: its first test.
fn begin_if(
    configuration: &mut Configuration,
    node: NodeId,
    tests: &Ids,
    blocks: &Ids,
    otherwise: Option<NodeId>,
) -> Result<Mode, NoMemory>
    ensures { IfOk result (λ m. (m, configuration.new) ≡ if_begun node (slice_get tests.now 0) (slice_get blocks.now 0) otherwise configuration.old) }
{
    match (tests.get(0), blocks.get(0)) {
        (Some(test), Some(_)) => {
            configuration.enter(Frame::If { node, test: 0 })?;
            Ok(Mode::Begin(test))
        }
        _ => Ok(otherwise_or_none(configuration.alloc(), otherwise)),
    }
}

/// `local function`: its local is declared before the function is made.
fn begin_local_function<L: Ledger>(
    configuration: &mut Configuration,
    parsed: &Parsed,
    node: NodeId,
    function: NodeId,
    steps: &mut Steps<L>,
) -> Result<Mode, NoMemory>
    ensures { IfOk result (λ m. (m, configuration.new) ≡ declaring (declared (code_of parsed.now.chunk) ((code_of parsed.now.chunk).first_variable node) value.Nil configuration.old.heap configuration.old.call.locals)
        (λ z. (mode.Begin function, with_frame (frame.Assign (assign.Function node)) z)) configuration.old) }
{
    let variable = first_variable(parsed, node);
    if !declare(configuration, parsed, variable, Value::Nil, steps)? {
        return Ok(Mode::Stopped(Stop::Memory));
    }
    configuration.enter(Frame::Assign(AssignFrame::Function { node }))?;
    Ok(Mode::Begin(function))
}

/// A block: its statements in turn.
fn begin_block(configuration: &mut Configuration, block: NodeId) -> Result<Mode, NoMemory>
    ensures { (nodes : List LinedNode) (code : Code) (stats : List ℕ) → IfOk result (λ m. (m, configuration.new) ≡ node_begun nodes code block (ast.Block stats) configuration.old) }
{
    let outer = configuration.local_count();
    configuration.enter(Frame::Body(BodyFrame::Statements {
        block,
        next: 0,
        outer,
    }))?;
    Ok(Mode::Give(ValueList::new(configuration.alloc())))
}

/// `while`: its first turn is still to begin.
fn begin_while(configuration: &mut Configuration, node: NodeId) -> Result<Mode, NoMemory>
    ensures { (nodes : List LinedNode) (code : Code) (test block : ℕ) → IfOk result (λ m. (m, configuration.new) ≡ node_begun nodes code node (ast.While test block) configuration.old) }
{
    let outer = configuration.local_count();
    configuration.enter(Frame::While(WhileFrame::Turn { node, outer }))?;
    Ok(Mode::Give(ValueList::new(configuration.alloc())))
}

/// A node that makes nothing.
fn start(configuration: &mut Configuration, node: NodeId, what: &Node) -> Result<Mode, NoMemory>
    ensures { IfOk result (λ m. (m, configuration.new) ≡ started (operand_start node what.now) (list_start node what.now) (plain_start node (length configuration.old.call.locals) what.now) configuration.old) }
{
    let alloc = configuration.alloc();
    if let Some((frame, operand)) = operand_start(node, what) {
        configuration.enter(frame)?;
        return Ok(Mode::Begin(operand));
    }
    if let Some((frame, first)) = list_start(alloc, node, what) {
        configuration.enter(frame)?;
        return Ok(first);
    }
    match plain_start(alloc, node, configuration.local_count(), what) {
        Some(next) => Ok(next),
        None => Ok(Mode::Give(ValueList::new(alloc))),
    }
}

/// A node, behind its instruction.
#[tactic(auto, using(crate::proofs::NodeConstants::constant_there))]
fn begin_node<L: Ledger>(
    configuration: &mut Configuration,
    parsed: &Parsed,
    constants: &Constants,
    node: NodeId,
    what: &Node,
    steps: &mut Steps<L>,
) -> Result<Mode, NoMemory>
    requires call { IsOwnCall (ids_of configuration.old.heap) configuration.old.call }
    requires constants { constants.now ≡ constants_of parsed.now.chunk.nodes }
    requires there { IsNode parsed.now.chunk.nodes node what.now }
    ensures { IfOk result (λ m. (m, configuration.new) ≡ node_begun parsed.now.chunk.nodes (code_of parsed.now.chunk) node what.now configuration.old) }
{
    let alloc = configuration.alloc();
    match what {
        Node::Const { .. } => Ok(Mode::Give(ValueList::of_one(alloc, constants.value(node)?))),
        Node::Vararg => Ok(Mode::Give(ValueList::from_slice(
            alloc,
            configuration.call().varargs(),
        )?)),
        Node::Name { text } => {
            let found = configuration.name_value(variable(parsed, node), text.as_slice(), steps)?;
            Ok(Mode::Give(ValueList::of_one(alloc, found)))
        }
        Node::Function { .. } => configuration.make_function(node, captured(parsed, node), steps),
        Node::Table { .. } => configuration.make_table(node, steps),
        Node::Block { .. } => begin_block(configuration, node),
        Node::While { .. } => begin_while(configuration, node),
        Node::If {
            tests,
            blocks,
            otherwise,
        } => begin_if(configuration, node, tests, blocks, *otherwise),
        Node::LocalFunction { function, .. } => {
            begin_local_function(configuration, parsed, node, *function, steps)
        }
        _ => start(configuration, node, what),
    }
}

/// The node of a number, which costs an instruction.
pub(crate) fn begin<L: Ledger>(
    configuration: &mut Configuration,
    parsed: &Parsed,
    constants: &Constants,
    node: NodeId,
    steps: &mut Steps<L>,
) -> Result<Mode, NoMemory>
    requires call { IsOwnCall (ids_of configuration.old.heap) configuration.old.call }
    requires constants { constants.now ≡ constants_of parsed.now.chunk.nodes }
    ensures { IfOk result (λ m. (m, configuration.new) ≡ begun parsed.now.chunk.nodes (code_of parsed.now.chunk) node (node_at parsed.now.chunk.nodes node) configuration.old) }
{
    let Some(what) = parts::node_at(parsed.chunk(), node) else {
        return Ok(Mode::Give(ValueList::new(configuration.alloc())));
    };
    if let Err(stop) = configuration.tick() {
        return Ok(Mode::Stopped(stop));
    }
    begin_node(configuration, parsed, constants, node, what, steps)
}
