//! Turns of loops (Lua 5.2 manual, 3.3.4 and 3.3.5).

ghost use Rattle.std.specs.Prelude.{◌≡◌, codes, All, IfOk};
ghost use Rattle.lua_steps.specs.Effects.{failing};
ghost use Rattle.lua_ast.specs.Decode.{node_at};
ghost use Rattle.lua_values.specs.Ids.{ids_of, IsOf};
ghost use Rattle.lua_code.specs.CodeOf.{code_of};
ghost use Rattle.lua_meaning.specs.Code.{Code};
ghost use Rattle.lua_meaning.specs.Numbers.{to_int};
ghost use Rattle.lua_meaning.specs.Values.{first};
ghost use Rattle.lua_meaning.specs.Nodes.{makes_turn};
ghost use Rattle.lua_steps.specs.declared.mode.Mode.TheVariants as mode;
ghost use Rattle.lua_steps.specs.Machine as machine;

use crate::declaring::{declare, declare_all};
use lua_ast::{Chunk, Node, NodeId};
use lua_code::first_variable;
use lua_configuration::{Configuration, is_nil};
use lua_coroutines::{BodyFrame, CountFrame, EachFrame, Frame, RepeatFrame, WhileFrame};
use lua_ops::to_int;
use lua_scope::Parsed;
use lua_steps::Mode;
use lua_transitions::parts;
use lua_values::{Value, ValueList};
use std::sync::ledger::Ledger;
use zc_budget::{Steps, Stop};
use zc_io::NoMemory;

/// A turn of a `while`: its test.
pub(crate) fn turn(
    configuration: &mut Configuration,
    chunk: &Chunk,
    node: NodeId,
    outer: usize,
) -> Result<Mode, NoMemory>
    ensures { (code : Code) → IfOk result (λ m. (m, configuration.new) ≡ machine.step chunk.now.nodes code (mode.Turn node outer) configuration.old) }
{
    if let Err(stop) = configuration.tick() {
        return Ok(Mode::Stopped(stop));
    }
    configuration.enter(Frame::While(WhileFrame::Test { node, outer }))?;
    Ok(Mode::Begin(parts::test(chunk, node)))
}

/// A turn of a `repeat`: its block.
pub(crate) fn round(
    configuration: &mut Configuration,
    chunk: &Chunk,
    node: NodeId,
    outer: usize,
) -> Result<Mode, NoMemory>
    ensures { (code : Code) → IfOk result (λ m. (m, configuration.new) ≡ machine.step chunk.now.nodes code (mode.Round node outer) configuration.old) }
{
    if let Err(stop) = configuration.tick() {
        return Ok(Mode::Stopped(stop));
    }
    let before = configuration.local_count();
    configuration.enter(Frame::Repeat(RepeatFrame::Turn {
        node,
        outer,
        before,
    }))?;
    Ok(Mode::Open(parts::block(chunk, node)))
}

/// Whether a node is a block.
fn is_block(chunk: &Chunk, node: NodeId) -> bool
    ensures { result ≡ machine.is_block_node (node_at chunk.now.nodes node) }
{
    match parts::node_at(chunk, node) {
        Some(Node::Block { .. }) => true,
        _ => false,
    }
}

/// The block of a `repeat`, whose locals its test sees.
pub(crate) fn open(
    configuration: &mut Configuration,
    chunk: &Chunk,
    block: NodeId,
) -> Result<Mode, NoMemory>
    ensures { (code : Code) → IfOk result (λ m. (m, configuration.new) ≡ machine.step chunk.now.nodes code (mode.Open block) configuration.old) }
{
    if !is_block(chunk, block) {
        return Ok(Mode::Begin(block));
    }
    if let Err(stop) = configuration.tick() {
        return Ok(Mode::Stopped(stop));
    }
    let outer = configuration.local_count();
    configuration.enter(Frame::Body(BodyFrame::Open {
        block,
        next: 0,
        outer,
    }))?;
    Ok(Mode::Give(ValueList::new(configuration.alloc())))
}

/// A numeric `for` whose values aren't three numbers.
fn no_number<L: Ledger>(
    configuration: &mut Configuration,
    chunk: &Chunk,
    node: NodeId,
    steps: &mut Steps<L>,
) -> Result<Mode, NoMemory>
    ensures { IfOk result (λ m. (m, configuration.new) ≡ failing (machine.lines_at chunk.now.nodes node configuration.old.call) (codes "for value is not a number") configuration.old) }
{
    let lines = configuration.lines_at(chunk, node)?;
    configuration.fail(lines.as_slice(), b"for value is not a number", steps)
}

/// A numeric `for` begins, where its three values are numbers.
pub(crate) fn start_count<L: Ledger>(
    configuration: &mut Configuration,
    chunk: &Chunk,
    node: NodeId,
    first: Value,
    limit: Value,
    step: Value,
    steps: &mut Steps<L>,
) -> Result<Mode, NoMemory>
    ensures { IfOk result (λ m. (m, configuration.new) ≡ machine.start_by chunk.now.nodes node (to_int first) (to_int limit) (to_int step) configuration.old) }
{
    match (to_int(&first), to_int(&limit), to_int(&step)) {
        (None, _, _) => no_number(configuration, chunk, node, steps),
        (Some(_), None, _) => no_number(configuration, chunk, node, steps),
        (Some(_), Some(_), None) => no_number(configuration, chunk, node, steps),
        (Some(at), Some(limit), Some(step)) => Ok(Mode::Count {
            node,
            at,
            limit,
            step,
            outer: configuration.local_count(),
        }),
    }
}

/// Whether a numeric `for` with this step makes a turn at this number.
fn makes_turn(at: i64, limit: i64, step: i64) -> bool
    ensures { result ≡ makes_turn at limit step }
{
    if step > 0 { at <= limit } else { at >= limit }
}

/// A turn of a numeric `for`, with a local of its own.
pub(crate) fn count_turn<L: Ledger>(
    configuration: &mut Configuration,
    parsed: &Parsed,
    node: NodeId,
    at: i64,
    limit: i64,
    step: i64,
    outer: usize,
    steps: &mut Steps<L>,
) -> Result<Mode, NoMemory>
    ensures { IfOk result (λ m. (m, configuration.new) ≡ machine.counted_by parsed.now.chunk.nodes (code_of parsed.now.chunk) (makes_turn at limit step) node at limit step outer configuration.old) }
{
    if !makes_turn(at, limit, step) {
        return Ok(Mode::Give(ValueList::new(configuration.alloc())));
    }
    if let Err(stop) = configuration.tick() {
        return Ok(Mode::Stopped(stop));
    }
    let before = configuration.local_count();
    let variable = first_variable(parsed, node);
    if !declare(configuration, parsed, variable, Value::Int(at), steps)? {
        return Ok(Mode::Stopped(Stop::Memory));
    }
    configuration.enter(Frame::Count(CountFrame::Turn {
        node,
        at,
        limit,
        step,
        outer,
        before,
    }))?;
    Ok(Mode::Begin(parts::block(parsed.chunk(), node)))
}

/// The iterator function of a generic `for` is called.
pub(crate) fn next_values(
    configuration: &mut Configuration,
    chunk: &Chunk,
    node: NodeId,
    function: Value,
    state: Value,
    control: Value,
    outer: usize,
) -> Result<Mode, NoMemory>
    ensures { (code : Code) → IfOk result (λ m. (m, configuration.new) ≡ machine.step chunk.now.nodes code (mode.Next node function state control outer) configuration.old) }
{
    if let Err(stop) = configuration.tick() {
        return Ok(Mode::Stopped(stop));
    }
    let lines = configuration.lines_at(chunk, node)?;
    let args = ValueList::of_two(configuration.alloc(), state.clone()?, control);
    configuration.enter(Frame::Each(EachFrame::Next {
        node,
        function: function.clone()?,
        state,
        outer,
    }))?;
    Ok(Mode::Call {
        function,
        args,
        lines,
        is_own: false,
    })
}

/// A turn of a generic `for`, with locals of its own, where the iterator function gave a value.
pub(crate) fn each_turn<L: Ledger>(
    configuration: &mut Configuration,
    parsed: &Parsed,
    node: NodeId,
    function: Value,
    state: Value,
    outer: usize,
    values: ValueList,
    steps: &mut Steps<L>,
) -> Result<Mode, NoMemory>
    requires { All (IsOf (ids_of configuration.old.heap)) values }
    ensures { IfOk result (λ m. (m, configuration.new) ≡ machine.each_by parsed.now.chunk.nodes (code_of parsed.now.chunk) (first values) node function state outer values configuration.old) }
{
    let alloc = configuration.alloc();
    let control = first_copy(&values)?;
    if is_nil(&control) {
        return Ok(Mode::Give(ValueList::new(alloc)));
    }
    let before = configuration.local_count();
    let count = parts::name_count(parsed.chunk(), node);
    let variable = first_variable(parsed, node);
    if !declare_all(configuration, parsed, variable, count, values, steps)? {
        return Ok(Mode::Stopped(Stop::Memory));
    }
    configuration.enter(Frame::Each(EachFrame::Turn {
        node,
        function,
        state,
        control,
        outer,
        before,
    }))?;
    Ok(Mode::Begin(parts::block(parsed.chunk(), node)))
}

/// The first of a list of values, or nil.
fn first_copy(values: &ValueList) -> Result<Value, NoMemory>
    ensures { IfOk result (λ v. v ≡ first values.now) }
{
    match values.get(0) {
        Some(value) => Ok(value.clone()?),
        None => Ok(Value::Nil),
    }
}
