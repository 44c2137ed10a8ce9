//! Calls of functions, and what is handed on (Lua 5.2 manual, 3.4.9 and 3.4.10).

ghost use Rattle.std.specs.Prelude.{◌≡◌, ◌<◌, ◌+◌, ◌∷◌, [], List, ℕ, length, drop, nat_le, codes, Some, All, IfOk, slice_get};
ghost use Rattle.lua_ast.specs.declared.node.LinedNode.{LinedNode};
ghost use Rattle.lua_ast.specs.declared.node.Node.TheVariants as ast;
ghost use Rattle.lua_meaning.specs.Code.{Code};
ghost use Rattle.lua_meaning.specs.Calls.{varargs_of};
ghost use Rattle.lua_meaning.specs.Heap.{metamethod};
ghost use Rattle.lua_meaning.specs.Locals.{captured_locals};
ghost use Rattle.lua_meaning.specs.Values.{first};
ghost use Rattle.lua_values.specs.Ids.{ids_of, IsOf};
ghost use Rattle.lua_code.specs.CodeOf.{code_of};
ghost use Rattle.lua_steps.specs.declared.mode.Mode.TheVariants as mode;
ghost use Rattle.lua_steps.specs.Effects.{if_few};
ghost use Rattle.lua_steps.specs.Frames.{inner_of};
ghost use Rattle.lua_steps.specs.Machine as machine;

use crate::declaring::declare_all;
use lua_ast::{Chunk, Node, NodeId};
use lua_code::{captured, first_variable};
use lua_configuration::{Configuration, captured_locals, is_nil};
use lua_coroutines::{BodyFrame, CallInProgress, Frame, Lines};
use lua_meaning::{After, ClosureId, Slot};
use lua_scope::Parsed;
use lua_steps::Mode;
use lua_transitions::parts;
use lua_values::{Event, Value, ValueList};
use std::alloc::Global;
use std::sync::ledger::Ledger;
use zc_budget::{Steps, Stop};
use zc_io::NoMemory;

/// What a function with `...` has behind its parameters; nothing of another function.
fn varargs_of(
    alloc: Global,
    is_vararg: bool,
    count: usize,
    args: &ValueList,
) -> Result<ValueList, NoMemory>
    ensures { IfOk result (λ rest. rest ≡ varargs_of is_vararg count args.now) }
{
    if !is_vararg || count >= args.len() {
        return Ok(ValueList::new(alloc));
    }
    ValueList::from_slice(alloc, &args.as_slice()[count..])
}

/// The body of a closure, with its parameters.
fn enter_body<L: Ledger>(
    configuration: &mut Configuration,
    parsed: &Parsed,
    function: NodeId,
    count: usize,
    is_vararg: bool,
    block: NodeId,
    locals: Vec<(u32, Slot)>,
    args: ValueList,
    inner: Lines,
    steps: &mut Steps<L>,
) -> Result<Mode, NoMemory>
    requires { All (IsOf (ids_of configuration.old.heap)) args }
    ensures { (params : List (List ℕ)) (cells : List ℕ) → length params ≡ count → locals.items ≡ captured_locals ((code_of parsed.now.chunk).captured function) cells →
        IfOk result (λ m. (m, configuration.new) ≡ machine.entered_node parsed.now.chunk.nodes (code_of parsed.now.chunk) (Some (ast.Function params is_vararg block))
        (record { function = function; cells = cells }) args inner configuration.old) }
{
    let varargs = varargs_of(configuration.alloc(), is_vararg, count, &args)?;
    let across = configuration.call().is_across();
    let body = CallInProgress::new(locals, varargs, inner, across);
    let caller = configuration.replace_call(body);
    let variable = first_variable(parsed, function);
    if !declare_all(configuration, parsed, variable, count, args, steps)? {
        return Ok(Mode::Stopped(Stop::Memory));
    }
    configuration.enter(Frame::Body(BodyFrame::Caller { call: caller }))?;
    Ok(Mode::Begin(block))
}

/// The function of a closure, with the variables that it captured.
fn enter_function<L: Ledger>(
    configuration: &mut Configuration,
    parsed: &Parsed,
    closure: ClosureId,
    args: ValueList,
    inner: Lines,
    steps: &mut Steps<L>,
) -> Result<Mode, NoMemory>
    requires closure { closure < length configuration.old.heap.closures }
    requires args { All (IsOf (ids_of configuration.old.heap)) args }
    ensures { IfOk result (λ m. (m, configuration.new) ≡ machine.entered parsed.now.chunk.nodes (code_of parsed.now.chunk) (slice_get configuration.old.heap.closures closure) args inner configuration.old) }
{
    let alloc = configuration.alloc();
    let (function, cells) = configuration.heap().closure(closure);
    let locals = captured_locals(alloc, captured(parsed, function), cells)?;
    match parts::node_at(parsed.chunk(), function) {
        Some(
            Node::Function {
                params,
                vararg,
                block,
            },
        ) => enter_body(
            configuration,
            parsed,
            function,
            params.len(),
            *vararg,
            *block,
            locals,
            args,
            inner,
            steps,
        ),
        _ => Ok(Mode::Give(ValueList::new(alloc))),
    }
}

/// The lines of the calls in progress at a call: none at a coroutine's own function.
fn inner_of(alloc: Global, is_own: bool, lines: Lines) -> Lines
    ensures { result ≡ inner_of is_own lines }
{
    if is_own { Lines::new(alloc) } else { lines }
}

/// Whether 200 calls are in progress.
fn is_full(below: u32, is_own: bool, lines: &Lines) -> bool
    ensures { result ≡ nat_le 200 (below + length (inner_of is_own lines.now)) }
{
    let own = if is_own { 0 } else { lines.len() };
    own >= 200usize.saturating_sub(below as usize)
}

/// The call of a closure.
fn call_closure<L: Ledger>(
    configuration: &mut Configuration,
    parsed: &Parsed,
    closure: ClosureId,
    args: ValueList,
    lines: Lines,
    is_own: bool,
    steps: &mut Steps<L>,
) -> Result<Mode, NoMemory>
    requires closure { closure < length configuration.old.heap.closures }
    requires args { All (IsOf (ids_of configuration.old.heap)) args }
    ensures { IfOk result (λ m. (m, configuration.new) ≡ machine.if_room (nat_le 200 (configuration.old.below + length (inner_of is_own lines))) lines
        (machine.entered parsed.now.chunk.nodes (code_of parsed.now.chunk) (slice_get configuration.old.heap.closures closure) args (inner_of is_own lines)) configuration.old) }
{
    if is_full(configuration.below(), is_own, &lines) {
        return configuration.fail(lines.as_slice(), b"stack overflow", steps);
    }
    let inner = inner_of(configuration.alloc(), is_own, lines);
    enter_function(configuration, parsed, closure, args, inner, steps)
}

/// A call, where it has no more than 250 arguments.
fn begin_call<L: Ledger>(
    configuration: &mut Configuration,
    function: Value,
    args: ValueList,
    lines: Lines,
    is_own: bool,
    steps: &mut Steps<L>,
) -> Result<Mode, NoMemory>
    ensures { IfOk result (λ m. (m, configuration.new) ≡ if_few lines args (mode.Call function args lines is_own) configuration.old) }
{
    if args.len() > 250 {
        return configuration.fail(lines.as_slice(), b"too many values", steps);
    }
    Ok(Mode::Call {
        function,
        args,
        lines,
        is_own,
    })
}

/// The call of a value that is no function, by its metamethod `__call` (Lua 5.2 manual, 2.4).
fn call_by_metamethod<L: Ledger>(
    configuration: &mut Configuration,
    function: Value,
    mut args: ValueList,
    lines: Lines,
    is_own: bool,
    steps: &mut Steps<L>,
) -> Result<Mode, NoMemory>
    requires { IsOf (ids_of configuration.old.heap) function }
    ensures { (nodes : List LinedNode) → IfOk result (λ m. (m, configuration.new) ≡ machine.call_by nodes (metamethod configuration.old.heap function (codes "__call")) function args lines is_own configuration.old) }
{
    let handler = configuration
        .heap()
        .metamethod(&function, Event::Call, steps)?;
    if is_nil(&handler) {
        return configuration.fail_on(lines.as_slice(), "call", &function, steps);
    }
    if let Err(stop) = configuration.tick() {
        return Ok(Mode::Stopped(stop));
    }
    args.push_first(function)?;
    begin_call(configuration, handler, args, lines, is_own, steps)
}

/// A call. A built-in or an iterator function is its host's to serve.
pub(crate) fn call<L: Ledger>(
    configuration: &mut Configuration,
    parsed: &Parsed,
    function: Value,
    args: ValueList,
    lines: Lines,
    is_own: bool,
    steps: &mut Steps<L>,
) -> Result<Mode, NoMemory>
    requires function { IsOf (ids_of configuration.old.heap) function }
    requires args { All (IsOf (ids_of configuration.old.heap)) args }
    ensures { IfOk result (λ m. (m, configuration.new) ≡ machine.called parsed.now.chunk.nodes (code_of parsed.now.chunk) function args lines is_own configuration.old) }
{
    match &function {
        Value::Closure(closure) => {
            call_closure(configuration, parsed, *closure, args, lines, is_own, steps)
        }
        Value::Builtin(_) | Value::Iter(_) => Ok(Mode::Call {
            function,
            args,
            lines,
            is_own,
        }),
        _ => call_by_metamethod(configuration, function, args, lines, is_own, steps),
    }
}

/// The call of a node.
pub(crate) fn apply<L: Ledger>(
    configuration: &mut Configuration,
    chunk: &Chunk,
    node: NodeId,
    function: Value,
    args: ValueList,
    steps: &mut Steps<L>,
) -> Result<Mode, NoMemory>
    ensures { (code : Code) → IfOk result (λ m. (m, configuration.new) ≡ machine.step chunk.now.nodes code (mode.Apply node function args) configuration.old) }
{
    let lines = configuration.lines_at(chunk, node)?;
    begin_call(configuration, function, args, lines, false, steps)
}

/// `return`, where it has no more than 250 values.
pub(crate) fn return_values<L: Ledger>(
    configuration: &mut Configuration,
    chunk: &Chunk,
    node: NodeId,
    values: ValueList,
    steps: &mut Steps<L>,
) -> Result<Mode, NoMemory>
    ensures { (code : Code) → IfOk result (λ m. (m, configuration.new) ≡ machine.step chunk.now.nodes code (mode.Return node values) configuration.old) }
{
    if values.len() > 250 {
        let lines = &[parts::line_number(chunk, node)];
        return configuration.fail(lines, b"too many values", steps);
    }
    Ok(Mode::Leave(values))
}

/// What a built-in gives, where it isn't more than 250 values.
pub(crate) fn results<L: Ledger>(
    configuration: &mut Configuration,
    lines: Lines,
    values: ValueList,
    steps: &mut Steps<L>,
) -> Result<Mode, NoMemory>
    ensures { IfOk result (λ m. (m, configuration.new) ≡ if_few lines values (mode.Give values) configuration.old) }
{
    let count = values.len();
    configuration.if_few(lines.as_slice(), count, Mode::Give(values), steps)
}

/// The first three of a list of values, nil where there are fewer.
fn first_three(alloc: Global, mut values: ValueList) -> Result<ValueList, NoMemory>
    ensures { IfOk result (λ three. three ≡ first values ∷ first (drop 1 values) ∷ first (drop 2 values) ∷ []) }
{
    let first = values.take_first();
    let second = values.take_first();
    let mut three = ValueList::of_two(alloc, first, second);
    three.push(values.into_first())?;
    Ok(three)
}

/// What a built-in makes of what the function gave that it called.
pub(crate) fn made<L: Ledger>(
    configuration: &mut Configuration,
    after: After,
    lines: Lines,
    values: ValueList,
    steps: &mut Steps<L>,
) -> Result<Mode, NoMemory>
    ensures { (nodes : List LinedNode) → IfOk result (λ m. (m, configuration.new) ≡ machine.made_by nodes after lines values configuration.old) }
{
    let alloc = configuration.alloc();
    match after {
        After::FirstThree => Ok(Mode::Give(first_three(alloc, values)?)),
        After::OneText => match values.into_first() {
            Value::Text(text) => Ok(Mode::Give(ValueList::of_one(alloc, Value::Text(text)))),
            _ => configuration.fail(lines.as_slice(), b"bad argument 1 to tostring", steps),
        },
    }
}
