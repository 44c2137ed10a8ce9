//! One step.

ghost use Rattle.std.specs.Prelude.{◌≡◌, IfOk};
ghost use Rattle.lua_values.specs.Ids.{ids_of};
ghost use Rattle.lua_code.specs.CodeOf.{code_of};
ghost use Rattle.lua_steps.specs.Own.{IsOwnMode, AreOfHeap};
ghost use Rattle.lua_steps.specs.Machine as machine;
ghost use Rattle.lua_frames.specs.NodeConstants.{constants_of};

use crate::assignments::{next_target, store};
use crate::begin::begin;
use crate::calls::{apply, call, made, results, return_values};
use crate::constants::Constants;
use crate::declaring::declare_names;
use crate::fields::{begin_field, put_entry, put_items};
use crate::given::give;
use crate::jumps::{break_out, jump, leave};
use crate::loops::{count_turn, each_turn, next_values, open, round, start_count, turn};
use lua_configuration::Configuration;
use lua_scope::Parsed;
use lua_steps::Mode;
use std::sync::ledger::Ledger;
use zc_budget::Steps;
use zc_io::NoMemory;

/// One step of a machine in this mode: what it does next. A call of a built-in or of an iterator
/// function is no step, since a host serves it: the mode is given back as it is. The only refusal
/// is want of memory.
pub fn step<L: Ledger>(
    configuration: &mut Configuration,
    parsed: &Parsed,
    constants: &Constants,
    mode: Mode,
    steps: &mut Steps<L>,
) -> Result<Mode, NoMemory>
    requires mode { IsOwnMode (ids_of configuration.old.heap) mode }
    requires constants { constants.now ≡ constants_of parsed.now.chunk.nodes }
    requires held { AreOfHeap (ids_of configuration.old.heap) configuration.old.call configuration.old.frames }
    ensures { IfOk result (λ m. (m, configuration.new) ≡ machine.step parsed.now.chunk.nodes (code_of parsed.now.chunk) mode configuration.old) }
{
    let chunk = parsed.chunk();
    match mode {
        Mode::Begin(node) => begin(configuration, parsed, constants, node, steps),
        Mode::Give(values) => give(configuration, parsed, values),
        Mode::Leave(values) => leave(configuration, values),
        Mode::Break => break_out(configuration),
        Mode::Jump { goto } => jump(configuration, chunk, goto),
        Mode::Raise(value) => Ok(Mode::Raise(value)),
        Mode::Stopped(stop) => Ok(Mode::Stopped(stop)),
        Mode::Declare { node, values } => declare_names(configuration, parsed, node, values, steps),
        Mode::Targets {
            node,
            next,
            targets,
        } => next_target(configuration, parsed, node, next, targets),
        Mode::Stores {
            node,
            targets,
            values,
        } => store(configuration, chunk, node, targets, values, steps),
        Mode::Fields {
            node,
            next,
            table,
            count,
        } => begin_field(configuration, chunk, node, next, table, count),
        Mode::Items {
            node,
            next,
            table,
            count,
            values,
        } => put_items(
            configuration,
            chunk,
            node,
            next,
            table,
            count,
            values,
            steps,
        ),
        Mode::Entry {
            node,
            next,
            table,
            count,
            key,
            value,
        } => put_entry(
            configuration,
            chunk,
            node,
            next,
            table,
            count,
            key,
            value,
            steps,
        ),
        Mode::Binary { node, left, right } => {
            configuration.binary(chunk, node, left, right, steps)
        }
        Mode::Unary { node, operand } => configuration.unary(chunk, node, operand, steps),
        Mode::Look { node, object, key } => configuration.look(chunk, node, object, key, steps),
        Mode::Put {
            node,
            object,
            key,
            value,
        } => configuration.put_at(chunk, node, object, key, value, steps),
        Mode::Turn { node, outer } => turn(configuration, chunk, node, outer),
        Mode::Round { node, outer } => round(configuration, chunk, node, outer),
        Mode::Open(block) => open(configuration, chunk, block),
        Mode::Start {
            node,
            first,
            limit,
            step,
        } => start_count(configuration, chunk, node, first, limit, step, steps),
        Mode::Count {
            node,
            at,
            limit,
            step,
            outer,
        } => count_turn(configuration, parsed, node, at, limit, step, outer, steps),
        Mode::Next {
            node,
            function,
            state,
            control,
            outer,
        } => next_values(configuration, chunk, node, function, state, control, outer),
        Mode::Each {
            node,
            function,
            state,
            outer,
            values,
        } => each_turn(
            configuration,
            parsed,
            node,
            function,
            state,
            outer,
            values,
            steps,
        ),
        Mode::Return { node, values } => return_values(configuration, chunk, node, values, steps),
        Mode::Apply {
            node,
            function,
            args,
        } => apply(configuration, chunk, node, function, args, steps),
        Mode::Call {
            function,
            args,
            lines,
            is_own,
        } => call(configuration, parsed, function, args, lines, is_own, steps),
        Mode::Results { lines, values } => results(configuration, lines, values, steps),
        Mode::Made {
            after,
            lines,
            values,
        } => made(configuration, after, lines, values, steps),
    }
}
