//! Locals that nodes declare (Lua 5.2 manual, 3.3.7 and 3.5), and what becomes of a frame that was
//! taken off.

ghost use Rattle.std.specs.Prelude.{◌≡◌, [], All, IfOk};
ghost use Rattle.lua_values.specs.Ids.{ids_of, IsOf, AreLater};
ghost use Rattle.lua_code.specs.CodeOf.{code_of};
ghost use Rattle.lua_steps.specs.declared.mode.Mode.TheVariants as next;
ghost use Rattle.lua_steps.specs.Parts.{name_count_at};
ghost use Rattle.lua_steps.specs.Configuration.{with_heap, with_locals, taken_up};
ghost use Rattle.lua_steps.specs.Effects.{declared, declared_all};
ghost use Rattle.lua_steps.specs.Machine.{declaring};

use lua_ast::NodeId;
use lua_code::{first_variable, is_captured};
use lua_configuration::Configuration;
use lua_scope::Parsed;
use lua_steps::{Given, Mode};
use lua_transitions::parts;
use lua_values::{Value, ValueList};
use std::sync::ledger::Ledger;
use zc_budget::{Steps, Stop};
use zc_io::NoMemory;

/// One local more, shared where some function of the text captures it. It answers whether there
/// was memory for it within the limit.
pub(crate) fn declare<L: Ledger>(
    configuration: &mut Configuration,
    parsed: &Parsed,
    variable: u32,
    value: Value,
    steps: &mut Steps<L>,
) -> Result<bool, NoMemory>
    requires { IsOf (ids_of configuration.old.heap) value }
    ensures told { IfOk result (λ done. done ≡ (declared (code_of parsed.now.chunk) variable value configuration.old.heap configuration.old.call.locals).done) }
    ensures after { IfOk result (λ _. configuration.new ≡ with_heap (declared (code_of parsed.now.chunk) variable value configuration.old.heap configuration.old.call.locals).heap
        (with_locals (declared (code_of parsed.now.chunk) variable value configuration.old.heap configuration.old.call.locals).locals configuration.old)) }
    ensures keeps { AreLater (ids_of configuration.old.heap) (ids_of configuration.new.heap) }
{
    let captured = is_captured(parsed, variable);
    configuration.declare(captured, variable, value, steps)
}

/// Locals from this variable on, the values adjusted to them (Lua 5.2 manual, 3.3.3). No text has
/// 2^32 variables.
#[tactic(auto, using(lua_steps::proofs::OwnGiven::first_own))]
pub(crate) fn declare_all<L: Ledger>(
    configuration: &mut Configuration,
    parsed: &Parsed,
    first: u32,
    count: usize,
    values: ValueList,
    steps: &mut Steps<L>,
) -> Result<bool, NoMemory>
    requires { All (IsOf (ids_of configuration.old.heap)) values }
    ensures told { IfOk result (λ done. done ≡ (declared_all (code_of parsed.now.chunk) first count values configuration.old.heap configuration.old.call.locals).done) }
    ensures after { IfOk result (λ _. configuration.new ≡ with_heap (declared_all (code_of parsed.now.chunk) first count values configuration.old.heap configuration.old.call.locals).heap
        (with_locals (declared_all (code_of parsed.now.chunk) first count values configuration.old.heap configuration.old.call.locals).locals configuration.old)) }
{
    let mut variable = first;
    let mut values = values;
    let mut left = count;
    while left > 0 {
        if !declare(configuration, parsed, variable, values.take_first(), steps)? {
            return Ok(false);
        }
        let Some(next) = variable.checked_add(1) else {
            return Err(NoMemory);
        };
        variable = next;
        left -= 1;
    }
    Ok(true)
}

/// `local`: its names with these values.
pub(crate) fn declare_names<L: Ledger>(
    configuration: &mut Configuration,
    parsed: &Parsed,
    node: NodeId,
    values: ValueList,
    steps: &mut Steps<L>,
) -> Result<Mode, NoMemory>
    requires { All (IsOf (ids_of configuration.old.heap)) values }
    ensures { IfOk result (λ m. (m, configuration.new) ≡ declaring (declared_all (code_of parsed.now.chunk) ((code_of parsed.now.chunk).first_variable node)
        (name_count_at parsed.now.chunk.nodes node) values configuration.old.heap configuration.old.call.locals) (λ z. (next.Give [], z)) configuration.old) }
{
    let count = parts::name_count(parsed.chunk(), node);
    let variable = first_variable(parsed, node);
    if !declare_all(configuration, parsed, variable, count, values, steps)? {
        return Ok(Mode::Stopped(Stop::Memory));
    }
    Ok(Mode::Give(ValueList::new(configuration.alloc())))
}

/// What becomes of a frame that was taken off.
pub(crate) fn take_up(configuration: &mut Configuration, given: Given) -> Result<Mode, NoMemory>
    ensures { IfOk result (λ m. (m, configuration.new) ≡ taken_up given configuration.old) }
{
    match given {
        Given::Goes(mode) => Ok(mode),
        Given::Enters(frame, mode) => {
            configuration.enter(frame)?;
            Ok(mode)
        }
        Given::Cuts(count, mode) => {
            configuration.cut(count);
            Ok(mode)
        }
        Given::Returns(call, mode) => {
            configuration.replace_call(call);
            Ok(mode)
        }
        Given::Lands(count, frame) => {
            configuration.cut(count);
            configuration.enter(frame)?;
            Ok(Mode::Give(ValueList::new(configuration.alloc())))
        }
    }
}
