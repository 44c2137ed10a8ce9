//! When a machine has ended, and which of its calls the host serves.

ghost use Rattle.std.specs.Prelude.{◌≡◌, ℕ, Bool, List, true, false, length, IfOk, IfErr, OnOk, OnErr};
ghost use Rattle.lua_meaning.specs.declared.value.Value.{Value as ValueOf};
ghost use Rattle.lua_steps.specs.declared.mode.Mode.TheVariants as modes;
ghost use Rattle.lua_steps.specs.Frames.{inner_of};
ghost use Rattle.lua_steps.specs.Keeping.{is_hosted};
ghost use Rattle.lua_runs.specs.Endings.{has_none, has_ended};
ghost use Rattle.lua_runs.specs.Serving.{has_no_room};

use lua_configuration::Configuration;
use lua_coroutines::Lines as CallLines;
use lua_steps::Mode;
use lua_values::{Lines, Value, ValueList};

/// The most calls in progress; the main chunk is one.
const MOST_CALLS: u64 = 200;

/// Whether no frame is left that could go on.
fn has_none(configuration: &Configuration) -> bool
    ensures { result ≡ has_none configuration.now.frames }
{
    configuration.is_done()
}

/// Whether a machine has come to its end: an error and a stop pass every frame, and what is handed
/// on ends where no frame is left.
pub(crate) fn has_ended(mode: &Mode, configuration: &Configuration) -> bool
    ensures { result ≡ has_ended (mode.now, configuration.now) }
{
    match mode {
        Mode::Raise(_) | Mode::Stopped(_) => true,
        Mode::Give(_) | Mode::Leave(_) | Mode::Break | Mode::Jump { .. } => has_none(configuration),
        _ => false,
    }
}

/// Whether the host serves the call of this value.
fn is_served(function: &Value) -> bool
    ensures { (args : List ValueOf) (lines : List ℕ) (own : Bool) → result ≡ is_hosted (modes.Call function.now args lines own) }
{
    match function {
        Value::Builtin(_) | Value::Iter(_) => true,
        _ => false,
    }
}

/// A call that the host serves.
#[derive(Drop)]
pub(crate) struct HostedCall {
    pub(crate) function: Value,
    pub(crate) args: ValueList,
    pub(crate) lines: CallLines,
    pub(crate) is_own: bool,
}

/// The call that the host serves in this mode; the mode, where it serves none.
pub(crate) fn hosted_call(mode: Mode) -> Result<HostedCall, Mode>
    ensures call { IfOk result (λ call. mode ≡ modes.Call call.function call.args call.lines call.is_own) }
    ensures hosted { OnOk result (is_hosted mode ≡ true) }
    ensures other { IfErr result (λ other. other ≡ mode) }
    ensures alone { OnErr result (is_hosted mode ≡ false) }
{
    match mode {
        Mode::Call {
            function,
            args,
            lines,
            is_own,
        } => {
            if !is_served(&function) {
                return Err(Mode::Call {
                    function,
                    args,
                    lines,
                    is_own,
                });
            }
            Ok(HostedCall {
                function,
                args,
                lines,
                is_own,
            })
        }
        other => Err(other),
    }
}

/// How many calls of the running coroutine are in progress where this call is made.
fn calls_in_progress(lines: Lines, is_own: bool) -> u64
    ensures { result ≡ length (inner_of is_own lines.now) }
{
    if is_own { 0 } else { lines.len() as u64 }
}

/// Whether no further call may be in progress.
pub(crate) fn has_no_room(configuration: &Configuration, lines: Lines, is_own: bool) -> bool
    ensures { result ≡ has_no_room lines.now is_own configuration.now }
{
    configuration.below() as u64 + calls_in_progress(lines, is_own) >= MOST_CALLS
}
