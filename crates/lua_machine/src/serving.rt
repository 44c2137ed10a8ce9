//! What the answer of a host does to a machine that called it (Lua 5.2 manual, 3.4.10).

ghost use Rattle.std.specs.Prelude.{◌≡◌, ◌∷◌, IfOk, Some, option_map};
ghost use Rattle.lua_meaning.specs.Runs.{line_at};
ghost use Rattle.lua_meaning.specs.Jobs.{CallThen};
ghost use Rattle.lua_values.specs.Answers.{builtin_answer};
ghost use Rattle.lua_steps.specs.Frames.{inner_of};
ghost use Rattle.lua_runs.specs.Serving.{served};

use lua_configuration::Configuration;
use lua_coroutines::{Frame, Lines, NativeFrame};
use lua_meaning::After;
use lua_steps::Mode;
use lua_values::{BuiltinResult, Value, ValueList};
use std::alloc::Global;
use std::sync::ledger::Ledger;
use zc_budget::Steps;
use zc_io::NoMemory;

/// The line at work.
fn line_at(lines: &[u32]) -> u32
    ensures { result ≡ line_at lines.now }
{
    match lines.first() {
        Some(line) => *line,
        None => 0,
    }
}

/// The lines of a function that a built-in calls, which was called itself at these lines: the
/// built-in's own stands in front of those before it.
fn lines_of_call(alloc: Global, lines: &[u32], is_own: bool) -> Result<Lines, NoMemory>
    ensures { IfOk result (λ inner. inner ≡ line_at lines.now ∷ inner_of is_own lines.now) }
{
    let mut inner = Vec::new(alloc);
    inner.push(line_at(lines))?;
    if is_own {
        return Ok(Lines::from_vec(inner));
    }
    inner.extend_from_slice(lines)?;
    Ok(Lines::from_vec(inner))
}

/// A function is called for a built-in that waits, and no yield may cross that.
fn call_for(
    configuration: &mut Configuration,
    function: Value,
    args: ValueList,
    after: After,
    lines: Lines,
    is_own: bool,
) -> Result<Mode, NoMemory>
    ensures { IfOk result (λ m. (m, configuration.new) ≡ served (CallThen function args after) lines is_own configuration.old) }
{
    let alloc = configuration.alloc();
    let inner = lines_of_call(alloc, lines.as_slice(), is_own)?;
    let crossed = configuration.call().crossed(alloc)?;
    let caller = configuration.replace_call(crossed);
    configuration.enter(Frame::Native(NativeFrame::Waits {
        after,
        lines,
        caller,
    }))?;
    Ok(Mode::Call {
        function,
        args,
        lines: inner,
        is_own: false,
    })
}

/// Serves an answer: values are handed on where they aren't too many, and a function that is to be
/// called is called for the built-in that waits for it. The only refusal is want of memory.
pub(crate) fn serve<L: Ledger>(
    configuration: &mut Configuration,
    answer: BuiltinResult,
    lines: Lines,
    is_own: bool,
    steps: &mut Steps<L>,
) -> Result<Mode, NoMemory>
    ensures { IfOk result (λ m. Some (m, configuration.new) ≡ option_map (λ a. served a lines is_own configuration.old) (builtin_answer answer)) }
{
    match answer {
        BuiltinResult::Values(values) => {
            let count = values.len();
            configuration.if_few(lines.as_slice(), count, Mode::Give(values), steps)
        }
        BuiltinResult::Raise(value) => Ok(Mode::Raise(value)),
        BuiltinResult::Stop(stop) => Ok(Mode::Stopped(stop)),
        BuiltinResult::CallThen {
            function,
            args,
            after,
        } => call_for(configuration, function, args, after, lines, is_own),
        BuiltinResult::Resume { .. } | BuiltinResult::Yield(_) => {
            Ok(Mode::Give(ValueList::new(configuration.alloc())))
        }
        BuiltinResult::NoMemory => Err(NoMemory),
    }
}
