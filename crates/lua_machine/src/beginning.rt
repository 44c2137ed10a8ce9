//! How a machine begins.

ghost use Rattle.std.specs.Prelude.{◌≡◌, [], false, IfOk};
ghost use Rattle.zc_budget.specs.Used.{IsWithin};
ghost use Rattle.lua_meaning.specs.Calls.{body_call};
ghost use Rattle.lua_runs.specs.Standing.{beginning};

use lua_ast::NodeId;
use lua_configuration::Configuration;
use lua_coroutines::{BodyFrame, CallInProgress, Frame, Lines};
use lua_steps::Mode;
use lua_values::ValueList;
use std::alloc::Global;
use zc_io::NoMemory;

/// The call of the main chunk, whose `...` are the arguments (Lua 5.2 manual, 3.3.2).
pub(crate) fn main_call(alloc: Global, args: ValueList) -> CallInProgress
    ensures { result ≡ body_call [] args [] false }
{
    CallInProgress::new(Vec::new(alloc), args, Lines::new(alloc), false)
}

/// A machine that has done nothing begins a program. The only refusal is want of memory.
pub(crate) fn begin(
    configuration: &mut Configuration,
    root: NodeId,
    args: ValueList,
) -> Result<Mode, NoMemory>
    requires below { configuration.old.below ≡ 0 }
    requires frames { configuration.old.frames ≡ [] }
    ensures { IfOk result (λ m. (m, configuration.new) ≡ beginning configuration.old.heap root args) }
{
    let alloc = configuration.alloc();
    let copies = ValueList::from_slice(alloc, args.as_slice())?;
    configuration.enter(Frame::Body(BodyFrame::Caller {
        call: main_call(alloc, copies),
    }))?;
    let _before = configuration.replace_call(main_call(alloc, args));
    Ok(Mode::Begin(root))
}

/// What the heap of a machine has used is within its limits.
pub(crate) fn is_within(configuration: &mut Configuration)
    ensures same { configuration.new ≡ configuration.old }
    ensures within { IsWithin configuration.old.heap.used }
{
    let _used = configuration.heap_mut().budget().used();
}
