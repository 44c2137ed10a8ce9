//! What an operator answers.

ghost use Rattle.std.specs.Prelude.{◌≡◌};
ghost use Rattle.lua_ops.specs.Answers.{refused_as};

use lua_values::{HeapFault, Value, ValueList};
use zc_budget::Stop;

/// What an operator answers (Lua 5.2 manual, 2.4 and 3.4).
#[derive(Drop)]
pub enum OpResult {
    /// It is done, with this value.
    Done(Value),
    /// This metamethod is to be called; where `negated`, the answer is `not` of its first result.
    Meta {
        function: Value,
        args: ValueList,
        negated: bool,
    },
    /// It raises this value.
    Raise(Value),
    /// A limit was reached.
    Stop(Stop),
    NoMemory,
}

/// The answer where something wasn't made.
pub(crate) fn refused(fault: HeapFault) -> OpResult
    ensures { result ≡ refused_as fault }
{
    match fault {
        HeapFault::Stop(stop) => OpResult::Stop(stop),
        _ => OpResult::NoMemory,
    }
}
