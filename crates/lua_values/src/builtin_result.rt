//! What a call of a built-in answers.

use crate::list::ValueList;
use lua_meaning::{After, ThreadId, Value};
use zc_budget::Stop;

/// What a call of a built-in or a step of an iterator function answers.
#[derive(Drop)]
pub enum BuiltinResult {
    /// It is done, with these values.
    Values(ValueList),
    /// It raises this value.
    Raise(Value),
    /// A limit was reached.
    Stop(Stop),
    /// This function is to be called, and the call ends with what is made of its results.
    CallThen {
        function: Value,
        args: ValueList,
        after: After,
    },
    /// This coroutine is to be resumed. Where `wrapped`, an error in it is raised again, else it is
    /// given as false and the error value.
    Resume {
        thread: ThreadId,
        args: ValueList,
        wrapped: bool,
    },
    /// The running coroutine yields these values.
    Yield(ValueList),
    NoMemory,
}
