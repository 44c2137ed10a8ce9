//! Values (Lua 5.2 manual, 2.1). Numbers are whole and of 64 bits here.

ghost use Rattle.std.specs.Prelude.{◌≡◌};

use crate::builtin::Builtin;
use crate::ids::{ClosureId, IterId, TableId, ThreadId};
use crate::text::LuaText;
use std::alloc::AllocError;

/// A value. Tables, functions and coroutines are named by number.
#[derive(PartialEq, Eq, Hash, Default, Drop)]
pub enum Value {
    #[default]
    Nil,
    Bool(bool),
    Int(i64),
    Text(LuaText),
    Table(TableId),
    Closure(ClosureId),
    Builtin(Builtin),
    /// A function with a state: an iterator over a list of the pool, or a function of
    /// `coroutine.wrap`.
    Iter(IterId),
    Thread(ThreadId),
}

impl Clone for Value {
    ghost is_clone = { λ value copy. copy ≡ value };

    fn clone(&self) -> Result<Value, AllocError> {
        match self {
            Value::Nil => Ok(Value::Nil),
            Value::Bool(b) => Ok(Value::Bool(*b)),
            Value::Int(i) => Ok(Value::Int(*i)),
            Value::Text(text) => Ok(Value::Text(text.clone()?)),
            Value::Table(id) => Ok(Value::Table(*id)),
            Value::Closure(id) => Ok(Value::Closure(*id)),
            Value::Builtin(builtin) => Ok(Value::Builtin(*builtin)),
            Value::Iter(id) => Ok(Value::Iter(*id)),
            Value::Thread(id) => Ok(Value::Thread(*id)),
        }
    }
}
