//! The basic functions and those of `coroutine`, by groups.

ghost use Rattle.std.specs.Prelude.{◌≡◌};
ghost use Rattle.lua_base.specs.Functions.{base_function};

use lua_values::Builtin;

/// A basic function, or one of `coroutine` (Lua 5.2 manual, 6.1 and 6.2).
#[derive(Clone, Copy, PartialEq, Eq, Debug, Drop)]
pub enum BaseFunction {
    /// One over any values.
    OfValues(ValueFunction),
    /// One over a table.
    OfTables(TableFunction),
    /// One of `coroutine`.
    OfCoroutines(CoroutineFunction),
}

/// A basic function over any values (Lua 5.2 manual, 6.1).
#[derive(Clone, Copy, PartialEq, Eq, Debug, Drop)]
pub enum ValueFunction {
    /// `assert(v, m)`.
    Assert,
    /// `collectgarbage()`, which changes nothing.
    CollectGarbage,
    /// `error(v, level)`.
    Error,
    /// `rawequal(a, b)`.
    RawEqual,
    /// `select(n, ..)`.
    Select,
    /// `tonumber(v, base)`.
    ToNumber,
    /// `tostring(v)`.
    ToString,
    /// `type(v)`.
    Type,
}

/// A basic function over a table (Lua 5.2 manual, 6.1).
#[derive(Clone, Copy, PartialEq, Eq, Debug, Drop)]
pub enum TableFunction {
    /// `getmetatable(v)`.
    GetMetatable,
    /// `setmetatable(t, m)`.
    SetMetatable,
    /// `ipairs(t)`.
    Ipairs,
    /// The iterator that `ipairs` gives.
    IpairsIterator,
    /// `pairs(t)`.
    Pairs,
    /// `next(t, k)`.
    Next,
    /// `rawget(t, k)`.
    RawGet,
    /// `rawlen(v)`.
    RawLen,
    /// `rawset(t, k, v)`.
    RawSet,
}

/// A function of `coroutine` (Lua 5.2 manual, 6.2).
#[derive(Clone, Copy, PartialEq, Eq, Debug, Drop)]
pub enum CoroutineFunction {
    /// `coroutine.create(f)`.
    Create,
    /// `coroutine.wrap(f)`.
    Wrap,
    /// `coroutine.resume(c, ..)`.
    Resume,
    /// `coroutine.yield(..)`.
    Yield,
    /// `coroutine.running()`.
    Running,
    /// `coroutine.status(c)`.
    Status,
}

/// The basic function, or the one of `coroutine`, that a built-in is.
pub fn base_function(builtin: Builtin) -> Option<BaseFunction>
    ensures { result ≡ base_function builtin }
{
    use BaseFunction::{OfCoroutines, OfTables, OfValues};
    match builtin {
        Builtin::Assert => Some(OfValues(ValueFunction::Assert)),
        Builtin::CollectGarbage => Some(OfValues(ValueFunction::CollectGarbage)),
        Builtin::Error => Some(OfValues(ValueFunction::Error)),
        Builtin::RawEqual => Some(OfValues(ValueFunction::RawEqual)),
        Builtin::Select => Some(OfValues(ValueFunction::Select)),
        Builtin::ToNumber => Some(OfValues(ValueFunction::ToNumber)),
        Builtin::ToString => Some(OfValues(ValueFunction::ToString)),
        Builtin::Type => Some(OfValues(ValueFunction::Type)),
        Builtin::GetMetatable => Some(OfTables(TableFunction::GetMetatable)),
        Builtin::SetMetatable => Some(OfTables(TableFunction::SetMetatable)),
        Builtin::Ipairs => Some(OfTables(TableFunction::Ipairs)),
        Builtin::IpairsIterator => Some(OfTables(TableFunction::IpairsIterator)),
        Builtin::Pairs => Some(OfTables(TableFunction::Pairs)),
        Builtin::Next => Some(OfTables(TableFunction::Next)),
        Builtin::RawGet => Some(OfTables(TableFunction::RawGet)),
        Builtin::RawLen => Some(OfTables(TableFunction::RawLen)),
        Builtin::RawSet => Some(OfTables(TableFunction::RawSet)),
        Builtin::CoroutineCreate => Some(OfCoroutines(CoroutineFunction::Create)),
        Builtin::CoroutineWrap => Some(OfCoroutines(CoroutineFunction::Wrap)),
        Builtin::CoroutineResume => Some(OfCoroutines(CoroutineFunction::Resume)),
        Builtin::CoroutineYield => Some(OfCoroutines(CoroutineFunction::Yield)),
        Builtin::CoroutineRunning => Some(OfCoroutines(CoroutineFunction::Running)),
        Builtin::CoroutineStatus => Some(OfCoroutines(CoroutineFunction::Status)),
        _ => None,
    }
}
