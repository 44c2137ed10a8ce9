//! How a program ends.

ghost use Rattle.std.specs.Prelude.{◌≡◌};
ghost use Rattle.lua_machine.specs.Outcomes.{of_mode};

use lua_steps::Mode;
use lua_values::{Value, ValueList};
use zc_budget::Stop;

/// How a program ends (zfs-program(8), "Lua Return Values" and "Resource Limits").
#[derive(Drop)]
pub enum Outcome {
    /// It returned these values.
    Returned(ValueList),
    /// It raised this value, and nothing took it.
    Raised(Value),
    /// It reached a limit.
    Stopped(Stop),
    /// There was no memory to go on, of which its meaning says nothing.
    NoMemory,
}

/// The outcome of a machine that came to its end in this mode.
pub(crate) fn of_mode(mode: Mode) -> Outcome
    ensures { result ≡ of_mode mode }
{
    match mode {
        Mode::Give(values) => Outcome::Returned(values),
        Mode::Raise(value) => Outcome::Raised(value),
        Mode::Stopped(stop) => Outcome::Stopped(stop),
        _ => Outcome::NoMemory,
    }
}
