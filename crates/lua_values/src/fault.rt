//! Why the heap refuses.

use std::alloc::{AllocError, AllocFailed};
use zc_budget::Stop;

/// Why a call of the heap is refused.
#[derive(Clone, Copy, PartialEq, Eq, Debug, Drop)]
pub enum HeapFault {
    /// A limit was reached.
    Stop(Stop),
    /// The key that is to be put is nil.
    NilKey,
    /// The key behind which a walk is to go on was never put.
    UnknownKey,
    NoMemory,
}

impl From<Stop> for HeapFault {
    ghost use Rattle.std.specs.Prelude.{◌≡◌};
    ghost use Rattle.lua_values.specs.declared.fault.HeapFault.TheVariants as fault;

    ghost from_gives = { λ stop e. e ≡ fault.Stop stop };

    fn from(stop: Stop) -> HeapFault {
        HeapFault::Stop(stop)
    }
}

impl From<AllocError> for HeapFault {
    ghost use Rattle.std.specs.Prelude.{◌≡◌};
    ghost use Rattle.lua_values.specs.declared.fault.HeapFault.TheVariants as fault;

    ghost from_gives = { λ _ e. e ≡ fault.NoMemory };

    fn from(_error: AllocError) -> HeapFault {
        HeapFault::NoMemory
    }
}

impl<T: Drop> From<AllocFailed<T>> for HeapFault {
    ghost use Rattle.std.specs.Prelude.{◌≡◌};
    ghost use Rattle.lua_values.specs.declared.fault.HeapFault.TheVariants as fault;

    ghost from_gives = { λ _ e. e ≡ fault.NoMemory };

    fn from(_refused: AllocFailed<T>) -> HeapFault {
        HeapFault::NoMemory
    }
}
