//! Why a token was not taken.

use std::alloc::{AllocError, AllocFailed};

/// Why a token was not taken.
#[derive(Clone, Copy, Debug, Drop)]
pub enum Refusal {
    /// There was no memory left.
    NoMemory,
    /// The grammar has no such token there.
    Unexpected,
    /// It would open a 201st level.
    TooDeep,
}

impl From<AllocError> for Refusal {
    ghost use Rattle.std.specs.Prelude.{◌≡◌};
    ghost use Rattle.lua_parser_state.specs.declared.refusal.Refusal.{Refusal};

    ghost from_gives = { λ _ e. e ≡ Refusal.NoMemory };

    fn from(_error: AllocError) -> Refusal {
        Refusal::NoMemory
    }
}

impl<T: Drop> From<AllocFailed<T>> for Refusal {
    ghost use Rattle.std.specs.Prelude.{◌≡◌};
    ghost use Rattle.lua_parser_state.specs.declared.refusal.Refusal.{Refusal};

    ghost from_gives = { λ _ e. e ≡ Refusal.NoMemory };

    fn from(_error: AllocFailed<T>) -> Refusal {
        Refusal::NoMemory
    }
}
