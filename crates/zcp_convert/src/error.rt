//! Why a value is not told in JSON.

ghost use Rattle.std.specs.Prelude.{◌≡◌};
ghost use Rattle.zcp_convert.specs.Converting.{returned_name};

use std::alloc::AllocError;
use zc_io::NoMemory;

/// A type of values that have no JSON.
#[derive(Clone, Copy, PartialEq, Eq, Debug, Drop)]
pub enum ReturnedType {
    Table,
    Function,
    Thread,
}

impl ReturnedType {
    /// The name of the type, as `type` gives it (Lua 5.2 manual, 6.1).
    pub fn name(self) -> &'static str
        ensures { result.now ≡ returned_name self }
    {
        match self {
            ReturnedType::Table => "table",
            ReturnedType::Function => "function",
            ReturnedType::Thread => "thread",
        }
    }
}

/// Why a value is not told in JSON.
#[derive(Clone, Copy, PartialEq, Eq, Debug, Drop)]
pub enum ConvertError {
    /// A text is not UTF-8, as JSON texts are (RFC 8259, section 8.1).
    NotUtf8,
    /// A value of this type has no JSON.
    NoPlainValue(ReturnedType),
    /// The JSON text would have so many bytes, more than 131,072.
    TooLarge(u64),
    /// There was no memory left.
    NoMemory,
}

impl From<NoMemory> for ConvertError {
    ghost use Rattle.std.specs.Prelude.{◌≡◌};
    ghost use Rattle.zcp_convert.specs.declared.error.ConvertError.TheVariants as error;

    ghost from_gives = { λ _ e. e ≡ error.NoMemory };

    fn from(_error: NoMemory) -> ConvertError {
        ConvertError::NoMemory
    }
}

impl From<AllocError> for ConvertError {
    ghost use Rattle.std.specs.Prelude.{◌≡◌};
    ghost use Rattle.zcp_convert.specs.declared.error.ConvertError.TheVariants as error;

    ghost from_gives = { λ _ e. e ≡ error.NoMemory };

    fn from(_error: AllocError) -> ConvertError {
        ConvertError::NoMemory
    }
}
