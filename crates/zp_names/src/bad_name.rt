//! Why a text is no name.

use std::alloc::AllocError;
use zc_io::NoMemory;

/// Why a text is no name, with the place, from 0, of the byte where it goes wrong, or with what there is too much of.
/// The rules are those of `zfs_namecheck.c` of OpenZFS.
#[derive(Clone, Copy, Debug, PartialEq, Eq, Drop)]
pub enum BadName {
    /// No byte at all.
    Empty,
    /// More than 255 bytes, with their number.
    TooLong(u64),
    /// A byte that cannot stand here.
    BadByte(u64),
    /// A part or a short name without bytes, at the place where it would start.
    EmptyPart(u64),
    /// A second mark.
    TwoMarks(u64),
    /// More than 50 parts, with their number.
    TooDeep(u64),
    /// There was no memory left.
    NoMemory,
}

impl From<NoMemory> for BadName {
    ghost use Rattle.std.specs.Prelude.{◌≡◌};
    ghost use Rattle.zp_names.specs.declared.bad_name.BadName.{BadName};

    ghost from_gives = { λ _ e. e ≡ BadName.NoMemory };

    fn from(_error: NoMemory) -> BadName {
        BadName::NoMemory
    }
}

impl From<AllocError> for BadName {
    ghost use Rattle.std.specs.Prelude.{◌≡◌};
    ghost use Rattle.zp_names.specs.declared.bad_name.BadName.{BadName};

    ghost from_gives = { λ _ e. e ≡ BadName.NoMemory };

    fn from(_error: AllocError) -> BadName {
        BadName::NoMemory
    }
}
