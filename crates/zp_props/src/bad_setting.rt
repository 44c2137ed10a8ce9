//! Why a text sets nothing.

use std::alloc::AllocError;
use zc_io::NoMemory;

/// Why a name and a text make no setting: zfs-set(8), zfsprops(7). The reasons come in this order.
#[derive(Clone, Copy, Debug, PartialEq, Eq, Drop)]
pub enum BadSetting {
    /// The name has a colon and is no name of a user property.
    BadUserName,
    /// No native property has this name.
    Unknown,
    /// The property is only told.
    ReadOnly,
    /// The property is not for datasets of this kind.
    NotForKind,
    /// The text is no value of the property; of a user property, it is not UTF-8.
    BadValue,
    /// The value of a user property has more than 1,024 bytes, with their number.
    TooLong(u64),
    /// There was no memory left.
    NoMemory,
}

impl From<NoMemory> for BadSetting {
    ghost use Rattle.std.specs.Prelude.{◌≡◌};
    ghost use Rattle.zp_props.specs.declared.bad_setting.BadSetting.{BadSetting};

    ghost from_gives = { λ _ e. e ≡ BadSetting.NoMemory };

    fn from(_error: NoMemory) -> BadSetting {
        BadSetting::NoMemory
    }
}
