//! The error numbers of Linux that a check can answer: errno(3).

ghost use Rattle.std.specs.Prelude.{◌≡◌};
ghost use Rattle.zp_names.specs.ErrorNumbers.{enoent, ebusy, eexist, einval, enospc, enametoolong, esrch, e2big, erofs};

/// No such dataset.
pub const ENOENT: u32 = 2;

/// The dataset is in use.
pub const EBUSY: u32 = 16;

/// There is such a dataset already.
pub const EEXIST: u32 = 17;

/// The command does not fit what it names.
pub const EINVAL: u32 = 22;

/// A limit would be passed.
pub const ENOSPC: u32 = 28;

/// A name would be too long, or too deep.
pub const ENAMETOOLONG: u32 = 36;

/// No such reference.
pub const ESRCH: u32 = 3;

/// A value is too long.
pub const E2BIG: u32 = 7;

/// The dataset cannot be written.
pub const EROFS: u32 = 30;

/// A law: the constants are Linux's numbers.
pub fn are_numbers_of_linux()
    ensures enoent { ENOENT ≡ enoent }
    ensures ebusy { EBUSY ≡ ebusy }
    ensures eexist { EEXIST ≡ eexist }
    ensures einval { EINVAL ≡ einval }
    ensures enospc { ENOSPC ≡ enospc }
    ensures enametoolong { ENAMETOOLONG ≡ enametoolong }
    ensures esrch { ESRCH ≡ esrch }
    ensures e2big { E2BIG ≡ e2big }
    ensures erofs { EROFS ≡ erofs }
{}
