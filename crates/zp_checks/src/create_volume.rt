//! The check of `create_volume`: zfs-create(8), `-V`.

ghost use Rattle.std.specs.Prelude.{◌≡◌, IfOk};
ghost use Rattle.zp_tree.specs.WellFormed.{IsWellFormed};
ghost use Rattle.zp_tree.specs.CreateVolume.{create_volume_check};

use crate::create;
use std::alloc::Global;
use zc_io::NoMemory;
use zp_names::errno::EINVAL;
use zp_names::{Name, Verdict};
use zp_tree::Datasets;

/// How many bytes a block of a volume has.
const BLOCK: u64 = 512;

/// Whether a volume of this name and this size in bytes can be created.
pub(crate) fn check<T: Datasets>(
    alloc: Global,
    tree: &T,
    name: &Name,
    volsize: u64,
) -> Result<Verdict, NoMemory>
    requires { IsWellFormed (T.tree tree.now) }
    ensures { IfOk result (λ verdict. verdict ≡ create_volume_check (T.tree tree.now) name.now volsize) }
{
    if volsize % BLOCK != 0 {
        return Ok(Verdict::plain(alloc, EINVAL));
    }
    create::check(alloc, tree, name)
}
