//! The check of `snapshot`: zfs-snapshot(8).

ghost use Rattle.std.specs.Prelude.{◌≡◌, IfOk};
ghost use Rattle.zp_tree.specs.WellFormed.{IsWellFormed};
ghost use Rattle.zp_tree.specs.TakeSnapshot.{snapshot_check};

use std::alloc::Global;
use zc_io::NoMemory;
use zp_names::errno::{EEXIST, EINVAL, ENOENT, ENOSPC};
use zp_names::{Form, Name, Verdict};
use zp_tree::{Datasets, Item, exists, is_full, named};

/// Whether a snapshot of this name can be taken.
pub(crate) fn check<T: Datasets>(alloc: Global, tree: &T, name: &Name) -> Result<Verdict, NoMemory>
    requires { IsWellFormed (T.tree tree.now) }
    ensures { IfOk result (λ verdict. verdict ≡ snapshot_check (T.tree tree.now) name.now) }
{
    if name.form() != Form::Snap {
        return Ok(Verdict::plain(alloc, EINVAL));
    }
    let head = name.head_name(alloc)?;
    let Some(Item::Head(_)) = named(tree, &head) else {
        return Ok(Verdict::plain(alloc, ENOENT));
    };
    if exists(tree, name) {
        return Ok(Verdict::plain(alloc, EEXIST));
    }
    if is_full(tree) {
        return Ok(Verdict::plain(alloc, ENOSPC));
    }
    Ok(Verdict::plain(alloc, 0))
}
