//! The check of `create`: zfs-create(8).

ghost use Rattle.std.specs.Prelude.{◌≡◌, IfOk};
ghost use Rattle.zp_tree.specs.WellFormed.{IsWellFormed};
ghost use Rattle.zp_tree.specs.Create.{create_check};

use std::alloc::Global;
use zc_io::NoMemory;
use zp_names::errno::{EEXIST, EINVAL, ENOENT, ENOSPC};
use zp_names::{Name, Verdict};
use zp_tree::{Datasets, HeadKind, Item, exists, is_full, named};

/// Whether a file system of this name can be created.
pub(crate) fn check<T: Datasets>(alloc: Global, tree: &T, name: &Name) -> Result<Verdict, NoMemory>
    requires { IsWellFormed (T.tree tree.now) }
    ensures { IfOk result (λ verdict. verdict ≡ create_check (T.tree tree.now) name.now) }
{
    if !name.is_head() {
        return Ok(Verdict::plain(alloc, EINVAL));
    }
    if exists(tree, name) {
        return Ok(Verdict::plain(alloc, EEXIST));
    }
    let Some(parent) = name.parent_name(alloc)? else {
        return Ok(Verdict::plain(alloc, ENOENT));
    };
    let Some(Item::Head(parent)) = named(tree, &parent) else {
        return Ok(Verdict::plain(alloc, ENOENT));
    };
    if parent.kind == HeadKind::Volume {
        return Ok(Verdict::plain(alloc, EINVAL));
    }
    if is_full(tree) {
        return Ok(Verdict::plain(alloc, ENOSPC));
    }
    Ok(Verdict::plain(alloc, 0))
}
