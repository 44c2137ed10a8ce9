//! The check of `clone`: zfs-clone(8).

ghost use Rattle.std.specs.Prelude.{◌≡◌, IfOk};
ghost use Rattle.zp_tree.specs.WellFormed.{IsWellFormed};
ghost use Rattle.zp_tree.specs.MakeClone.{clone_check};

use std::alloc::Global;
use zc_io::NoMemory;
use zp_names::errno::{EEXIST, EINVAL, ENOENT, ENOSPC};
use zp_names::{Form, Name, Verdict};
use zp_tree::{Datasets, HeadKind, Item, exists, is_full, named};

/// Whether a clone of this name can be made from a snapshot.
pub(crate) fn check<T: Datasets>(
    alloc: Global,
    tree: &T,
    source: &Name,
    name: &Name,
) -> Result<Verdict, NoMemory>
    requires { IsWellFormed (T.tree tree.now) }
    ensures { IfOk result (λ verdict. verdict ≡ clone_check (T.tree tree.now) source.now name.now) }
{
    if source.form() != Form::Snap || !name.is_head() {
        return Ok(Verdict::plain(alloc, EINVAL));
    }
    if exists(tree, name) {
        return Ok(Verdict::plain(alloc, EEXIST));
    }
    let Some(parent) = name.parent_name(alloc)? else {
        return Ok(Verdict::plain(alloc, ENOENT));
    };
    let Some(Item::Head(parent)) = named(tree, &parent) else {
        return Ok(Verdict::plain(alloc, ENOENT));
    };
    if parent.kind == HeadKind::Volume {
        return Ok(Verdict::plain(alloc, EINVAL));
    }
    let Some(Item::Snap(_)) = named(tree, source) else {
        return Ok(Verdict::plain(alloc, ENOENT));
    };
    if is_full(tree) {
        return Ok(Verdict::plain(alloc, ENOSPC));
    }
    Ok(Verdict::plain(alloc, 0))
}
