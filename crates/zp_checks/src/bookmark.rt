//! The check of `bookmark`: zfs-bookmark(8).

ghost use Rattle.std.specs.Prelude.{◌≡◌, IfOk};
ghost use Rattle.zp_tree.specs.WellFormed.{IsWellFormed};
ghost use Rattle.zp_tree.specs.MakeBookmark.{bookmark_check};

use std::alloc::Global;
use zc_io::NoMemory;
use zp_names::errno::{EEXIST, EINVAL, ENOENT, ENOSPC};
use zp_names::{Form, Name, Verdict};
use zp_tree::{Datasets, Item, exists, is_full, named, point_named};

/// Whether a bookmark of this name can be made from the snapshot or the bookmark `source`.
pub(crate) fn check<T: Datasets>(
    alloc: Global,
    tree: &T,
    source: &Name,
    name: &Name,
) -> Result<Verdict, NoMemory>
    requires { IsWellFormed (T.tree tree.now) }
    ensures { IfOk result (λ verdict. verdict ≡ bookmark_check (T.tree tree.now) source.now name.now) }
{
    if source.is_head() || name.form() != Form::Bookmark {
        return Ok(Verdict::plain(alloc, EINVAL));
    }
    if source.head() != name.head() {
        return Ok(Verdict::plain(alloc, EINVAL));
    }
    let head = name.head_name(alloc)?;
    let Some(Item::Head(_)) = named(tree, &head) else {
        return Ok(Verdict::plain(alloc, ENOENT));
    };
    let Some(_) = point_named(tree, source) else {
        return Ok(Verdict::plain(alloc, ENOENT));
    };
    if exists(tree, name) {
        return Ok(Verdict::plain(alloc, EEXIST));
    }
    if is_full(tree) {
        return Ok(Verdict::plain(alloc, ENOSPC));
    }
    Ok(Verdict::plain(alloc, 0))
}
