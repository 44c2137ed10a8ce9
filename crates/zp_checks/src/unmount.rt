//! The check of `unmount`: zfs-unmount(8).

ghost use Rattle.std.specs.Prelude.{◌≡◌};
ghost use Rattle.zp_tree.specs.WellFormed.{IsWellFormed};
ghost use Rattle.zp_tree.specs.Unmount.{unmount_check};

use std::alloc::Global;
use zp_names::errno::{EINVAL, ENOENT};
use zp_names::{Name, Verdict};
use zp_tree::{Datasets, Item, named};

/// Whether the file system of this name can be unmounted.
pub(crate) fn check<T: Datasets>(alloc: Global, tree: &T, name: &Name) -> Verdict
    requires { IsWellFormed (T.tree tree.now) }
    ensures { result ≡ unmount_check (T.tree tree.now) name.now }
{
    if !name.is_head() {
        return Verdict::plain(alloc, EINVAL);
    }
    let Some(Item::Head(head)) = named(tree, name) else {
        return Verdict::plain(alloc, ENOENT);
    };
    if !head.mounted {
        return Verdict::plain(alloc, EINVAL);
    }
    Verdict::plain(alloc, 0)
}
