//! The check of `mount`: zfs-mount(8).

ghost use Rattle.std.specs.Prelude.{◌≡◌};
ghost use Rattle.zp_tree.specs.WellFormed.{IsWellFormed};
ghost use Rattle.zp_tree.specs.Mount.{mount_check};

use std::alloc::Global;
use zp_names::errno::{EBUSY, EINVAL, ENOENT};
use zp_names::{Name, Verdict};
use zp_tree::{Datasets, HeadKind, Item, named};

/// Whether the file system of this name can be mounted.
pub(crate) fn check<T: Datasets>(alloc: Global, tree: &T, name: &Name) -> Verdict
    requires { IsWellFormed (T.tree tree.now) }
    ensures { result ≡ mount_check (T.tree tree.now) name.now }
{
    if !name.is_head() {
        return Verdict::plain(alloc, EINVAL);
    }
    let Some(Item::Head(head)) = named(tree, name) else {
        return Verdict::plain(alloc, ENOENT);
    };
    if head.kind == HeadKind::Volume {
        return Verdict::plain(alloc, EINVAL);
    }
    if head.mounted {
        return Verdict::plain(alloc, EBUSY);
    }
    Verdict::plain(alloc, 0)
}
