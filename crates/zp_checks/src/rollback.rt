//! The check of `rollback`: zfs-rollback(8).

ghost use Rattle.std.specs.Prelude.{◌≡◌};
ghost use Rattle.zp_tree.specs.WellFormed.{IsWellFormed};
ghost use Rattle.zp_tree.specs.Rollback.{rollback_check};

use std::alloc::Global;
use zp_names::errno::{EBUSY, EINVAL, ENOENT};
use zp_names::{Name, Verdict};
use zp_tree::{Datasets, Item, named, rollback_source};

/// Whether the dataset of this name can be taken back.
pub(crate) fn check<T: Datasets>(alloc: Global, tree: &T, name: &Name) -> Verdict
    requires { IsWellFormed (T.tree tree.now) }
    ensures { result ≡ rollback_check (T.tree tree.now) name.now }
{
    if !name.is_head() {
        return Verdict::plain(alloc, EINVAL);
    }
    let Some(Item::Head(head)) = named(tree, name) else {
        return Verdict::plain(alloc, ENOENT);
    };
    if head.mounted {
        return Verdict::plain(alloc, EBUSY);
    }
    if rollback_source(tree, head).is_none() {
        return Verdict::plain(alloc, EINVAL);
    }
    Verdict::plain(alloc, 0)
}
