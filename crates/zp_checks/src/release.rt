//! The check of `release`: zfs-release(8).

ghost use Rattle.std.specs.Prelude.{◌≡◌};
ghost use Rattle.zp_tree.specs.WellFormed.{IsWellFormed};
ghost use Rattle.zp_tree.specs.ReleaseHold.{release_check};

use std::alloc::Global;
use zp_names::errno::{EINVAL, ENOENT, ESRCH};
use zp_names::{Form, Name, Verdict};
use zp_tree::{Datasets, Item, has_tag, named};

/// Whether the user reference with this tag can be taken off the snapshot of this name.
pub(crate) fn check<T: Datasets>(alloc: Global, tree: &T, name: &Name, tag: &[u8]) -> Verdict
    requires { IsWellFormed (T.tree tree.now) }
    ensures { result ≡ release_check (T.tree tree.now) name.now tag.now }
{
    if name.form() != Form::Snap {
        return Verdict::plain(alloc, EINVAL);
    }
    let Some(Item::Snap(snapshot)) = named(tree, name) else {
        return Verdict::plain(alloc, ENOENT);
    };
    if !has_tag(snapshot, tag) {
        return Verdict::plain(alloc, ESRCH);
    }
    Verdict::plain(alloc, 0)
}
