//! The check of `hold`: zfs-hold(8).

ghost use Rattle.std.specs.Prelude.{◌≡◌};
ghost use Rattle.zp_tree.specs.WellFormed.{IsWellFormed};
ghost use Rattle.zp_tree.specs.PlaceHold.{hold_check};

use std::alloc::Global;
use zp_names::errno::{EEXIST, EINVAL, ENOENT};
use zp_names::{Form, Name, Verdict};
use zp_tree::{Datasets, Item, has_tag, is_tag, named};

/// Whether a user reference with this tag can be placed on the snapshot of this name.
pub(crate) fn check<T: Datasets>(alloc: Global, tree: &T, name: &Name, tag: &[u8]) -> Verdict
    requires { IsWellFormed (T.tree tree.now) }
    ensures { result ≡ hold_check (T.tree tree.now) name.now tag.now }
{
    if name.form() != Form::Snap || !is_tag(tag) {
        return Verdict::plain(alloc, EINVAL);
    }
    let Some(Item::Snap(snapshot)) = named(tree, name) else {
        return Verdict::plain(alloc, ENOENT);
    };
    if has_tag(snapshot, tag) {
        return Verdict::plain(alloc, EEXIST);
    }
    Verdict::plain(alloc, 0)
}
