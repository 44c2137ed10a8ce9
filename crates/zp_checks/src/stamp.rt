//! The check of `stamp`: a dataset is written.

ghost use Rattle.std.specs.Prelude.{◌≡◌};
ghost use Rattle.zp_tree.specs.WellFormed.{IsWellFormed};
ghost use Rattle.zp_tree.specs.WriteStamp.{stamp_check};

use std::alloc::Global;
use zp_names::errno::{EINVAL, ENOENT, EROFS};
use zp_names::{Name, Verdict};
use zp_tree::{Datasets, Item, is_readonly, named};

/// Whether the dataset of this name can be written.
pub(crate) fn check<T: Datasets>(alloc: Global, tree: &T, name: &Name) -> Verdict
    requires { IsWellFormed (T.tree tree.now) }
    ensures { result ≡ stamp_check (T.tree tree.now) name.now }
{
    if !name.is_head() {
        return Verdict::plain(alloc, EINVAL);
    }
    let Some(Item::Head(head)) = named(tree, name) else {
        return Verdict::plain(alloc, ENOENT);
    };
    if is_readonly(tree, head) {
        return Verdict::plain(alloc, EROFS);
    }
    Verdict::plain(alloc, 0)
}
