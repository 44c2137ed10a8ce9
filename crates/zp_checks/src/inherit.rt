//! The check of `inherit`: zfs-inherit(8).

ghost use Rattle.std.specs.Prelude.{◌≡◌};
ghost use Rattle.zp_tree.specs.WellFormed.{IsWellFormed};
ghost use Rattle.zp_tree.specs.InheritProperty.{can_be_taken_away, inherit_check};

use crate::form::is_settable_name;
use std::alloc::Global;
use zp_names::errno::{EINVAL, ENOENT};
use zp_names::{Name, Verdict};
use zp_props::{Kind3, can_have, is_user_name, is_valid_user_name};
use zp_tree::{Datasets, named};

/// Whether a setting of this property can be taken away from a dataset of this kind.
fn can_be_taken_away(property: &[u8], kind: Kind3) -> bool
    ensures { result ≡ can_be_taken_away property.now kind }
{
    if is_user_name(property) {
        return is_valid_user_name(property);
    }
    can_have(kind, property) && property != b"volsize".as_slice()
}

/// Whether the dataset of this name can have the value from above or the default.
pub(crate) fn check<T: Datasets>(alloc: Global, tree: &T, name: &Name, property: &[u8]) -> Verdict
    requires { IsWellFormed (T.tree tree.now) }
    ensures { result ≡ inherit_check (T.tree tree.now) name.now property.now }
{
    if !is_settable_name(name) {
        return Verdict::plain(alloc, EINVAL);
    }
    let Some(item) = named(tree, name) else {
        return Verdict::plain(alloc, ENOENT);
    };
    let Some(kind) = item.kind() else {
        return Verdict::plain(alloc, ENOENT);
    };
    if !can_be_taken_away(property, kind) {
        return Verdict::plain(alloc, EINVAL);
    }
    Verdict::plain(alloc, 0)
}
