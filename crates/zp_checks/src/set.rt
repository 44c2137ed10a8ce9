//! The check of `set`: zfs-set(8).

ghost use Rattle.std.specs.Prelude.{◌≡◌, IfOk};
ghost use Rattle.zp_tree.specs.WellFormed.{IsWellFormed};
ghost use Rattle.zp_tree.specs.SetProperty.{is_one_too_many, set_check};

use crate::form::is_settable_name;
use std::alloc::Global;
use zc_io::NoMemory;
use zp_names::errno::{E2BIG, EINVAL, ENOENT, ENOSPC};
use zp_names::{Name, Verdict};
use zp_props::{Setting, is_too_long, is_user_name, setting_named, setting_or_refusal};
use zp_tree::{Datasets, MOST_USER_SETTINGS, named};

/// Whether the property is a user property more, where all datasets together have as many as there may be.
fn is_one_too_many<T: Datasets>(tree: &T, settings: &[Setting], property: &[u8]) -> bool
    requires { IsWellFormed (T.tree tree.now) }
    ensures { result ≡ is_one_too_many (T.tree tree.now) settings.now property.now }
{
    is_user_name(property)
        && setting_named(settings, property).is_none()
        && tree.user_settings() >= MOST_USER_SETTINGS
}

/// Whether a property of the dataset of this name can be set to the value that a text is.
pub(crate) fn check<T: Datasets>(
    alloc: Global,
    tree: &T,
    name: &Name,
    property: &[u8],
    value: &[u8],
) -> Result<Verdict, NoMemory>
    requires { IsWellFormed (T.tree tree.now) }
    ensures { IfOk result (λ verdict. verdict ≡ set_check (T.tree tree.now) name.now property.now value.now) }
{
    if !is_settable_name(name) {
        return Ok(Verdict::plain(alloc, EINVAL));
    }
    let Some(item) = named(tree, name) else {
        return Ok(Verdict::plain(alloc, ENOENT));
    };
    let Some(kind) = item.kind() else {
        return Ok(Verdict::plain(alloc, ENOENT));
    };
    let read = setting_or_refusal(alloc, kind, property, value)?;
    if is_too_long(&read) {
        return Ok(Verdict::plain(alloc, E2BIG));
    }
    if read.is_err() {
        return Ok(Verdict::plain(alloc, EINVAL));
    }
    if is_one_too_many(tree, item.settings(), property) {
        return Ok(Verdict::plain(alloc, ENOSPC));
    }
    Ok(Verdict::plain(alloc, 0))
}
