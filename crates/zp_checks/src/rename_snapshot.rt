//! The check of `rename_snapshot`: zfs-rename(8).

ghost use Rattle.std.specs.Prelude.{◌≡◌, true, false, IfOk, MatchOption};
ghost use Rattle.zp_tree.specs.WellFormed.{IsWellFormed};
ghost use Rattle.zp_tree.specs.RenameSnapshot.{rename_snapshot_check, is_short_in};
ghost use Rattle.zp_names.specs.NameParts.{snapshot_name};

use std::alloc::Global;
use zc_io::NoMemory;
use zp_names::errno::{EEXIST, EINVAL, ENOENT};
use zp_names::{Name, Verdict, is_valid_short};
use zp_tree::{Datasets, Item, exists, named};

/// The full name, where the short name is valid and stands behind this head's name.
fn name_in(alloc: Global, head: &Name, short: &[u8]) -> Result<Option<Name>, NoMemory>
    ensures { IfOk result (λ name. MatchOption name (is_short_in head.now short.now ≡ false)
        (λ n. (is_short_in head.now short.now ≡ true) × (n ≡ snapshot_name head.now short.now))) }
{
    if !is_valid_short(short) {
        return Ok(None);
    }
    head.snapshot_name(alloc, short)
}

/// Whether a snapshot of this head can be renamed from one short name to another.
pub(crate) fn check<T: Datasets>(
    alloc: Global,
    tree: &T,
    name: &Name,
    old: &[u8],
    new: &[u8],
) -> Result<Verdict, NoMemory>
    requires { IsWellFormed (T.tree tree.now) }
    ensures { IfOk result (λ verdict. verdict ≡ rename_snapshot_check (T.tree tree.now) name.now old.now new.now) }
{
    if !name.is_head() {
        return Ok(Verdict::plain(alloc, EINVAL));
    }
    let Some(old) = name_in(alloc, name, old)? else {
        return Ok(Verdict::plain(alloc, EINVAL));
    };
    let Some(new) = name_in(alloc, name, new)? else {
        return Ok(Verdict::plain(alloc, EINVAL));
    };
    let Some(Item::Head(_)) = named(tree, name) else {
        return Ok(Verdict::plain(alloc, ENOENT));
    };
    let Some(Item::Snap(_)) = named(tree, &old) else {
        return Ok(Verdict::plain(alloc, ENOENT));
    };
    if exists(tree, &new) {
        return Ok(Verdict::plain(alloc, EEXIST));
    }
    Ok(Verdict::plain(alloc, 0))
}
