//! The check of `destroy`: zfs-destroy(8).

ghost use Rattle.std.specs.Prelude.{◌≡◌};
ghost use Rattle.zp_names.specs.declared.form.Form.TheVariants as form;
ghost use Rattle.zp_tree.specs.WellFormed.{IsWellFormed};
ghost use Rattle.zp_tree.specs.Rows.{first_row};
ghost use Rattle.zp_tree.specs.Destroy.{destroy_check, destroy_rows_of};

use std::alloc::Global;
use zp_names::errno::{EBUSY, EEXIST, EINVAL, ENOENT};
use zp_names::{Form, Name, Verdict};
use zp_tree::{Datasets, Item, has_children, has_clones, has_snapshots, is_held, named};

/// Whether what has this name can be destroyed.
pub(crate) fn check<T: Datasets>(alloc: Global, tree: &T, name: &Name, defer: bool) -> Verdict
    requires { IsWellFormed (T.tree tree.now) }
    ensures { result ≡ destroy_check (T.tree tree.now) name.now defer }
{
    match name.form() {
        Form::Head => check_head(alloc, tree, name, defer),
        Form::Snap => check_snapshot(alloc, tree, name, defer),
        Form::Bookmark => check_bookmark(alloc, tree, name, defer),
    }
}

/// Whether the file system or volume of this name can be destroyed.
#[tactic(auto, using(zp_tree::proofs::Depending::well_records))]
fn check_head<T: Datasets>(alloc: Global, tree: &T, name: &Name, defer: bool) -> Verdict
    requires { IsWellFormed (T.tree tree.now) }
    ensures { result ≡ first_row (destroy_rows_of form.Head (T.tree tree.now) name.now defer) }
{
    if defer {
        return Verdict::plain(alloc, EINVAL);
    }
    let Some(Item::Head(head)) = named(tree, name) else {
        return Verdict::plain(alloc, ENOENT);
    };
    if name.is_pool() || head.mounted || has_snapshots(tree, head) {
        return Verdict::plain(alloc, EBUSY);
    }
    if has_children(tree, head) {
        return Verdict::plain(alloc, EEXIST);
    }
    Verdict::plain(alloc, 0)
}

/// Whether the snapshot of this name can be destroyed.
#[tactic(auto, using(zp_tree::proofs::Depending::well_records))]
fn check_snapshot<T: Datasets>(alloc: Global, tree: &T, name: &Name, defer: bool) -> Verdict
    requires { IsWellFormed (T.tree tree.now) }
    ensures { result ≡ first_row (destroy_rows_of form.Snap (T.tree tree.now) name.now defer) }
{
    let Some(Item::Snap(snapshot)) = named(tree, name) else {
        return Verdict::plain(alloc, ENOENT);
    };
    if defer {
        return Verdict::plain(alloc, 0);
    }
    if is_held(snapshot) {
        return Verdict::plain(alloc, EBUSY);
    }
    if has_clones(tree, snapshot) {
        return Verdict::plain(alloc, EEXIST);
    }
    Verdict::plain(alloc, 0)
}

/// Whether the bookmark of this name can be destroyed.
fn check_bookmark<T: Datasets>(alloc: Global, tree: &T, name: &Name, defer: bool) -> Verdict
    requires { IsWellFormed (T.tree tree.now) }
    ensures { result ≡ first_row (destroy_rows_of form.Bookmark (T.tree tree.now) name.now defer) }
{
    if defer {
        return Verdict::plain(alloc, EINVAL);
    }
    let Some(Item::Mark(_)) = named(tree, name) else {
        return Verdict::plain(alloc, ENOENT);
    };
    Verdict::plain(alloc, 0)
}
