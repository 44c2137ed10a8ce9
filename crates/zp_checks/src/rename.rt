//! The check of `rename`: zfs-rename(8).

ghost use Rattle.std.specs.Prelude.{◌≡◌, ◌+◌, true, false, length, slice_get, IfOk};
ghost use Rattle.std.specs.List.{list_any};
ghost use Rattle.std.specs.Option.{option_map_or};
ghost use Rattle.zp_names.specs.Names.{is_head};
ghost use Rattle.zp_names.specs.NameMoves.{outgrows};
ghost use Rattle.zp_tree.specs.Tree.{head_name};
ghost use Rattle.zp_tree.specs.WellFormed.{IsWellFormed};
ghost use Rattle.zp_tree.specs.Rename.{would_outgrow, rename_check};

use std::alloc::Global;
use zc_io::NoMemory;
use zp_names::errno::{EEXIST, EINVAL, ENAMETOOLONG, ENOENT};
use zp_names::{Name, Verdict};
use zp_tree::{Datasets, HeadKind, Item, exists, named};

/// Whether the full name of a record of this head would be too long or too deep, with its mark and short name.
fn owned_would_outgrow<T: Datasets>(
    tree: &T,
    owner: u64,
    short: &[u8],
    name: &Name,
    to: &Name,
) -> bool
    requires name { is_head name.now ≡ true }
    requires to { is_head to.now ≡ true }
    ensures { result ≡ option_map_or (λ n. outgrows name.now to.now n (length short.now + 1)) (head_name (T.tree tree.now).records owner) false }
{
    match tree.item(owner) {
        Some(Item::Head(head)) => head.name.outgrows(name, to, short.len() + 1),
        _ => false,
    }
}

/// Whether the rename would make the full name of this record too long or too deep.
fn would_outgrow<T: Datasets>(tree: &T, item: &Item, name: &Name, to: &Name) -> bool
    requires name { is_head name.now ≡ true }
    requires to { is_head to.now ≡ true }
    ensures { result ≡ would_outgrow (T.tree tree.now).records name.now to.now item.now }
{
    match item {
        Item::Head(head) => head.name.outgrows(name, to, 0),
        Item::Snap(snapshot) => {
            owned_would_outgrow(tree, snapshot.owner, snapshot.short.as_slice(), name, to)
        }
        Item::Mark(bookmark) => {
            owned_would_outgrow(tree, bookmark.owner, bookmark.short.as_slice(), name, to)
        }
    }
}

/// Whether the record at this place would outgrow what a name can be.
fn nth_would_outgrow<T: Datasets>(tree: &T, place: u64, name: &Name, to: &Name) -> bool
    requires name { is_head name.now ≡ true }
    requires to { is_head to.now ≡ true }
    ensures { result ≡ option_map_or (would_outgrow (T.tree tree.now).records name.now to.now) (slice_get (T.tree tree.now).records place) false }
{
    match tree.nth(place) {
        Some(item) => would_outgrow(tree, item, name, to),
        None => false,
    }
}

/// Whether the rename would make any full name too long or too deep.
fn any_would_outgrow<T: Datasets>(tree: &T, name: &Name, to: &Name) -> bool
    requires name { is_head name.now ≡ true }
    requires to { is_head to.now ≡ true }
    ensures { result ≡ list_any (would_outgrow (T.tree tree.now).records name.now to.now) (T.tree tree.now).records }
{
    for place in 0..tree.len() {
        if nth_would_outgrow(tree, place, name, to) {
            return true;
        }
    }
    false
}

/// Whether the dataset of this name can be renamed, with all that is below it.
pub(crate) fn check<T: Datasets>(
    alloc: Global,
    tree: &T,
    name: &Name,
    to: &Name,
) -> Result<Verdict, NoMemory>
    requires { IsWellFormed (T.tree tree.now) }
    ensures { IfOk result (λ verdict. verdict ≡ rename_check (T.tree tree.now) name.now to.now) }
{
    if !name.is_head() || !to.is_head() {
        return Ok(Verdict::plain(alloc, EINVAL));
    }
    let Some(Item::Head(_)) = named(tree, name) else {
        return Ok(Verdict::plain(alloc, ENOENT));
    };
    if name.is_pool() {
        return Ok(Verdict::plain(alloc, EINVAL));
    }
    if exists(tree, to) {
        return Ok(Verdict::plain(alloc, EEXIST));
    }
    if to.is_below(name) {
        return Ok(Verdict::plain(alloc, EINVAL));
    }
    let Some(parent) = to.parent_name(alloc)? else {
        return Ok(Verdict::plain(alloc, ENOENT));
    };
    let Some(Item::Head(parent)) = named(tree, &parent) else {
        return Ok(Verdict::plain(alloc, ENOENT));
    };
    if parent.kind == HeadKind::Volume {
        return Ok(Verdict::plain(alloc, EINVAL));
    }
    if any_would_outgrow(tree, name, to) {
        return Ok(Verdict::plain(alloc, ENAMETOOLONG));
    }
    Ok(Verdict::plain(alloc, 0))
}
