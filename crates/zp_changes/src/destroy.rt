//! The change of `destroy`: zfs-destroy(8). Only a snapshot that is marked takes memory.

ghost use Rattle.std.specs.Prelude.{◌≡◌, IsSome, OnOk, OnErr};
ghost use Rattle.std.specs.Option.{option_map_or};
ghost use Rattle.zp_tree.specs.Tree.{head_name, head_named, snapshot_named, bookmark_named, removed};
ghost use Rattle.zp_tree.specs.WellFormed.{AreRecords, IsWellFormed};
ghost use Rattle.zp_tree.specs.Rows.{passed};
ghost use Rattle.zp_tree.specs.Dependents.{without_bookmarks};
ghost use Rattle.zp_tree.specs.Destroy.{destroy_check, destroy_change, head_destroyed, snapshot_destroyed, without_head};

use crate::deferred::remove_released;
use std::alloc::Global;
use zc_io::NoMemory;
use zp_names::{Form, Name};
use zp_tree::{Datasets, Item, has_clones, is_held, named};

/// Destroys what has this name.
pub(crate) fn apply<T: Datasets>(
    alloc: Global,
    tree: &mut T,
    name: &Name,
    defer: bool,
) -> Result<(), NoMemory>
    requires well { IsWellFormed (T.tree tree.old) }
    requires passed { destroy_check (T.tree tree.old) name.now defer ≡ passed }
    ensures ok { OnOk result (T.tree tree.new ≡ destroy_change (T.tree tree.old) name.now defer) }
    ensures well { IsWellFormed (T.tree tree.new) }
    ensures err { OnErr result (T.tree tree.new ≡ T.tree tree.old) }
{
    match name.form() {
        Form::Head => {
            destroy_head(tree, name);
            Ok(())
        }
        Form::Snap => destroy_snapshot(alloc, tree, name, defer),
        Form::Bookmark => {
            destroy_bookmark(tree, name);
            Ok(())
        }
    }
}

/// Destroys the head of this name with its bookmarks, and its origin where that was kept for its clones alone.
#[tactic(auto, using(zp_tree::proofs::Depending::well_records))]
fn destroy_head<T: Datasets>(tree: &mut T, name: &Name)
    requires { IsWellFormed (T.tree tree.old) }
    ensures { let t = T.tree tree.old in T.tree tree.new ≡ option_map_or (head_destroyed t) (head_named t name.now) t }
{
    let Some(Item::Head(head)) = named(tree, name) else {
        return;
    };
    let id = head.id;
    let origin = head.origin;
    remove_head(tree, id);
    if let Some(origin) = origin {
        remove_released(tree, origin);
    }
}

/// Destroys the snapshot of this name, or marks it, where that is deferred and something keeps it.
#[tactic(auto, using(zp_tree::proofs::Depending::well_records))]
fn destroy_snapshot<T: Datasets>(
    alloc: Global,
    tree: &mut T,
    name: &Name,
    defer: bool,
) -> Result<(), NoMemory>
    requires { IsWellFormed (T.tree tree.old) }
    ensures ok { let t = T.tree tree.old in OnOk result (T.tree tree.new ≡ option_map_or (snapshot_destroyed t defer) (snapshot_named t name.now) t) }
    ensures err { OnErr result (T.tree tree.new ≡ T.tree tree.old) }
{
    let Some(Item::Snap(snapshot)) = named(tree, name) else {
        return Ok(());
    };
    let id = snapshot.id;
    if defer && (is_held(snapshot) || has_clones(tree, snapshot)) {
        let mut marked = snapshot.copy(alloc)?;
        marked.deferred = true;
        tree.replace(id, Item::Snap(marked));
        return Ok(());
    }
    tree.remove(id);
    Ok(())
}

/// Destroys the bookmark of this name.
fn destroy_bookmark<T: Datasets>(tree: &mut T, name: &Name)
    requires { IsWellFormed (T.tree tree.old) }
    ensures { let t = T.tree tree.old in T.tree tree.new ≡ option_map_or (λ m. removed t m.id) (bookmark_named t name.now) t }
{
    let Some(Item::Mark(bookmark)) = named(tree, name) else {
        return;
    };
    let id = bookmark.id;
    tree.remove(id);
}

/// Takes a head out with its bookmarks.
#[tactic(auto, using(crate::proofs::WithoutHead::head_left))]
fn remove_head<T: Datasets>(tree: &mut T, id: u64)
    requires records { AreRecords (T.tree tree.old) }
    requires there { IsSome (head_name (T.tree tree.old).records id) }
    ensures tree { T.tree tree.new ≡ without_head (T.tree tree.old) id }
    ensures records { AreRecords (T.tree tree.new) }
{
    remove_bookmarks(tree, id);
    tree.remove(id);
}

/// Takes the bookmarks of a head out.
fn remove_bookmarks<T: Datasets>(tree: &mut T, owner: u64)
    requires records { AreRecords (T.tree tree.old) }
    requires there { IsSome (head_name (T.tree tree.old).records owner) }
    ensures { T.tree tree.new ≡ without_bookmarks (T.tree tree.old) owner }
{
    while let Some(bookmark) = tree.marks_after(owner, b"") {
        tree.remove(bookmark);
    }
}
