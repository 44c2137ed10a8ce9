//! The change of `release`: zfs-release(8).

ghost use Rattle.std.specs.Prelude.{◌≡◌, IfOk, OnOk, OnErr};
ghost use Rattle.zp_tree.specs.WellFormed.{IsWellFormed};
ghost use Rattle.zp_tree.specs.Rows.{passed};
ghost use Rattle.zp_tree.specs.ReleaseHold.{without_hold, release_check, release_change};

use crate::deferred::remove_released;
use std::alloc::Global;
use zc_io::NoMemory;
use zp_names::Name;
use zp_tree::{Datasets, Item, Snapshot, holds_without, named};

/// The snapshot without the user reference of this tag.
fn without_hold(alloc: Global, snapshot: &Snapshot, tag: &[u8]) -> Result<Snapshot, NoMemory>
    ensures { IfOk result (λ left. left ≡ without_hold tag.now snapshot.now) }
{
    let holds = holds_without(alloc, snapshot.holds.as_slice(), tag)?;
    let mut left = snapshot.copy(alloc)?;
    left.holds = holds;
    Ok(left)
}

/// Takes a user reference off the snapshot of this name, which then goes where it was kept for its holds and clones alone.
pub(crate) fn apply<T: Datasets>(
    alloc: Global,
    tree: &mut T,
    name: &Name,
    tag: &[u8],
) -> Result<(), NoMemory>
    requires well { IsWellFormed (T.tree tree.old) }
    requires passed { release_check (T.tree tree.old) name.now tag.now ≡ passed }
    ensures ok { OnOk result (T.tree tree.new ≡ release_change (T.tree tree.old) name.now tag.now) }
    ensures well { IsWellFormed (T.tree tree.new) }
    ensures err { OnErr result (T.tree tree.new ≡ T.tree tree.old) }
{
    let Some(Item::Snap(snapshot)) = named(tree, name) else {
        return Ok(());
    };
    let id = snapshot.id;
    let left = without_hold(alloc, snapshot, tag)?;
    tree.replace(id, Item::Snap(left));
    remove_released(tree, id);
    Ok(())
}
