//! Snapshots that are kept for their holds and clones: zfs-destroy(8), `-d`.

ghost use Rattle.std.specs.Prelude.{◌≡◌};
ghost use Rattle.zp_tree.specs.WellFormed.{AreRecords};
ghost use Rattle.zp_tree.specs.Destroy.{released};

use zp_tree::{Datasets, Item, has_clones, is_held};

/// Takes a snapshot out that was kept for its holds and clones, where it has none.
pub(crate) fn remove_released<T: Datasets>(tree: &mut T, id: u64)
    requires { AreRecords (T.tree tree.old) }
    ensures { T.tree tree.new ≡ released (T.tree tree.old) id }
{
    let Some(Item::Snap(snapshot)) = tree.item(id) else {
        return;
    };
    if snapshot.deferred && !is_held(snapshot) && !has_clones(tree, snapshot) {
        tree.remove(id);
    }
}
