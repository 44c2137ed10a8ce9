//! What stands or falls with a record.

ghost use Rattle.std.specs.Prelude.{◌≡◌, Some};
ghost use Rattle.zp_tree.specs.declared.item.Item.TheVariants as item;
ghost use Rattle.zp_tree.specs.Tree.{at};
ghost use Rattle.zp_tree.specs.Dependents.{has_children, has_snapshots, has_clones, is_held};
ghost use Rattle.zp_tree.specs.WellFormed.{AreRecords};

use crate::{Datasets, Head, Snapshot};

/// Whether a head stands right below this one, which is in the tree.
#[tactic(auto, using(crate::proofs::Depending::children_there))]
pub fn has_children<T: Datasets>(tree: &T, head: &Head) -> bool
    requires records { AreRecords (T.tree tree.now) }
    requires there { at (T.tree tree.now).records head.now.id ≡ Some (item.Head head.now) }
    ensures { result ≡ has_children (T.tree tree.now) head.now }
{
    tree.heads_after(head.id, b"").is_some()
}

/// Whether this head, which is in the tree, has a snapshot.
#[tactic(auto, using(crate::proofs::Depending::snapshots_there))]
pub fn has_snapshots<T: Datasets>(tree: &T, head: &Head) -> bool
    requires there { at (T.tree tree.now).records head.now.id ≡ Some (item.Head head.now) }
    ensures { result ≡ has_snapshots (T.tree tree.now) head.now }
{
    tree.snaps_after(head.id, b"").is_some()
}

/// Whether a head has this snapshot as origin.
#[tactic(auto, using(crate::proofs::Depending::clones_there))]
pub fn has_clones<T: Datasets>(tree: &T, snapshot: &Snapshot) -> bool
    requires records { AreRecords (T.tree tree.now) }
    ensures { result ≡ has_clones (T.tree tree.now) snapshot.now }
{
    tree.clones_after(snapshot.id, b"").is_some()
}

/// Whether a user reference is on the snapshot: zfs-hold(8).
pub fn is_held(snapshot: &Snapshot) -> bool
    ensures { result ≡ is_held snapshot.now }
{
    !snapshot.holds.as_slice().is_empty()
}
