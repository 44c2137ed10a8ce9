//! The change of `snapshot`: zfs-snapshot(8).

ghost use Rattle.std.specs.Prelude.{◌≡◌, OnOk, OnErr};
ghost use Rattle.zp_tree.specs.WellFormed.{IsWellFormed};
ghost use Rattle.zp_tree.specs.Rows.{passed};
ghost use Rattle.zp_tree.specs.TakeSnapshot.{snapshot_check, snapshot_change};

use std::alloc::Global;
use zc_io::NoMemory;
use zp_names::{Bytes, Name};
use zp_props::Settings;
use zp_tree::{Datasets, Holds, Item, Snapshot, named};

/// Takes a snapshot of this name.
pub(crate) fn apply<T: Datasets>(
    alloc: Global,
    tree: &mut T,
    name: &Name,
    txg: u64,
) -> Result<(), NoMemory>
    requires well { IsWellFormed (T.tree tree.old) }
    requires passed { snapshot_check (T.tree tree.old) name.now ≡ passed }
    ensures ok { OnOk result (T.tree tree.new ≡ snapshot_change (T.tree tree.old) name.now txg) }
    ensures well { IsWellFormed (T.tree tree.new) }
    ensures err { OnErr result (T.tree tree.new ≡ T.tree tree.old) }
{
    let owner = name.head_name(alloc)?;
    let Some(Item::Head(head)) = named(tree, &owner) else {
        return Ok(());
    };
    let snapshot = Snapshot {
        id: tree.next_id(),
        owner: head.id,
        short: Bytes::from_bytes(alloc, name.short().as_bytes())?,
        settings: Settings::new(alloc),
        stamp: head.stamp,
        createtxg: txg,
        deferred: false,
        holds: Holds::new(alloc),
    };
    tree.reserve(1)?;
    tree.add(Item::Snap(snapshot));
    Ok(())
}
