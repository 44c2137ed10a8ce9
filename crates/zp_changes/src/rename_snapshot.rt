//! The change of `rename_snapshot`: zfs-rename(8).

ghost use Rattle.std.specs.Prelude.{◌≡◌, OnOk, OnErr};
ghost use Rattle.zp_tree.specs.WellFormed.{IsWellFormed};
ghost use Rattle.zp_tree.specs.Rows.{passed};
ghost use Rattle.zp_tree.specs.RenameSnapshot.{rename_snapshot_check, rename_snapshot_change};

use std::alloc::Global;
use zc_io::NoMemory;
use zp_names::{Bytes, Name};
use zp_tree::{Datasets, Item, named};

/// Renames a snapshot of this head from one short name to another.
pub(crate) fn apply<T: Datasets>(
    alloc: Global,
    tree: &mut T,
    name: &Name,
    old: &[u8],
    new: &[u8],
) -> Result<(), NoMemory>
    requires well { IsWellFormed (T.tree tree.old) }
    requires passed { rename_snapshot_check (T.tree tree.old) name.now old.now new.now ≡ passed }
    ensures ok { OnOk result (T.tree tree.new ≡ rename_snapshot_change (T.tree tree.old) name.now old.now new.now) }
    ensures well { IsWellFormed (T.tree tree.new) }
    ensures err { OnErr result (T.tree tree.new ≡ T.tree tree.old) }
{
    let Some(full) = name.snapshot_name(alloc, old)? else {
        return Ok(());
    };
    let Some(Item::Snap(snapshot)) = named(tree, &full) else {
        return Ok(());
    };
    let id = snapshot.id;
    let mut snapshot = snapshot.copy(alloc)?;
    snapshot.short = Bytes::from_bytes(alloc, new)?;
    tree.replace(id, Item::Snap(snapshot));
    Ok(())
}
