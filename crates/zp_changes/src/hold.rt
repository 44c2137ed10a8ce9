//! The change of `hold`: zfs-hold(8).

ghost use Rattle.std.specs.Prelude.{◌≡◌, OnOk, OnErr};
ghost use Rattle.zp_tree.specs.WellFormed.{IsWellFormed};
ghost use Rattle.zp_tree.specs.Rows.{passed};
ghost use Rattle.zp_tree.specs.PlaceHold.{hold_check, hold_change};

use std::alloc::Global;
use zc_io::NoMemory;
use zp_names::{Bytes, Name};
use zp_tree::{Datasets, Hold, Item, named};

/// Places a user reference on the snapshot of this name, at a moment in seconds.
pub(crate) fn apply<T: Datasets>(
    alloc: Global,
    tree: &mut T,
    name: &Name,
    tag: &[u8],
    now: u64,
) -> Result<(), NoMemory>
    requires well { IsWellFormed (T.tree tree.old) }
    requires passed { hold_check (T.tree tree.old) name.now tag.now ≡ passed }
    ensures ok { OnOk result (T.tree tree.new ≡ hold_change (T.tree tree.old) name.now tag.now now) }
    ensures well { IsWellFormed (T.tree tree.new) }
    ensures err { OnErr result (T.tree tree.new ≡ T.tree tree.old) }
{
    let Some(Item::Snap(snapshot)) = named(tree, name) else {
        return Ok(());
    };
    let id = snapshot.id;
    let mut snapshot = snapshot.copy(alloc)?;
    let tag = Bytes::from_bytes(alloc, tag)?;
    snapshot.holds.push(Hold { tag, at: now })?;
    tree.replace(id, Item::Snap(snapshot));
    Ok(())
}
