//! The change of `rollback`: zfs-rollback(8).

ghost use Rattle.std.specs.Prelude.{◌≡◌, OnOk, OnErr};
ghost use Rattle.zp_tree.specs.WellFormed.{IsWellFormed};
ghost use Rattle.zp_tree.specs.Rows.{passed};
ghost use Rattle.zp_tree.specs.Rollback.{rollback_check, rollback_change};

use std::alloc::Global;
use zc_io::NoMemory;
use zp_names::Name;
use zp_tree::{Datasets, Item, named, rollback_source};

/// Gives the dataset of this name the stamp of its latest snapshot, else of its origin.
pub(crate) fn apply<T: Datasets>(alloc: Global, tree: &mut T, name: &Name) -> Result<(), NoMemory>
    requires well { IsWellFormed (T.tree tree.old) }
    requires passed { rollback_check (T.tree tree.old) name.now ≡ passed }
    ensures ok { OnOk result (T.tree tree.new ≡ rollback_change (T.tree tree.old) name.now) }
    ensures well { IsWellFormed (T.tree tree.new) }
    ensures err { OnErr result (T.tree tree.new ≡ T.tree tree.old) }
{
    let Some(Item::Head(head)) = named(tree, name) else {
        return Ok(());
    };
    let Some(source) = rollback_source(tree, head) else {
        return Ok(());
    };
    let id = head.id;
    let stamp = source.stamp;
    let mut head = head.copy(alloc)?;
    head.stamp = stamp;
    tree.replace(id, Item::Head(head));
    Ok(())
}
