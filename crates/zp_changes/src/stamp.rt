//! The change of `stamp`: a dataset is written.

ghost use Rattle.std.specs.Prelude.{◌≡◌, OnOk, OnErr};
ghost use Rattle.zp_tree.specs.WellFormed.{IsWellFormed};
ghost use Rattle.zp_tree.specs.Rows.{passed};
ghost use Rattle.zp_tree.specs.WriteStamp.{stamp_check, stamp_change};

use std::alloc::Global;
use zc_io::NoMemory;
use zp_names::Name;
use zp_tree::{Datasets, Item, named};

/// Writes the dataset of this name.
pub(crate) fn apply<T: Datasets>(
    alloc: Global,
    tree: &mut T,
    name: &Name,
    value: u64,
) -> Result<(), NoMemory>
    requires well { IsWellFormed (T.tree tree.old) }
    requires passed { stamp_check (T.tree tree.old) name.now ≡ passed }
    ensures ok { OnOk result (T.tree tree.new ≡ stamp_change (T.tree tree.old) name.now value) }
    ensures well { IsWellFormed (T.tree tree.new) }
    ensures err { OnErr result (T.tree tree.new ≡ T.tree tree.old) }
{
    let Some(Item::Head(head)) = named(tree, name) else {
        return Ok(());
    };
    let id = head.id;
    let mut head = head.copy(alloc)?;
    head.stamp = value;
    tree.replace(id, Item::Head(head));
    Ok(())
}
