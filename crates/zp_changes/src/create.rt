//! The change of `create`: zfs-create(8).

ghost use Rattle.std.specs.Prelude.{◌≡◌, OnOk, OnErr};
ghost use Rattle.zp_tree.specs.WellFormed.{IsWellFormed};
ghost use Rattle.zp_tree.specs.Rows.{passed};
ghost use Rattle.zp_tree.specs.Create.{create_check, create_change};

use std::alloc::Global;
use zc_io::NoMemory;
use zp_names::Name;
use zp_props::Settings;
use zp_tree::{Datasets, Head, HeadKind, Item};

/// Creates a file system of this name.
pub(crate) fn apply<T: Datasets>(
    alloc: Global,
    tree: &mut T,
    name: &Name,
    txg: u64,
) -> Result<(), NoMemory>
    requires well { IsWellFormed (T.tree tree.old) }
    requires passed { create_check (T.tree tree.old) name.now ≡ passed }
    ensures ok { OnOk result (T.tree tree.new ≡ create_change (T.tree tree.old) name.now txg) }
    ensures well { IsWellFormed (T.tree tree.new) }
    ensures err { OnErr result (T.tree tree.new ≡ T.tree tree.old) }
{
    let head = Head {
        id: tree.next_id(),
        name: name.copy(alloc)?,
        kind: HeadKind::Filesystem,
        origin: None,
        settings: Settings::new(alloc),
        stamp: 0,
        mounted: false,
        createtxg: txg,
    };
    tree.reserve(1)?;
    tree.add(Item::Head(head));
    Ok(())
}
