//! The change of `mount`: zfs-mount(8).

ghost use Rattle.std.specs.Prelude.{◌≡◌, OnOk, OnErr};
ghost use Rattle.zp_tree.specs.WellFormed.{IsWellFormed};
ghost use Rattle.zp_tree.specs.Rows.{passed};
ghost use Rattle.zp_tree.specs.Mount.{mount_check, mount_change};

use std::alloc::Global;
use zc_io::NoMemory;
use zp_names::Name;
use zp_tree::{Datasets, Item, named};

/// Sets the flag of the file system of this name.
pub(crate) fn apply<T: Datasets>(alloc: Global, tree: &mut T, name: &Name) -> Result<(), NoMemory>
    requires well { IsWellFormed (T.tree tree.old) }
    requires passed { mount_check (T.tree tree.old) name.now ≡ passed }
    ensures ok { OnOk result (T.tree tree.new ≡ mount_change (T.tree tree.old) name.now) }
    ensures well { IsWellFormed (T.tree tree.new) }
    ensures err { OnErr result (T.tree tree.new ≡ T.tree tree.old) }
{
    let Some(Item::Head(head)) = named(tree, name) else {
        return Ok(());
    };
    let id = head.id;
    let mut head = head.copy(alloc)?;
    head.mounted = true;
    tree.replace(id, Item::Head(head));
    Ok(())
}
