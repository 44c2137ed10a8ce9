//! The change of `inherit`: zfs-inherit(8).

ghost use Rattle.std.specs.Prelude.{◌≡◌, IfOk, OnOk, OnErr};
ghost use Rattle.zp_tree.specs.WellFormed.{IsWellFormed};
ghost use Rattle.zp_tree.specs.Rows.{passed};
ghost use Rattle.zp_tree.specs.Tree.{id_of};
ghost use Rattle.zp_tree.specs.InheritProperty.{item_without, inherit_check, inherit_change};

use std::alloc::Global;
use zc_io::NoMemory;
use zp_names::Name;
use zp_props::settings_without;
use zp_tree::{Datasets, Item, named};

/// The record without the setting of this property.
fn item_without(alloc: Global, item: &Item, property: &[u8]) -> Result<Item, NoMemory>
    ensures item { IfOk result (λ r. r ≡ item_without property.now item.now) }
    ensures id { IfOk result (λ r. id_of r ≡ id_of item.now) }
{
    let settings = settings_without(alloc, item.settings(), property)?;
    Ok(item.copy(alloc)?.with_settings(settings))
}

/// Takes the setting of a property away from the dataset of this name.
pub(crate) fn apply<T: Datasets>(
    alloc: Global,
    tree: &mut T,
    name: &Name,
    property: &[u8],
) -> Result<(), NoMemory>
    requires well { IsWellFormed (T.tree tree.old) }
    requires passed { inherit_check (T.tree tree.old) name.now property.now ≡ passed }
    ensures ok { OnOk result (T.tree tree.new ≡ inherit_change (T.tree tree.old) name.now property.now) }
    ensures well { IsWellFormed (T.tree tree.new) }
    ensures err { OnErr result (T.tree tree.new ≡ T.tree tree.old) }
{
    let Some(item) = named(tree, name) else {
        return Ok(());
    };
    let id = item.id();
    let item = item_without(alloc, item, property)?;
    tree.replace(id, item);
    Ok(())
}
