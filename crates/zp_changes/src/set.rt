//! The change of `set`: zfs-set(8).

ghost use Rattle.std.specs.Prelude.{◌≡◌, IfOk, IfSome, OnOk, OnErr};
ghost use Rattle.zp_tree.specs.WellFormed.{IsWellFormed};
ghost use Rattle.zp_tree.specs.Rows.{passed};
ghost use Rattle.zp_tree.specs.Tree.{id_of};
ghost use Rattle.zp_tree.specs.SetProperty.{item_with, item_set, set_check, set_change};

use std::alloc::Global;
use zc_io::NoMemory;
use zp_names::Name;
use zp_props::{Setting, setting_or_refusal, settings_with};
use zp_tree::{Datasets, Item, named};

fn item_with(alloc: Global, item: &Item, setting: Setting) -> Result<Item, NoMemory>
    ensures { IfOk result (λ r. r ≡ item_with setting item.now) }
{
    let settings = settings_with(alloc, item.settings(), setting)?;
    Ok(item.copy(alloc)?.with_settings(settings))
}

/// The record with the setting that the text makes on it; none where it makes none.
fn item_set(
    alloc: Global,
    item: &Item,
    property: &[u8],
    value: &[u8],
) -> Result<Option<Item>, NoMemory>
    ensures item { IfOk result (λ o. o ≡ item_set item.now property.now value.now) }
    ensures id { IfOk result (λ o. IfSome o (λ r. id_of r ≡ id_of item.now)) }
{
    let Some(kind) = item.kind() else {
        return Ok(None);
    };
    match setting_or_refusal(alloc, kind, property, value)? {
        Ok(setting) => Ok(Some(item_with(alloc, item, setting)?)),
        Err(_) => Ok(None),
    }
}

/// Sets a property of the dataset of this name to the value that a text is.
pub(crate) fn apply<T: Datasets>(
    alloc: Global,
    tree: &mut T,
    name: &Name,
    property: &[u8],
    value: &[u8],
) -> Result<(), NoMemory>
    requires well { IsWellFormed (T.tree tree.old) }
    requires passed { set_check (T.tree tree.old) name.now property.now value.now ≡ passed }
    ensures ok { OnOk result (T.tree tree.new ≡ set_change (T.tree tree.old) name.now property.now value.now) }
    ensures well { IsWellFormed (T.tree tree.new) }
    ensures err { OnErr result (T.tree tree.new ≡ T.tree tree.old) }
{
    let Some(item) = named(tree, name) else {
        return Ok(());
    };
    let id = item.id();
    let Some(item) = item_set(alloc, item, property, value)? else {
        return Ok(());
    };
    tree.replace(id, item);
    Ok(())
}
