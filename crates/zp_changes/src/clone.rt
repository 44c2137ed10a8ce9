//! The change of `clone`: zfs-clone(8).

ghost use Rattle.std.specs.Prelude.{◌≡◌, IfOk, OnOk, OnErr};
ghost use Rattle.zp_tree.specs.WellFormed.{IsWellFormed};
ghost use Rattle.zp_tree.specs.Rows.{passed};
ghost use Rattle.zp_tree.specs.MakeClone.{clone_check, clone_settings, clone_change};

use std::alloc::Global;
use zc_io::NoMemory;
use zp_names::Name;
use zp_props::{Settings, volsize};
use zp_tree::{Datasets, Head, HeadKind, Item, named};

/// The settings of a clone of a snapshot of this head.
fn clone_settings(alloc: Global, owner: &Head) -> Result<Settings, NoMemory>
    ensures { IfOk result (λ settings. settings ≡ clone_settings owner.now) }
{
    let mut settings = Settings::new(alloc);
    if owner.kind == HeadKind::Volume {
        if let Some(size) = volsize(owner.settings.as_slice()) {
            settings.push(size.copy(alloc)?)?;
        }
    }
    Ok(settings)
}

/// Makes a clone of this name from the snapshot `source`.
pub(crate) fn apply<T: Datasets>(
    alloc: Global,
    tree: &mut T,
    source: &Name,
    name: &Name,
    txg: u64,
) -> Result<(), NoMemory>
    requires well { IsWellFormed (T.tree tree.old) }
    requires passed { clone_check (T.tree tree.old) source.now name.now ≡ passed }
    ensures ok { OnOk result (T.tree tree.new ≡ clone_change (T.tree tree.old) source.now name.now txg) }
    ensures well { IsWellFormed (T.tree tree.new) }
    ensures err { OnErr result (T.tree tree.new ≡ T.tree tree.old) }
{
    let Some(Item::Snap(snapshot)) = named(tree, source) else {
        return Ok(());
    };
    let Some(Item::Head(owner)) = tree.item(snapshot.owner) else {
        return Ok(());
    };
    let clone = Head {
        id: tree.next_id(),
        name: name.copy(alloc)?,
        kind: owner.kind,
        origin: Some(snapshot.id),
        settings: clone_settings(alloc, owner)?,
        stamp: snapshot.stamp,
        mounted: false,
        createtxg: txg,
    };
    tree.reserve(1)?;
    tree.add(Item::Head(clone));
    Ok(())
}
