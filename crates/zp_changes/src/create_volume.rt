//! The change of `create_volume`: zfs-create(8), `-V`.

ghost use Rattle.std.specs.Prelude.{◌≡◌, IfOk, OnOk, OnErr};
ghost use Rattle.zp_tree.specs.WellFormed.{IsWellFormed};
ghost use Rattle.zp_tree.specs.Rows.{passed};
ghost use Rattle.zp_tree.specs.CreateVolume.{volume_settings, create_volume_check, create_volume_change};

use std::alloc::Global;
use zc_io::NoMemory;
use zp_names::{Bytes, Name};
use zp_props::{PropValue, Setting, Settings};
use zp_tree::{Datasets, Head, HeadKind, Item};

/// The settings of a new volume: its size alone.
fn volume_settings(alloc: Global, volsize: u64) -> Result<Settings, NoMemory>
    ensures { IfOk result (λ settings. settings ≡ volume_settings volsize) }
{
    let name = Bytes::from_bytes(alloc, b"volsize")?;
    let value = PropValue::Number(volsize);
    let mut settings = Settings::new(alloc);
    settings.push(Setting { name, value })?;
    Ok(settings)
}

/// Creates a volume of this name and this size in bytes.
pub(crate) fn apply<T: Datasets>(
    alloc: Global,
    tree: &mut T,
    name: &Name,
    volsize: u64,
    txg: u64,
) -> Result<(), NoMemory>
    requires well { IsWellFormed (T.tree tree.old) }
    requires passed { create_volume_check (T.tree tree.old) name.now volsize ≡ passed }
    ensures ok { OnOk result (T.tree tree.new ≡ create_volume_change (T.tree tree.old) name.now volsize txg) }
    ensures well { IsWellFormed (T.tree tree.new) }
    ensures err { OnErr result (T.tree tree.new ≡ T.tree tree.old) }
{
    let head = Head {
        id: tree.next_id(),
        name: name.copy(alloc)?,
        kind: HeadKind::Volume,
        origin: None,
        settings: volume_settings(alloc, volsize)?,
        stamp: 0,
        mounted: false,
        createtxg: txg,
    };
    tree.reserve(1)?;
    tree.add(Item::Head(head));
    Ok(())
}
