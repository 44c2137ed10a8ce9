//! The change of `bookmark`: zfs-bookmark(8).

ghost use Rattle.std.specs.Prelude.{◌≡◌, OnOk, OnErr};
ghost use Rattle.zp_tree.specs.WellFormed.{IsWellFormed};
ghost use Rattle.zp_tree.specs.Rows.{passed};
ghost use Rattle.zp_tree.specs.MakeBookmark.{bookmark_check, bookmark_change};

use std::alloc::Global;
use zc_io::NoMemory;
use zp_names::{Bytes, Name};
use zp_tree::{Bookmark, Datasets, Item, named, point_named};

/// Makes a bookmark of this name from the snapshot or the bookmark `source`.
pub(crate) fn apply<T: Datasets>(
    alloc: Global,
    tree: &mut T,
    source: &Name,
    name: &Name,
) -> Result<(), NoMemory>
    requires well { IsWellFormed (T.tree tree.old) }
    requires passed { bookmark_check (T.tree tree.old) source.now name.now ≡ passed }
    ensures ok { OnOk result (T.tree tree.new ≡ bookmark_change (T.tree tree.old) source.now name.now) }
    ensures well { IsWellFormed (T.tree tree.new) }
    ensures err { OnErr result (T.tree tree.new ≡ T.tree tree.old) }
{
    let owner = name.head_name(alloc)?;
    let Some(Item::Head(head)) = named(tree, &owner) else {
        return Ok(());
    };
    let Some(point) = point_named(tree, source) else {
        return Ok(());
    };
    let bookmark = Bookmark {
        id: tree.next_id(),
        owner: head.id,
        short: Bytes::from_bytes(alloc, name.short().as_bytes())?,
        source: point.source,
        createtxg: point.createtxg,
    };
    tree.reserve(1)?;
    tree.add(Item::Mark(bookmark));
    Ok(())
}
