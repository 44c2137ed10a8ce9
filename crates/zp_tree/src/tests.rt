//! Trees of a few records, worked out by hand.

ghost use Rattle.std.specs.Prelude.{◌≡◌, IfOk};
ghost use Rattle.zp_tree.specs.Tree.{id_of};

use super::*;
use std::alloc::Global;
use std::test::Fail;
use zp_names::{Bytes, Name};
use zp_props::Settings;

fn file_system(alloc: Global, id: u64, name: &[u8]) -> Result<Item, Fail>
    ensures { IfOk result (λ item. id_of item ≡ id) }
{
    Ok(Item::Head(Head {
        id,
        name: Name::read(alloc, name)?,
        kind: HeadKind::Filesystem,
        origin: None,
        settings: Settings::new(alloc),
        stamp: 0,
        mounted: false,
        createtxg: 1,
    }))
}

fn snapshot(alloc: Global, id: u64, owner: u64, short: &[u8]) -> Result<Item, Fail> {
    let mut holds = Vec::new(alloc);
    holds.push(Hold {
        tag: Bytes::from_bytes(alloc, b"keep")?,
        at: 7,
    })?;
    Ok(Item::Snap(Snapshot {
        id,
        owner,
        short: Bytes::from_bytes(alloc, short)?,
        settings: Settings::new(alloc),
        stamp: 5,
        createtxg: 2,
        deferred: false,
        holds: Holds::from_vec(holds),
    }))
}

fn bookmark(alloc: Global, id: u64, owner: u64, short: &[u8]) -> Result<Item, Fail> {
    Ok(Item::Mark(Bookmark {
        id,
        owner,
        short: Bytes::from_bytes(alloc, short)?,
        source: 3,
        createtxg: 2,
    }))
}

/// Adds a record with the next id.
fn add<T: Datasets>(tree: &mut T, item: Item) -> Result<(), Fail> {
    tree.reserve(1)?;
    if item.id() == tree.next_id() && item.id() < u64::MAX {
        tree.add(item);
    }
    Ok(())
}

#[test]
fn records_are_found_by_full_name_and_by_id(rt: HostRuntime) -> Result<(), Fail> {
    let alloc = rt.alloc();
    let pool = Name::read(alloc, b"rpool")?;
    assert!(rt; pool.is_pool());
    let mut tree = PlainTree::new(alloc, &pool)?;
    add(&mut tree, file_system(alloc, 2, b"rpool/a")?)?;
    add(&mut tree, snapshot(alloc, 3, 2, b"s")?)?;
    add(&mut tree, bookmark(alloc, 4, 2, b"s")?)?;
    assert_eq!(rt; tree.len(), 4);
    assert_eq!(rt; tree.next_id(), 5);
    for (name, id) in [
        ("rpool", Some(1)),
        ("rpool/a", Some(2)),
        ("rpool/a@s", Some(3)),
        ("rpool/a#s", Some(4)),
        ("rpool/a@t", None),
        ("rpool@s", None),
        ("rpool/b", None),
    ] {
        let name = Name::read(alloc, name.as_bytes())?;
        assert_eq!(rt; tree.find(&name), id);
        assert_eq!(rt; exists(&tree, &name), id.is_some());
    }
    assert_eq!(rt; tree.marks_after(2, b""), Some(4));
    assert_eq!(rt; tree.marks_after(2, b"rpool/a#s"), None);
    assert!(rt; matches!(holds_after(&tree, 3, b""), Some((_, 7))));
    assert!(rt; holds_after(&tree, 3, b"keep").is_none());
    assert!(rt; holds_after(&tree, 2, b"").is_none());
    let copy = tree.copy(alloc)?;
    if tree.item(2).is_some() {
        tree.replace(2, file_system(alloc, 2, b"rpool/b")?);
    }
    if tree.item(4).is_some() {
        tree.remove(4);
    }
    assert_eq!(rt; tree.find(&Name::read(alloc, b"rpool/b@s")?), Some(3));
    assert_eq!(rt; tree.find(&Name::read(alloc, b"rpool/b#s")?), None);
    assert_eq!(rt; copy.find(&Name::read(alloc, b"rpool/a#s")?), Some(4));
    Ok(())
}
