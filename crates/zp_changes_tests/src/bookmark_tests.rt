//! Bookmarks, which mark the point in time of a snapshot and stay when it goes.

ghost use Rattle.zp_tree.specs.WellFormed.{IsWellFormed};

use crate::tests::{destroy, name, run};
use std::alloc::Global;
use std::test::Fail;
use zp_names::Command;
use zp_tree::{Datasets, Item, PlainTree};

fn bookmark<T: Datasets>(alloc: Global, tree: &mut T, source: &str, text: &str) -> Result<u32, Fail>
    requires { IsWellFormed (T.tree tree.old) }
    ensures { IsWellFormed (T.tree tree.new) }
{
    let source = name(alloc, source)?;
    let name = name(alloc, text)?;
    run(alloc, tree, &Command::Bookmark { source, name })
}

fn snapshot<T: Datasets>(alloc: Global, tree: &mut T, text: &str) -> Result<u32, Fail>
    requires { IsWellFormed (T.tree tree.old) }
    ensures { IsWellFormed (T.tree tree.new) }
{
    let name = name(alloc, text)?;
    run(alloc, tree, &Command::Snapshot { name })
}

/// The snapshot that a bookmark marks.
fn source<T: Datasets>(tree: &T, id: u64) -> Option<u64> {
    match tree.item(id) {
        Some(Item::Mark(bookmark)) => Some(bookmark.source),
        _ => None,
    }
}

#[test]
fn bookmarks_outlive_their_snapshot(rt: HostRuntime) -> Result<(), Fail> {
    let alloc = rt.alloc();
    let pool = name(alloc, "rpool")?;
    assert!(rt; pool.is_pool());
    let mut tree = PlainTree::new(alloc, &pool)?;
    assert_eq!(rt; snapshot(alloc, &mut tree, "rpool@s")?, 0);
    assert_eq!(rt; bookmark(alloc, &mut tree, "rpool@s", "rpool@t")?, 22);
    assert_eq!(rt; bookmark(alloc, &mut tree, "rpool", "rpool#s")?, 22);
    assert_eq!(rt; bookmark(alloc, &mut tree, "rpool@s", "rpool/a#s")?, 22);
    assert_eq!(rt; bookmark(alloc, &mut tree, "rpool@t", "rpool#s")?, 2);
    assert_eq!(rt; bookmark(alloc, &mut tree, "rpool@s", "rpool#s")?, 0);
    assert_eq!(rt; bookmark(alloc, &mut tree, "rpool@s", "rpool#s")?, 17);
    assert_eq!(rt; destroy(alloc, &mut tree, "rpool@s")?, 0);
    assert_eq!(rt; bookmark(alloc, &mut tree, "rpool#s", "rpool#t")?, 0);
    assert_eq!(rt; destroy(alloc, &mut tree, "rpool#s")?, 0);
    assert_eq!(rt; source(&tree, 4), Some(2));
    Ok(())
}
