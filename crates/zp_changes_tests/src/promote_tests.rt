//! A clone is promoted by hand: what stands in the way is destroyed first.

ghost use Rattle.zp_tree.specs.WellFormed.{IsWellFormed};

use crate::tests::{destroy, name, run};
use std::alloc::Global;
use std::test::Fail;
use zp_checks::check;
use zp_names::{Command, Verdict};
use zp_tree::{Datasets, Item, PlainTree};

fn create<T: Datasets>(alloc: Global, tree: &mut T, text: &str) -> Result<u32, Fail>
    requires { IsWellFormed (T.tree tree.old) }
    ensures { IsWellFormed (T.tree tree.new) }
{
    let command = Command::Create {
        name: name(alloc, text)?,
    };
    run(alloc, tree, &command)
}

fn take<T: Datasets>(alloc: Global, tree: &mut T, text: &str) -> Result<u32, Fail>
    requires { IsWellFormed (T.tree tree.old) }
    ensures { IsWellFormed (T.tree tree.new) }
{
    let command = Command::Snapshot {
        name: name(alloc, text)?,
    };
    run(alloc, tree, &command)
}

fn promote<T: Datasets>(alloc: Global, tree: &mut T, text: &str) -> Result<u32, Fail>
    requires { IsWellFormed (T.tree tree.old) }
    ensures { IsWellFormed (T.tree tree.new) }
{
    let command = Command::Promote {
        name: name(alloc, text)?,
    };
    run(alloc, tree, &command)
}

/// What the check of promoting this clone says.
fn asked<T: Datasets>(alloc: Global, tree: &T, text: &str) -> Result<Verdict, Fail>
    requires { IsWellFormed (T.tree tree.now) }
{
    let command = Command::Promote {
        name: name(alloc, text)?,
    };
    Ok(check(alloc, tree, &command)?)
}

fn is_named<T: Datasets>(alloc: Global, tree: &T, text: &str, id: u64) -> Result<bool, Fail> {
    Ok(tree.find(&name(alloc, text)?) == Some(id))
}

fn origin<T: Datasets>(tree: &T, id: u64) -> Option<u64> {
    match tree.item(id) {
        Some(Item::Head(head)) => head.origin,
        _ => None,
    }
}

#[test]
fn snapshots_in_the_way_are_destroyed_first(rt: HostRuntime) -> Result<(), Fail> {
    let alloc = rt.alloc();
    let pool = name(alloc, "rpool")?;
    assert!(rt; pool.is_pool());
    let mut tree = PlainTree::new(alloc, &pool)?;
    assert_eq!(rt; create(alloc, &mut tree, "rpool/p")?, 0);
    assert_eq!(rt; take(alloc, &mut tree, "rpool/p@y")?, 0);
    assert_eq!(rt; take(alloc, &mut tree, "rpool/p@x")?, 0);
    let cloned = Command::Clone {
        source: name(alloc, "rpool/p@x")?,
        name: name(alloc, "rpool/c")?,
    };
    assert_eq!(rt; run(alloc, &mut tree, &cloned)?, 0);
    assert_eq!(rt; take(alloc, &mut tree, "rpool/p@z")?, 0);
    assert_eq!(rt; take(alloc, &mut tree, "rpool/c@x")?, 0);
    assert_eq!(rt; take(alloc, &mut tree, "rpool/c@y")?, 0);
    assert_eq!(rt; promote(alloc, &mut tree, "rpool/p")?, 22);
    assert_eq!(rt; promote(alloc, &mut tree, "rpool/q")?, 2);
    assert_eq!(rt; promote(alloc, &mut tree, "rpool/c@x")?, 22);
    let verdict = asked(alloc, &tree, "rpool/c")?;
    assert_eq!(rt; verdict.errno, 17);
    let details = verdict.details.as_slice();
    assert_eq!(rt; details.len(), 2);
    assert!(rt; details.len() == 2 && details[0].as_slice() == b"x".as_slice());
    assert!(rt; details.len() == 2 && details[1].as_slice() == b"y".as_slice());
    assert_eq!(rt; destroy(alloc, &mut tree, "rpool/c@x")?, 0);
    assert_eq!(rt; destroy(alloc, &mut tree, "rpool/c@y")?, 0);
    assert_eq!(rt; promote(alloc, &mut tree, "rpool/c")?, 0);
    assert!(rt; is_named(alloc, &tree, "rpool/c@y", 3)?);
    assert!(rt; is_named(alloc, &tree, "rpool/c@x", 4)?);
    assert!(rt; is_named(alloc, &tree, "rpool/p@z", 6)?);
    assert_eq!(rt; origin(&tree, 2), Some(4));
    assert_eq!(rt; origin(&tree, 5), None);
    assert_eq!(rt; tree.clones_after(4, b""), Some(2));
    assert_eq!(rt; promote(alloc, &mut tree, "rpool/p")?, 0);
    assert!(rt; is_named(alloc, &tree, "rpool/p@x", 4)?);
    assert_eq!(rt; origin(&tree, 2), None);
    assert_eq!(rt; origin(&tree, 5), Some(4));
    Ok(())
}
