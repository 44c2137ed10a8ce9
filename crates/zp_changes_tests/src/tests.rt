//! An administrator's day on a small pool.

ghost use Rattle.std.specs.Prelude.{IfOk};
ghost use Rattle.zp_tree.specs.WellFormed.{IsWellFormed};

use std::alloc::Global;
use std::test::Fail;
use zc_io::NoMemory;
use zp_changes::apply;
use zp_checks::check;
use zp_names::{Bytes, Command, Name};
use zp_tree::{Datasets, Effective, Item, PlainTree};

/// Checks a command and, where it passes, does it. Gives the errno.
#[tactic(auto, using(zp_tree::proofs::Passing::zero_passes))]
pub(crate) fn run<T: Datasets>(alloc: Global, tree: &mut T, command: &Command) -> Result<u32, Fail>
    requires { IsWellFormed (T.tree tree.old) }
    ensures { IsWellFormed (T.tree tree.new) }
{
    let verdict = check(alloc, tree, command)?;
    if verdict.errno != 0 {
        return Ok(verdict.errno);
    }
    apply(alloc, tree, command, 7, 0)?;
    Ok(0)
}

pub(crate) fn name(alloc: Global, text: &str) -> Result<Name, Fail> {
    Ok(Name::read(alloc, text.as_bytes())?)
}

pub(crate) fn destroy<T: Datasets>(alloc: Global, tree: &mut T, text: &str) -> Result<u32, Fail>
    requires { IsWellFormed (T.tree tree.old) }
    ensures { IsWellFormed (T.tree tree.new) }
{
    let command = Command::Destroy {
        name: name(alloc, text)?,
        defer: false,
    };
    run(alloc, tree, &command)
}

fn hold<T: Datasets>(alloc: Global, tree: &mut T, text: &str, tag: &str) -> Result<u32, Fail>
    requires { IsWellFormed (T.tree tree.old) }
    ensures { IsWellFormed (T.tree tree.new) }
{
    let command = Command::Hold {
        name: name(alloc, text)?,
        tag: Bytes::from_bytes(alloc, tag.as_bytes())?,
    };
    run(alloc, tree, &command)
}

fn release<T: Datasets>(alloc: Global, tree: &mut T, text: &str, tag: &str) -> Result<u32, Fail>
    requires { IsWellFormed (T.tree tree.old) }
    ensures { IsWellFormed (T.tree tree.new) }
{
    let command = Command::Release {
        name: name(alloc, text)?,
        tag: Bytes::from_bytes(alloc, tag.as_bytes())?,
    };
    run(alloc, tree, &command)
}

#[test]
fn snapshots_clones_and_rollbacks(rt: HostRuntime) -> Result<(), Fail> {
    let alloc = rt.alloc();
    let pool = name(alloc, "rpool")?;
    assert!(rt; pool.is_pool());
    let mut tree = PlainTree::new(alloc, &pool)?;
    let a = Command::Create {
        name: name(alloc, "rpool/a")?,
    };
    assert_eq!(rt; run(alloc, &mut tree, &a)?, 0);
    let written = Command::Stamp {
        name: name(alloc, "rpool/a")?,
        value: 5,
    };
    assert_eq!(rt; run(alloc, &mut tree, &written)?, 0);
    let taken = Command::Snapshot {
        name: name(alloc, "rpool/a@s")?,
    };
    assert_eq!(rt; run(alloc, &mut tree, &taken)?, 0);
    assert_eq!(rt; run(alloc, &mut tree, &taken)?, 17);
    let again = Command::Stamp {
        name: name(alloc, "rpool/a")?,
        value: 9,
    };
    assert_eq!(rt; run(alloc, &mut tree, &again)?, 0);
    let back = Command::Rollback {
        name: name(alloc, "rpool/a")?,
    };
    assert_eq!(rt; run(alloc, &mut tree, &back)?, 0);
    assert!(rt; matches!(tree.item(2), Some(Item::Head(head)) if head.stamp == 5));
    let cloned = Command::Clone {
        source: name(alloc, "rpool/a@s")?,
        name: name(alloc, "rpool/b")?,
    };
    assert_eq!(rt; run(alloc, &mut tree, &cloned)?, 0);
    assert!(rt; matches!(tree.item(4), Some(Item::Head(head)) if head.origin == Some(3)));
    assert_eq!(rt; tree.clones_after(3, b""), Some(4));
    assert_eq!(rt; tree.heads_after(1, b"rpool/a"), Some(4));
    assert_eq!(rt; tree.snaps_after(2, b"rpool/a@s"), None);
    Ok(())
}

#[test]
fn flags_and_short_names(rt: HostRuntime) -> Result<(), Fail> {
    let alloc = rt.alloc();
    let pool = name(alloc, "rpool")?;
    assert!(rt; pool.is_pool());
    let mut tree = PlainTree::new(alloc, &pool)?;
    let mounted = Command::Mount {
        name: name(alloc, "rpool")?,
    };
    assert_eq!(rt; run(alloc, &mut tree, &mounted)?, 0);
    assert_eq!(rt; run(alloc, &mut tree, &mounted)?, 16);
    let unmounted = Command::Unmount {
        name: name(alloc, "rpool")?,
    };
    assert_eq!(rt; run(alloc, &mut tree, &unmounted)?, 0);
    assert_eq!(rt; run(alloc, &mut tree, &unmounted)?, 22);
    let taken = Command::Snapshot {
        name: name(alloc, "rpool@x")?,
    };
    assert_eq!(rt; run(alloc, &mut tree, &taken)?, 0);
    let renamed = Command::RenameSnapshot {
        name: name(alloc, "rpool")?,
        old: Bytes::from_bytes(alloc, b"x")?,
        new: Bytes::from_bytes(alloc, b"y")?,
    };
    assert_eq!(rt; run(alloc, &mut tree, &renamed)?, 0);
    assert_eq!(rt; run(alloc, &mut tree, &renamed)?, 2);
    assert_eq!(rt; tree.find(&name(alloc, "rpool@y")?), Some(2));
    Ok(())
}

#[test]
fn what_depends_goes_first(rt: HostRuntime) -> Result<(), Fail> {
    let alloc = rt.alloc();
    let pool = name(alloc, "rpool")?;
    assert!(rt; pool.is_pool());
    let mut tree = PlainTree::new(alloc, &pool)?;
    let a = Command::Create {
        name: name(alloc, "rpool/a")?,
    };
    assert_eq!(rt; run(alloc, &mut tree, &a)?, 0);
    let taken = Command::Snapshot {
        name: name(alloc, "rpool/a@s")?,
    };
    assert_eq!(rt; run(alloc, &mut tree, &taken)?, 0);
    let cloned = Command::Clone {
        source: name(alloc, "rpool/a@s")?,
        name: name(alloc, "rpool/b")?,
    };
    assert_eq!(rt; run(alloc, &mut tree, &cloned)?, 0);
    let full = tree.name_of(alloc, 3)?.ok_or("no name")?;
    assert_eq!(rt; full.text(), "rpool/a@s");
    assert!(rt; tree.name_of(alloc, 5)?.is_none());
    assert_eq!(rt; destroy(alloc, &mut tree, "rpool")?, 16);
    assert_eq!(rt; destroy(alloc, &mut tree, "rpool/a")?, 16);
    assert_eq!(rt; destroy(alloc, &mut tree, "rpool/a@s")?, 17);
    assert_eq!(rt; destroy(alloc, &mut tree, "rpool/a#s")?, 2);
    assert_eq!(rt; destroy(alloc, &mut tree, "rpool/b")?, 0);
    assert_eq!(rt; destroy(alloc, &mut tree, "rpool/a@s")?, 0);
    assert_eq!(rt; destroy(alloc, &mut tree, "rpool/a")?, 0);
    assert_eq!(rt; destroy(alloc, &mut tree, "rpool/a")?, 2);
    assert_eq!(rt; tree.len(), 1);
    assert_eq!(rt; tree.next_id(), 5);
    Ok(())
}

/// Creates a file system of this name.
fn create<T: Datasets>(alloc: Global, tree: &mut T, text: &str) -> Result<u32, Fail>
    requires { IsWellFormed (T.tree tree.old) }
    ensures { IsWellFormed (T.tree tree.new) }
{
    let name = name(alloc, text)?;
    run(alloc, tree, &Command::Create { name })
}

/// Renames a dataset.
fn rename<T: Datasets>(alloc: Global, tree: &mut T, from: &str, to: &str) -> Result<u32, Fail>
    requires { IsWellFormed (T.tree tree.old) }
    ensures { IsWellFormed (T.tree tree.new) }
{
    let name = name(alloc, from)?;
    let to = Name::read(alloc, to.as_bytes())?;
    run(alloc, tree, &Command::Rename { name, to })
}

/// A name of 252 bytes in the pool.
fn long_text(alloc: Global) -> Result<String, Fail> {
    let mut text = String::from_str(alloc, "rpool/")?;
    for _ in 0..246 {
        text.push('x')?;
    }
    Ok(text)
}

#[test]
fn renames_with_all_below(rt: HostRuntime) -> Result<(), Fail> {
    let alloc = rt.alloc();
    let pool = name(alloc, "rpool")?;
    assert!(rt; pool.is_pool());
    let mut tree = PlainTree::new(alloc, &pool)?;
    assert_eq!(rt; create(alloc, &mut tree, "rpool/a")?, 0);
    assert_eq!(rt; create(alloc, &mut tree, "rpool/a/b")?, 0);
    assert_eq!(rt; create(alloc, &mut tree, "rpool/ab")?, 0);
    let taken = Command::Snapshot {
        name: name(alloc, "rpool/a/b@s")?,
    };
    assert_eq!(rt; run(alloc, &mut tree, &taken)?, 0);
    assert_eq!(rt; rename(alloc, &mut tree, "rpool/a", "rpool/a@s")?, 22);
    assert_eq!(rt; rename(alloc, &mut tree, "rpool/c", "rpool/d")?, 2);
    assert_eq!(rt; rename(alloc, &mut tree, "rpool", "rpool/d")?, 22);
    assert_eq!(rt; rename(alloc, &mut tree, "rpool/a", "rpool/ab")?, 17);
    assert_eq!(rt; rename(alloc, &mut tree, "rpool/a", "rpool/a/c")?, 22);
    assert_eq!(rt; rename(alloc, &mut tree, "rpool/a", "rpool/c/d")?, 2);
    let long = long_text(alloc)?;
    assert_eq!(rt; rename(alloc, &mut tree, "rpool/a", long.as_str())?, 36);
    assert_eq!(rt; rename(alloc, &mut tree, "rpool/a", "rpool/ab/c")?, 0);
    assert_eq!(rt; tree.find(&name(alloc, "rpool/ab/c")?), Some(2));
    assert_eq!(rt; tree.find(&name(alloc, "rpool/ab/c/b@s")?), Some(5));
    assert_eq!(rt; tree.find(&name(alloc, "rpool/ab")?), Some(4));
    assert_eq!(rt; rename(alloc, &mut tree, "rpool/ab/c", "rpool/a")?, 0);
    assert_eq!(rt; tree.find(&name(alloc, "rpool/a/b@s")?), Some(5));
    Ok(())
}

fn set<T: Datasets>(
    alloc: Global,
    tree: &mut T,
    text: &str,
    property: &str,
    value: &str,
) -> Result<u32, Fail>
    requires { IsWellFormed (T.tree tree.old) }
    ensures { IsWellFormed (T.tree tree.new) }
{
    let command = Command::Set {
        name: name(alloc, text)?,
        prop: Bytes::from_bytes(alloc, property.as_bytes())?,
        value: Bytes::from_bytes(alloc, value.as_bytes())?,
    };
    run(alloc, tree, &command)
}

/// The id of the dataset from which one has a property, and 0 for a default.
fn source<T: Datasets>(tree: &T, id: u64, property: &str) -> Option<u64>
    requires { IsWellFormed (T.tree tree.now) }
{
    match tree.effective(id, property.as_bytes()) {
        Some(Effective::Set { id, .. }) => Some(id),
        Some(Effective::ByDefault) => Some(0),
        None => None,
    }
}

#[test]
fn properties_come_from_above(rt: HostRuntime) -> Result<(), Fail> {
    let alloc = rt.alloc();
    let pool = name(alloc, "rpool")?;
    assert!(rt; pool.is_pool());
    let mut tree = PlainTree::new(alloc, &pool)?;
    let a = Command::Create {
        name: name(alloc, "rpool/a")?,
    };
    assert_eq!(rt; run(alloc, &mut tree, &a)?, 0);
    assert_eq!(rt; set(alloc, &mut tree, "rpool", "readonly", "on")?, 0);
    assert_eq!(rt; set(alloc, &mut tree, "rpool", "readonly", "perhaps")?, 22);
    assert_eq!(rt; set(alloc, &mut tree, "rpool/b", "readonly", "on")?, 2);
    assert_eq!(rt; set(alloc, &mut tree, "rpool/a", "a:b", "v")?, 0);
    assert_eq!(rt; source(&tree, 2, "readonly"), Some(1));
    assert_eq!(rt; source(&tree, 2, "a:b"), Some(2));
    assert_eq!(rt; source(&tree, 1, "a:b"), None);
    assert_eq!(rt; source(&tree, 2, "copies"), Some(0));
    assert_eq!(rt; tree.user_settings(), 1);
    let written = Command::Stamp {
        name: name(alloc, "rpool/a")?,
        value: 5,
    };
    assert_eq!(rt; run(alloc, &mut tree, &written)?, 30);
    let inherited = Command::Inherit {
        name: name(alloc, "rpool")?,
        prop: Bytes::from_bytes(alloc, b"readonly")?,
    };
    assert_eq!(rt; run(alloc, &mut tree, &inherited)?, 0);
    assert_eq!(rt; run(alloc, &mut tree, &written)?, 0);
    Ok(())
}

/// The pool's file system with a snapshot.
fn with_snapshot(alloc: Global) -> Result<PlainTree, Fail>
    ensures { IfOk result (λ tree. IsWellFormed tree.tree) }
{
    let pool = name(alloc, "rpool")?;
    if !pool.is_pool() {
        return Err(NoMemory.into());
    }
    let mut tree = PlainTree::new(alloc, &pool)?;
    let name = name(alloc, "rpool@s")?;
    run(alloc, &mut tree, &Command::Snapshot { name })?;
    Ok(tree)
}

#[test]
fn holds_keep_a_snapshot(rt: HostRuntime) -> Result<(), Fail> {
    let alloc = rt.alloc();
    let mut tree = with_snapshot(alloc)?;
    assert_eq!(rt; hold(alloc, &mut tree, "rpool@t", "keep")?, 2);
    assert_eq!(rt; hold(alloc, &mut tree, "rpool@s", "")?, 22);
    assert_eq!(rt; hold(alloc, &mut tree, "rpool@s", "keep")?, 0);
    assert_eq!(rt; hold(alloc, &mut tree, "rpool@s", "keep")?, 17);
    assert_eq!(rt; destroy(alloc, &mut tree, "rpool@s")?, 16);
    assert_eq!(rt; release(alloc, &mut tree, "rpool@s", "other")?, 3);
    assert_eq!(rt; release(alloc, &mut tree, "rpool@s", "keep")?, 0);
    assert_eq!(rt; tree.len(), 2);
    Ok(())
}

#[test]
fn a_deferred_snapshot_goes_with_its_last_hold(rt: HostRuntime) -> Result<(), Fail> {
    let alloc = rt.alloc();
    let mut tree = with_snapshot(alloc)?;
    assert_eq!(rt; hold(alloc, &mut tree, "rpool@s", "keep")?, 0);
    let deferred = Command::Destroy {
        name: name(alloc, "rpool@s")?,
        defer: true,
    };
    assert_eq!(rt; run(alloc, &mut tree, &deferred)?, 0);
    assert_eq!(rt; tree.len(), 2);
    assert_eq!(rt; release(alloc, &mut tree, "rpool@s", "keep")?, 0);
    assert_eq!(rt; tree.len(), 1);
    Ok(())
}
