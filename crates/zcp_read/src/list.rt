//! Lists of names: `zfs.list` of zfs-program(8).

ghost use Rattle.std.specs.Prelude.{◌≡◌, Some, IfOk};
ghost use Rattle.zp_tree.specs.declared.item.Item.TheVariants as item;
ghost use Rattle.zp_tree.specs.Tree.{at, id_of};
ghost use Rattle.zp_tree.specs.Dependents.{is_child_of, is_snapshot_of, is_bookmark_of, is_clone_of};
ghost use Rattle.zp_tree.specs.WellFormed.{IsWellFormed};
ghost use Rattle.zcp_read.specs.Lists.{names_where, names_in, names_listed, IsNextName};

use crate::full_name::name_of_found;
use crate::user_names::{next_tag, next_user_name_of_head, next_user_name_of_snapshot};
use std::alloc::Global;
use zc_io::NoMemory;
use zp_names::{Bytes, ListKind, Sequence, Texts};
use zp_tree::{Datasets, Head, Item, Snapshot};

fn next_child<T: Datasets>(
    alloc: Global,
    tree: &T,
    head: &Head,
    after: &[u8],
) -> Result<Option<Bytes>, NoMemory>
    requires well { IsWellFormed (T.tree tree.now) }
    requires there { at (T.tree tree.now).records head.now.id ≡ Some (item.Head head.now) }
    ensures { IfOk result (IsNextName (names_where (T.tree tree.now).records (is_child_of head.now.name)) after.now) }
{
    name_of_found(alloc, tree, tree.heads_after(head.id, after))
}

fn next_snapshot<T: Datasets>(
    alloc: Global,
    tree: &T,
    head: &Head,
    after: &[u8],
) -> Result<Option<Bytes>, NoMemory>
    requires well { IsWellFormed (T.tree tree.now) }
    requires there { at (T.tree tree.now).records head.now.id ≡ Some (item.Head head.now) }
    ensures { IfOk result (IsNextName (names_where (T.tree tree.now).records (is_snapshot_of head.now.id)) after.now) }
{
    name_of_found(alloc, tree, tree.snaps_after(head.id, after))
}

fn next_bookmark<T: Datasets>(
    alloc: Global,
    tree: &T,
    head: &Head,
    after: &[u8],
) -> Result<Option<Bytes>, NoMemory>
    requires well { IsWellFormed (T.tree tree.now) }
    requires there { at (T.tree tree.now).records head.now.id ≡ Some (item.Head head.now) }
    ensures { IfOk result (IsNextName (names_where (T.tree tree.now).records (is_bookmark_of head.now.id)) after.now) }
{
    name_of_found(alloc, tree, tree.marks_after(head.id, after))
}

fn next_clone<T: Datasets>(
    alloc: Global,
    tree: &T,
    snapshot: &Snapshot,
    after: &[u8],
) -> Result<Option<Bytes>, NoMemory>
    requires { IsWellFormed (T.tree tree.now) }
    ensures { IfOk result (IsNextName (names_where (T.tree tree.now).records (is_clone_of snapshot.now.id)) after.now) }
{
    name_of_found(alloc, tree, tree.clones_after(snapshot.id, after))
}

/// What comes next of what a head has.
fn next_of_head<T: Datasets>(
    alloc: Global,
    tree: &T,
    kind: ListKind,
    head: &Head,
    after: &[u8],
) -> Result<Option<Bytes>, NoMemory>
    requires well { IsWellFormed (T.tree tree.now) }
    requires there { at (T.tree tree.now).records head.now.id ≡ Some (item.Head head.now) }
    ensures { IfOk result (IsNextName (names_in (T.tree tree.now) kind (item.Head head.now)) after.now) }
{
    match kind {
        ListKind::Children => next_child(alloc, tree, head, after),
        ListKind::Snapshots => next_snapshot(alloc, tree, head, after),
        ListKind::Bookmarks => next_bookmark(alloc, tree, head, after),
        ListKind::UserProperties => next_user_name_of_head(alloc, tree, head, after),
        ListKind::Clones | ListKind::Holds => Ok(None),
    }
}

/// What comes next of what a snapshot has.
fn next_of_snapshot<T: Datasets>(
    alloc: Global,
    tree: &T,
    kind: ListKind,
    snapshot: &Snapshot,
    after: &[u8],
) -> Result<Option<Bytes>, NoMemory>
    requires { IsWellFormed (T.tree tree.now) }
    ensures { IfOk result (IsNextName (names_in (T.tree tree.now) kind (item.Snap snapshot.now)) after.now) }
{
    match kind {
        ListKind::Clones => next_clone(alloc, tree, snapshot, after),
        ListKind::Holds => next_tag(alloc, snapshot, after),
        ListKind::UserProperties => next_user_name_of_snapshot(alloc, tree, snapshot, after),
        ListKind::Children | ListKind::Snapshots | ListKind::Bookmarks => Ok(None),
    }
}

/// The name that comes next above a text.
fn next_name<T: Datasets>(
    alloc: Global,
    tree: &T,
    kind: ListKind,
    item: &Item,
    after: &[u8],
) -> Result<Option<Bytes>, NoMemory>
    requires well { IsWellFormed (T.tree tree.now) }
    requires there { at (T.tree tree.now).records (id_of item.now) ≡ Some item.now }
    ensures { IfOk result (IsNextName (names_in (T.tree tree.now) kind item.now) after.now) }
{
    match item {
        Item::Head(head) => next_of_head(alloc, tree, kind, head, after),
        Item::Snap(snapshot) => next_of_snapshot(alloc, tree, kind, snapshot, after),
        Item::Mark(_) => Ok(None),
    }
}

/// The names of a list, one after the other.
pub(crate) fn listed<T: Datasets>(
    alloc: Global,
    tree: &T,
    kind: ListKind,
    item: &Item,
    after: &[u8],
    limit: u64,
) -> Result<Texts, NoMemory>
    requires well { IsWellFormed (T.tree tree.now) }
    requires there { at (T.tree tree.now).records (id_of item.now) ≡ Some item.now }
    ensures { IfOk result (λ names. names ≡ names_listed after.now limit (names_in (T.tree tree.now) kind item.now)) }
{
    let mut names = Vec::new(alloc);
    let mut last = Bytes::from_bytes(alloc, after)?;
    let mut left = limit;
    while left > 0 {
        match next_name(alloc, tree, kind, item, last.as_slice())? {
            Some(name) => {
                names.push(name.copy(alloc)?)?;
                last = name;
            }
            None => return Ok(Sequence::from_vec(names)),
        }
        left -= 1;
    }
    Ok(Sequence::from_vec(names))
}
