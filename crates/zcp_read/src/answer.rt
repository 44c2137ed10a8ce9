//! Queries and their answers.

ghost use Rattle.std.specs.Prelude.{◌≡◌, ℕ, IfOk};
ghost use Rattle.zp_tree.specs.WellFormed.{IsWellFormed};
ghost use Rattle.zp_names.specs.NameParts.{is_snapshot_name};
ghost use Rattle.zp_tree.specs.Settable.{is_settable_name};
ghost use Rattle.zcp_read.specs.Lists.{is_listed_name};
ghost use Rattle.zcp_read.specs.Answers.{refused, list_answer, get_answer, answer_of};

use crate::list::listed;
use crate::told::{is_told, told_of};
use std::alloc::Global;
use zc_io::NoMemory;
use zp_calls::Reply;
use zp_names::errno::{EINVAL, ENOENT};
use zp_names::{Form, ListKind, Name, Query, Verdict};
use zp_tree::{Datasets, exists, named};

/// The most names that a list has.
const MOST_NAMES: u64 = 256;

fn refused(alloc: Global, errno: u32) -> Reply
    ensures { result ≡ refused errno }
{
    Reply::Errno(Verdict::plain(alloc, errno))
}

fn is_snapshot_name(name: &Name) -> bool
    ensures { result ≡ is_snapshot_name name.now }
{
    match name.form() {
        Form::Snap => true,
        _ => false,
    }
}

fn is_settable_name(name: &Name) -> bool
    ensures { result ≡ is_settable_name name.now }
{
    name.is_head() || is_snapshot_name(name)
}

/// Whether a list of this kind goes over what a dataset of this name has.
fn is_listed_name(kind: ListKind, name: &Name) -> bool
    ensures { result ≡ is_listed_name kind name.now }
{
    match kind {
        ListKind::Children | ListKind::Snapshots | ListKind::Bookmarks => name.is_head(),
        ListKind::Clones | ListKind::Holds => is_snapshot_name(name),
        ListKind::UserProperties => is_settable_name(name),
    }
}

fn list_answer<T: Datasets>(
    alloc: Global,
    tree: &T,
    kind: ListKind,
    name: &Name,
    after: &[u8],
    limit: u64,
) -> Result<Reply, NoMemory>
    requires { IsWellFormed (T.tree tree.now) }
    ensures { IfOk result (λ reply. reply ≡ list_answer (T.tree tree.now) kind name.now after.now limit) }
{
    if !is_listed_name(kind, name) {
        return Ok(refused(alloc, EINVAL));
    }
    let Some(item) = named(tree, name) else {
        return Ok(refused(alloc, ENOENT));
    };
    let names = listed(alloc, tree, kind, item, after, MOST_NAMES.min(limit))?;
    Ok(Reply::Names(names))
}

fn get_answer<T: Datasets>(
    alloc: Global,
    tree: &T,
    name: &Name,
    property: &[u8],
) -> Result<Reply, NoMemory>
    requires { IsWellFormed (T.tree tree.now) }
    ensures { IfOk result (λ reply. reply ≡ get_answer (T.tree tree.now) name.now property.now) }
{
    if !is_settable_name(name) {
        return Ok(refused(alloc, EINVAL));
    }
    let Some(item) = named(tree, name) else {
        return Ok(refused(alloc, ENOENT));
    };
    let Some(kind) = item.kind() else {
        return Ok(refused(alloc, EINVAL));
    };
    if !is_told(property, kind) {
        return Ok(refused(alloc, EINVAL));
    }
    match told_of(alloc, tree, property, item, kind)? {
        Some(reply) => Ok(reply),
        None => Ok(refused(alloc, ENOENT)),
    }
}

/// The answer to a query. The tree stays as it is.
pub fn query<T: Datasets>(alloc: Global, tree: &T, query: &Query) -> Result<Reply, NoMemory>
    requires { IsWellFormed (T.tree tree.now) }
    ensures { IfOk result (λ reply. reply ≡ answer_of (T.tree tree.now) query.now) }
{
    match query {
        Query::Exists { name } => Ok(Reply::Exists(exists(tree, name))),
        Query::List {
            kind,
            name,
            after,
            limit,
        } => list_answer(alloc, tree, *kind, name, after.as_slice(), *limit),
        Query::Get { name, prop } => get_answer(alloc, tree, name, prop.as_slice()),
    }
}
