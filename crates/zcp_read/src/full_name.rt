//! Full names of records, also those that are longer than a name may be.

ghost use Rattle.std.specs.Prelude.{◌≡◌, ◌++◌, ◌∷◌, IfOk, option_map, option_and_then};
ghost use Rattle.zp_tree.specs.Tree.{head_name, full_name};
ghost use Rattle.zcp_read.specs.Told.{full_name_at};

use std::alloc::Global;
use zc_io::NoMemory;
use zp_names::{Bytes, Name, Sequence};
use zp_tree::{Datasets, Item};

/// A dataset's name, a mark and a short name together.
fn joined(alloc: Global, head: &Name, mark: u8, short: &[u8]) -> Result<Bytes, NoMemory>
    ensures { IfOk result (λ name. name ≡ head.now ++ (mark ∷ short.now)) }
{
    let mut text = Vec::from_slice(alloc, head.text().as_bytes())?;
    text.push(mark)?;
    text.extend_from_slice(short)?;
    Ok(Sequence::from_vec(text))
}

/// The full name of what the head with this id owns; none where there is no such head.
fn owned_name<T: Datasets>(
    alloc: Global,
    tree: &T,
    owner: u64,
    mark: u8,
    short: &[u8],
) -> Result<Option<Bytes>, NoMemory>
    ensures { IfOk result (λ name. name ≡ option_map (λ n. n ++ (mark ∷ short.now)) (head_name (T.tree tree.now).records owner)) }
{
    match tree.item(owner) {
        Some(Item::Head(head)) => Ok(Some(joined(alloc, &head.name, mark, short)?)),
        _ => Ok(None),
    }
}

fn full_name<T: Datasets>(alloc: Global, tree: &T, item: &Item) -> Result<Option<Bytes>, NoMemory>
    ensures { IfOk result (λ name. name ≡ full_name (T.tree tree.now).records item.now) }
{
    match item {
        Item::Head(head) => Ok(Some(Bytes::from_bytes(alloc, head.name.text().as_bytes())?)),
        Item::Snap(snapshot) => {
            owned_name(alloc, tree, snapshot.owner, b'@', snapshot.short.as_slice())
        }
        Item::Mark(bookmark) => {
            owned_name(alloc, tree, bookmark.owner, b'#', bookmark.short.as_slice())
        }
    }
}

/// The full name of the record with this id; none where there is none.
pub(crate) fn full_name_at<T: Datasets>(
    alloc: Global,
    tree: &T,
    id: u64,
) -> Result<Option<Bytes>, NoMemory>
    ensures { IfOk result (λ name. name ≡ full_name_at (T.tree tree.now).records id) }
{
    match tree.item(id) {
        Some(item) => full_name(alloc, tree, item),
        None => Ok(None),
    }
}

/// The same of the record that a look-up found.
pub(crate) fn name_of_found<T: Datasets>(
    alloc: Global,
    tree: &T,
    found: Option<u64>,
) -> Result<Option<Bytes>, NoMemory>
    ensures { IfOk result (λ name. name ≡ option_and_then (full_name_at (T.tree tree.now).records) found) }
{
    match found {
        Some(id) => full_name_at(alloc, tree, id),
        None => Ok(None),
    }
}
