//! Looking records up by name.

ghost use Rattle.std.specs.Prelude.{◌≡◌, Some, IfSome, option_map};
ghost use Rattle.zp_tree.specs.Inherited.{set_on, told_by, is_on, is_readonly};
ghost use Rattle.zp_tree.specs.Tree.{at, id_of, named, exists, is_full};
ghost use Rattle.zp_tree.specs.MakeBookmark.{point_named};
ghost use Rattle.zp_tree.specs.Rollback.{rollback_source};
ghost use Rattle.zp_tree.specs.WellFormed.{IsWellFormed};

use crate::{Datasets, Effective, Head, Item, MOST_RECORDS, PointInTime, Snapshot};
use zp_names::Name;
use zp_props::PropValue;

/// The record with this full name; none where there is none.
pub fn named<'a, T: Datasets>(tree: &'a T, name: &Name) -> Option<&'a Item>
    requires { IsWellFormed (T.tree tree.now) }
    ensures named { option_map (λ r. r.now) result ≡ named (T.tree tree.now).records name.now }
    // It stands at its own id.
    ensures there { IfSome result (λ r. at (T.tree tree.now).records (id_of r.now) ≡ Some r.now) }
{
    let id = tree.find(name)?;
    tree.item(id)
}

/// Whether a record has this full name.
pub fn exists<T: Datasets>(tree: &T, name: &Name) -> bool
    ensures { result ≡ exists (T.tree tree.now) name.now }
{
    tree.find(name).is_some()
}

/// The point in time for which the snapshot or the bookmark of this name stands; none where there is neither.
pub fn point_named<T: Datasets>(tree: &T, name: &Name) -> Option<PointInTime>
    requires { IsWellFormed (T.tree tree.now) }
    ensures { result ≡ point_named (T.tree tree.now) name.now }
{
    match named(tree, name) {
        Some(item) => item.point_in_time(),
        None => None,
    }
}

/// What a head is taken back to: its latest snapshot, else its origin.
pub fn rollback_source<'a, T: Datasets>(tree: &'a T, head: &Head) -> Option<&'a Snapshot>
    ensures { option_map (λ s. s.now) result ≡ rollback_source (T.tree tree.now) head.now }
{
    if let Some(snapshot) = tree.latest_snapshot(head.id) {
        return Some(snapshot);
    }
    match tree.item(head.origin?) {
        Some(Item::Snap(snapshot)) => Some(snapshot),
        _ => None,
    }
}

/// Whether the tree takes no further record.
pub fn is_full<T: Datasets>(tree: &T) -> bool
    ensures { result ≡ is_full (T.tree tree.now) }
{
    tree.len() >= MOST_RECORDS || tree.next_id() == u64::MAX
}

/// Whether the head can't be written: its value of `readonly` (zfsprops(7)) is on.
pub fn is_readonly<T: Datasets>(tree: &T, head: &Head) -> bool
    requires { IsWellFormed (T.tree tree.now) }
    ensures { result ≡ is_readonly (T.tree tree.now) head.now }
{
    is_on(tree.effective(head.id, b"readonly"))
}

fn is_on(found: Option<Effective<'_>>) -> bool
    ensures { result ≡ is_on (option_map told_by found.entry) }
{
    match found {
        Some(Effective::Set { value, .. }) => is_word_on(value),
        _ => false,
    }
}

fn is_word_on(value: &PropValue) -> bool
    ensures { result ≡ is_on (Some (set_on value.now 0)) }
{
    match value {
        PropValue::Text(word) => word.as_slice() == b"on".as_slice(),
        PropValue::Number(_) => false,
    }
}
