//! Going through the records in the order of their names.

ghost use Rattle.std.specs.Prelude.{◌≡◌, ◌∷◌, ◌++◌, option_map};
ghost use Rattle.std.specs.Ordering.{nat_cmp};
ghost use Rattle.std.specs.Cmp.Lexicographic.{slice_cmp};
ghost use Rattle.zp_tree.specs.NextByName.{is_above, is_id, key_of, child_above, snapshot_above, is_clone_above, bookmark_above, Comes, better};

use crate::Item;
use std::cmp::Ordering;

/// Which records are gone through.
pub(crate) trait Wanted {
    ghost use Rattle.std.specs.Prelude.{Bool};
    ghost use Rattle.zp_tree.specs.declared.item.Item.{Item};

    ghost wants: { Self → Item → Bool };

    fn wants(&self, item: &Item) -> bool
        ensures { result ≡ wants self.now item.now };
}

/// The heads right below the head of this name, with names above a text.
#[derive(Drop)]
pub(crate) struct Children<'a> {
    pub(crate) parent: &'a [u8],
    pub(crate) after: &'a [u8],
}

/// The snapshots of the head with this id and name, with full names above a text.
#[derive(Drop)]
pub(crate) struct Snapshots<'a> {
    pub(crate) owner: u64,
    pub(crate) name: &'a [u8],
    pub(crate) after: &'a [u8],
}

/// The heads whose origin is this snapshot, with names above a text.
#[derive(Drop)]
pub(crate) struct Clones<'a> {
    pub(crate) snapshot: u64,
    pub(crate) after: &'a [u8],
}

/// The bookmarks of the head with this id and name, with full names above a text.
#[derive(Drop)]
pub(crate) struct Bookmarks<'a> {
    pub(crate) owner: u64,
    pub(crate) name: &'a [u8],
    pub(crate) after: &'a [u8],
}

pub(crate) fn is_above(text: &[u8], after: &[u8]) -> bool
    ensures { result ≡ is_above text.now after.now }
{
    match text.cmp(after) {
        Ordering::Greater => true,
        _ => false,
    }
}

/// How the owner's name, the mark and the short name together compare to a text.
fn cmp_joined(owner: &[u8], mark: u8, short: &[u8], text: &[u8]) -> Ordering
    ensures { result ≡ slice_cmp nat_cmp (owner.now ++ (mark ∷ short.now)) text.now }
{
    match (owner.split_first(), text.split_first()) {
        (None, None) => Ordering::Greater,
        (None, Some((byte, rest))) => mark.cmp(byte).then(short.cmp(rest)),
        (Some(_), None) => Ordering::Greater,
        (Some((own, owner)), Some((byte, rest))) => match own.cmp(byte) {
            Ordering::Equal => cmp_joined(owner, mark, short, rest),
            other => other,
        },
    }
}

fn is_joined_above(owner: &[u8], mark: u8, short: &[u8], after: &[u8]) -> bool
    ensures { result ≡ is_above (owner.now ++ (mark ∷ short.now)) after.now }
{
    match cmp_joined(owner, mark, short, after) {
        Ordering::Greater => true,
        _ => false,
    }
}

impl<'a> Wanted for Children<'a> {
    ghost wants = { λ w. child_above w.parent.now w.after.now };

    fn wants(&self, item: &Item) -> bool {
        let Item::Head(head) = item else {
            return false;
        };
        match head.name.parent() {
            Some(parent) => {
                parent.as_bytes() == self.parent
                    && is_above(head.name.text().as_bytes(), self.after)
            }
            None => false,
        }
    }
}

impl<'a> Wanted for Snapshots<'a> {
    ghost wants = { λ w. snapshot_above w.owner w.name.now w.after.now };

    fn wants(&self, item: &Item) -> bool {
        match item {
            Item::Snap(snapshot) => {
                snapshot.owner == self.owner
                    && is_joined_above(self.name, b'@', snapshot.short.as_slice(), self.after)
            }
            _ => false,
        }
    }
}

impl<'a> Wanted for Clones<'a> {
    ghost wants = { λ w. is_clone_above w.snapshot w.after.now };

    fn wants(&self, item: &Item) -> bool {
        let Item::Head(head) = item else {
            return false;
        };
        match head.origin {
            Some(origin) => {
                origin == self.snapshot && is_above(head.name.text().as_bytes(), self.after)
            }
            None => false,
        }
    }
}

impl<'a> Wanted for Bookmarks<'a> {
    ghost wants = { λ w. bookmark_above w.owner w.name.now w.after.now };

    fn wants(&self, item: &Item) -> bool {
        match item {
            Item::Mark(bookmark) => {
                bookmark.owner == self.owner
                    && is_joined_above(self.name, b'#', bookmark.short.as_slice(), self.after)
            }
            _ => false,
        }
    }
}

fn key(item: &Item) -> &[u8]
    ensures { result.now ≡ key_of item.now }
{
    match item {
        Item::Head(head) => head.name.text().as_bytes(),
        Item::Snap(snapshot) => snapshot.short.as_slice(),
        Item::Mark(bookmark) => bookmark.short.as_slice(),
    }
}

/// The record, where it is wanted and comes before the one that was found.
fn better<'a>(found: Option<&'a Item>, wanted: bool, item: &'a Item) -> Option<&'a Item>
    ensures { option_map (λ r. r.now) result ≡ better wanted (option_map (λ r. r.now) found.entry) item.now }
{
    if !wanted {
        return found;
    }
    match found {
        Some(old) if !is_above(key(old), key(item)) => Some(old),
        _ => Some(item),
    }
}

/// The record that is wanted and comes first by name.
pub(crate) fn first_by_name<'a, W: Wanted>(records: &'a [Item], wanted: &W) -> Option<&'a Item>
    ensures { Comes records.now (W.wants wanted.now) (option_map (λ r. r.now) result) }
{
    let mut found = None;
    for item in records {
        found = better(found, wanted.wants(item), item);
    }
    found
}
