//! User references on snapshots: zfs-hold(8).

ghost use Rattle.std.specs.Prelude.{◌≡◌, IfOk, option_map};
ghost use Rattle.zp_tree.specs.FirstByKey.{FirstBy, first_of};
ghost use Rattle.zp_tree.specs.Holds.{is_tag, is_tagged, has_tag, holds_without};
ghost use Rattle.zp_tree.specs.NextTag.{holds_at, tag_of, is_tag_above, tag_and_moment, IsNextTag};

use crate::next_by_name::is_above;
use crate::{Datasets, Hold, Holds, Item, Snapshot};
use std::alloc::Global;
use zc_io::NoMemory;
use zp_names::Sequence;
use zp_props::is_utf8;

/// The most bytes that the name of a reference has.
const LONGEST_TAG: usize = 255;

/// Whether the bytes can name a reference: a text of one byte or more, and of 255 at most.
pub fn is_tag(tag: &[u8]) -> bool
    ensures { result ≡ is_tag tag.now }
{
    !tag.is_empty() && tag.len() <= LONGEST_TAG && is_utf8(tag)
}

fn is_tagged(tag: &[u8], hold: &Hold) -> bool
    ensures { result ≡ is_tagged tag.now hold.now }
{
    tag == hold.tag.as_slice()
}

/// Whether a reference with this tag is on the snapshot.
pub fn has_tag(snapshot: &Snapshot, tag: &[u8]) -> bool
    ensures { result ≡ has_tag tag.now snapshot.now }
{
    snapshot
        .holds
        .as_slice()
        .iter()
        .any(|hold| is_tagged(tag, hold))
}

/// The references but that with this tag.
pub fn holds_without(alloc: Global, holds: &[Hold], tag: &[u8]) -> Result<Holds, NoMemory>
    ensures { IfOk result (λ left. left ≡ holds_without tag.now holds.now) }
{
    let mut left = Vec::new(alloc);
    for hold in holds {
        if !is_tagged(tag, hold) {
            left.push(hold.copy(alloc)?)?;
        }
    }
    Ok(Sequence::from_vec(left))
}

/// The hold, where its tag is above a text and comes before that of the one that was found.
fn better<'a>(found: Option<&'a Hold>, after: &[u8], hold: &'a Hold) -> Option<&'a Hold>
    ensures { option_map (λ h. h.now) result ≡ first_of tag_of (is_tag_above after.now hold.now) (option_map (λ h. h.now) found.entry) hold.now }
{
    if !is_above(hold.tag.as_slice(), after) {
        return found;
    }
    match found {
        Some(old) if !is_above(old.tag.as_slice(), hold.tag.as_slice()) => Some(old),
        _ => Some(hold),
    }
}

/// The hold whose tag comes first above a text, by bytes.
fn first_by_tag<'a>(holds: &'a [Hold], after: &[u8]) -> Option<&'a Hold>
    ensures { FirstBy tag_of holds.now (is_tag_above after.now) (option_map (λ h. h.now) result) }
{
    let mut found = None;
    for hold in holds {
        found = better(found, after, hold);
    }
    found
}

fn tag_and_moment(hold: Option<&Hold>) -> Option<(&[u8], u64)>
    ensures { option_map (λ p. (p.0.now, p.1)) result ≡ option_map tag_and_moment (option_map (λ h. h.now) hold.entry) }
{
    match hold {
        Some(hold) => Some((hold.tag.as_slice(), hold.at)),
        None => None,
    }
}

/// Of the user references on the snapshot with this id, the tag that comes first above a text, by bytes, with the moment
/// in seconds at which it was placed: zfs-holds(8). None where no tag is above it, and where there is no such snapshot.
#[tactic(auto, using(crate::proofs::NextTags::told_next, crate::proofs::NextTags::none_held))]
pub fn holds_after<'a, T: Datasets>(
    tree: &'a T,
    snapshot: u64,
    after: &[u8],
) -> Option<(&'a [u8], u64)>
    ensures { IsNextTag (holds_at (T.tree tree.now).records snapshot) after.now (option_map (λ p. (p.0.now, p.1)) result) }
{
    match tree.item(snapshot) {
        Some(Item::Snap(snapshot)) => {
            let first = first_by_tag(snapshot.holds.as_slice(), after);
            tag_and_moment(first)
        }
        _ => None,
    }
}
