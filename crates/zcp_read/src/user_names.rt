//! Which user property, and which tag of a hold, comes next by name.

ghost use Rattle.std.specs.Prelude.{◌≡◌, [], None, IfOk, fold, option_map};
ghost use Rattle.std.specs.Option.{option_map_or};
ghost use Rattle.zp_tree.specs.declared.item.Item.TheVariants as item;
ghost use Rattle.zp_tree.specs.NextByName.{is_above};
ghost use Rattle.zcp_read.specs.Lists.{IsNextName, better_name, better_setting, better_hold, user_names_in, settings_for, settings_from, settings_over, tags_of};

use std::alloc::Global;
use std::cmp::Ordering;
use zc_io::NoMemory;
use zp_names::{Bytes, Name};
use zp_props::{Setting, is_user_name};
use zp_tree::{Datasets, Head, Hold, Item, Snapshot};

fn is_above(text: &[u8], after: &[u8]) -> bool
    ensures { result ≡ is_above text.now after.now }
{
    match text.cmp(after) {
        Ordering::Greater => true,
        _ => false,
    }
}

/// The name, where it is above the text and comes before the one that was found.
fn better<'a>(found: Option<&'a [u8]>, after: &[u8], name: &'a [u8]) -> Option<&'a [u8]>
    ensures { option_map (λ n. n.now) result ≡ better_name after.now (option_map (λ n. n.now) found.entry) name.now }
{
    if !is_above(name, after) {
        return found;
    }
    match found {
        Some(old) if !is_above(old, name) => Some(old),
        _ => Some(name),
    }
}

/// The same of a setting's name, where it is a user property's.
fn better_setting<'a>(
    found: Option<&'a [u8]>,
    after: &[u8],
    setting: &'a Setting,
) -> Option<&'a [u8]>
    ensures { option_map (λ n. n.now) result ≡ better_setting after.now (option_map (λ n. n.now) found.entry) setting.now }
{
    let name = setting.name.as_slice();
    if is_user_name(name) {
        better(found, after, name)
    } else {
        found
    }
}

/// The same of settings, one after the other.
fn best_of<'a>(found: Option<&'a [u8]>, after: &[u8], settings: &'a [Setting]) -> Option<&'a [u8]>
    ensures { option_map (λ n. n.now) result ≡ fold (better_setting after.now) (option_map (λ n. n.now) found.entry) settings.now }
{
    let mut next = found;
    for setting in settings {
        next = better_setting(next, after, setting);
    }
    next
}

/// The same of what the head of this name has set, or takes over, where the record is one that it takes over from.
fn best_for<'a>(
    found: Option<&'a [u8]>,
    after: &[u8],
    name: &Name,
    item: Option<&'a Item>,
) -> Option<&'a [u8]>
    ensures { option_map (λ n. n.now) result ≡ fold (better_setting after.now) (option_map (λ n. n.now) found.entry) (option_map_or (settings_for name.now) (option_map (λ r. r.now) item.entry) []) }
{
    match item {
        Some(Item::Head(head)) if name.is_at_or_below(&head.name) => {
            best_of(found, after, head.settings.as_slice())
        }
        _ => found,
    }
}

/// The same of all that the head of this name has set or takes over.
fn best_from<'a, T: Datasets>(
    found: Option<&'a [u8]>,
    after: &[u8],
    name: &Name,
    tree: &'a T,
) -> Option<&'a [u8]>
    ensures { option_map (λ n. n.now) result ≡ fold (better_setting after.now) (option_map (λ n. n.now) found.entry) (settings_from (T.tree tree.now).records name.now) }
{
    let mut next = found;
    for place in 0..tree.len() {
        next = best_for(next, after, name, tree.nth(place));
    }
    next
}

/// The same of all that a snapshot and its head have.
fn best_over<'a, T: Datasets>(after: &[u8], snapshot: &'a Snapshot, tree: &'a T) -> Option<&'a [u8]>
    ensures { option_map (λ n. n.now) result ≡ fold (better_setting after.now) None (settings_over (T.tree tree.now).records (item.Snap snapshot.now)) }
{
    let own = best_of(None, after, snapshot.settings.as_slice());
    match tree.item(snapshot.owner) {
        Some(Item::Head(head)) => best_from(own, after, &head.name, tree),
        _ => own,
    }
}

fn copied(alloc: Global, name: Option<&[u8]>) -> Result<Option<Bytes>, NoMemory>
    ensures { IfOk result (λ copy. copy ≡ option_map (λ n. n.now) name.entry) }
{
    match name {
        Some(name) => Ok(Some(Bytes::from_bytes(alloc, name)?)),
        None => Ok(None),
    }
}

/// The user property of a head that comes next above a text.
#[tactic(auto, using(crate::proofs::Going::next_setting))]
pub(crate) fn next_user_name_of_head<T: Datasets>(
    alloc: Global,
    tree: &T,
    head: &Head,
    after: &[u8],
) -> Result<Option<Bytes>, NoMemory>
    ensures { IfOk result (IsNextName (user_names_in (settings_over (T.tree tree.now).records (item.Head head.now))) after.now) }
{
    copied(alloc, best_from(None, after, &head.name, tree))
}

/// The user property of a snapshot that comes next above a text.
#[tactic(auto, using(crate::proofs::Going::next_setting))]
pub(crate) fn next_user_name_of_snapshot<T: Datasets>(
    alloc: Global,
    tree: &T,
    snapshot: &Snapshot,
    after: &[u8],
) -> Result<Option<Bytes>, NoMemory>
    ensures { IfOk result (IsNextName (user_names_in (settings_over (T.tree tree.now).records (item.Snap snapshot.now))) after.now) }
{
    copied(alloc, best_over(after, snapshot, tree))
}

fn best_tag<'a>(after: &[u8], holds: &'a [Hold]) -> Option<&'a [u8]>
    ensures { option_map (λ n. n.now) result ≡ fold (better_hold after.now) None holds.now }
{
    let mut next = None;
    for hold in holds {
        next = better(next, after, hold.tag.as_slice());
    }
    next
}

/// The tag of a snapshot's holds that comes next above a text.
#[tactic(auto, using(crate::proofs::Going::next_hold))]
pub(crate) fn next_tag(
    alloc: Global,
    snapshot: &Snapshot,
    after: &[u8],
) -> Result<Option<Bytes>, NoMemory>
    ensures { IfOk result (IsNextName (tags_of snapshot.now) after.now) }
{
    copied(alloc, best_tag(after, snapshot.holds.as_slice()))
}
