//! The value of a property, and where it comes from: `zfs.get_prop` of zfs-program(8).

ghost use Rattle.std.specs.Prelude.{◌≡◌, Some, IfOk};
ghost use Rattle.zp_props.specs.Properties.{default_named};
ghost use Rattle.zp_tree.specs.WellFormed.{IsWellFormed};
ghost use Rattle.zcp_read.specs.Told.{is_clones, is_told_natively, is_told, type_text, createtxg_of, stamp_of, origin_name, count_of_holds, is_deferred, on_or_off, value_told, settable_told, property_told};

use crate::full_name::full_name_at;
use std::alloc::Global;
use zc_io::NoMemory;
use zp_calls::Reply;
use zp_names::Bytes;
use zp_props::{
    Kind3, Prop, PropValue, can_have, default_of, is_user_name, is_valid_user_name, prop_named,
};
use zp_tree::{Datasets, Effective, Item};

fn is_clones(prop: Prop) -> bool
    ensures { result ≡ is_clones prop }
{
    match prop {
        Prop::Clones => true,
        _ => false,
    }
}

fn is_told_natively(kind: Kind3, prop: Prop) -> bool
    ensures { result ≡ is_told_natively kind prop }
{
    prop.is_for(kind) && !is_clones(prop)
}

/// Whether a dataset of this kind is told the property.
pub(crate) fn is_told(property: &[u8], kind: Kind3) -> bool
    ensures { result ≡ is_told property.now kind }
{
    if is_user_name(property) {
        return is_valid_user_name(property);
    }
    match prop_named(property) {
        Some(prop) => is_told_natively(kind, prop),
        None => false,
    }
}

fn type_text(kind: Kind3) -> &'static str
    ensures { result.now ≡ type_text kind }
{
    match kind {
        Kind3::Filesystem => "filesystem",
        Kind3::Volume => "volume",
        Kind3::Snapshot => "snapshot",
    }
}

fn createtxg(item: &Item) -> u64
    ensures { result ≡ createtxg_of item.now }
{
    match item {
        Item::Head(head) => head.createtxg,
        Item::Snap(snapshot) => snapshot.createtxg,
        Item::Mark(bookmark) => bookmark.createtxg,
    }
}

fn stamp(item: &Item) -> u64
    ensures { result ≡ stamp_of item.now }
{
    match item {
        Item::Head(head) => head.stamp,
        Item::Snap(snapshot) => snapshot.stamp,
        Item::Mark(_) => 0,
    }
}

fn origin_name<T: Datasets>(alloc: Global, tree: &T, item: &Item) -> Result<Option<Bytes>, NoMemory>
    ensures { IfOk result (λ name. name ≡ origin_name (T.tree tree.now).records item.now) }
{
    let Item::Head(head) = item else {
        return Ok(None);
    };
    match head.origin {
        Some(id) => full_name_at(alloc, tree, id),
        None => Ok(None),
    }
}

fn count_of_holds(item: &Item) -> u64
    ensures { result ≡ count_of_holds item.now }
{
    match item {
        Item::Snap(snapshot) => snapshot.holds.as_slice().len() as u64,
        _ => 0,
    }
}

fn is_deferred(item: &Item) -> bool
    ensures { result ≡ is_deferred item.now }
{
    match item {
        Item::Snap(snapshot) => snapshot.deferred,
        _ => false,
    }
}

fn on_or_off(on: bool) -> &'static str
    ensures { result.now ≡ on_or_off on }
{
    if on { "on" } else { "off" }
}

fn word(alloc: Global, word: &str) -> Result<Option<PropValue>, NoMemory>
    ensures { IfOk result (λ value. value ≡ Some (PropValue.Text word.now)) }
{
    let text = Bytes::from_bytes(alloc, word.as_bytes())?;
    Ok(Some(PropValue::Text(text)))
}

/// The value of a property that is only told.
fn value_told<T: Datasets>(
    alloc: Global,
    tree: &T,
    kind: Kind3,
    item: &Item,
    prop: Prop,
) -> Result<Option<PropValue>, NoMemory>
    ensures { IfOk result (λ value. value ≡ value_told (T.tree tree.now).records kind item.now prop) }
{
    match prop {
        Prop::DatasetType => word(alloc, type_text(kind)),
        Prop::Guid => Ok(Some(PropValue::Number(item.id()))),
        Prop::Createtxg => Ok(Some(PropValue::Number(createtxg(item)))),
        Prop::Stamp => Ok(Some(PropValue::Number(stamp(item)))),
        Prop::Origin => match origin_name(alloc, tree, item)? {
            Some(name) => Ok(Some(PropValue::Text(name))),
            None => Ok(None),
        },
        Prop::Userrefs => Ok(Some(PropValue::Number(count_of_holds(item)))),
        Prop::DeferDestroy => word(alloc, on_or_off(is_deferred(item))),
        _ => Ok(None),
    }
}

fn default_named(alloc: Global, property: &[u8]) -> Result<Option<PropValue>, NoMemory>
    ensures { IfOk result (λ value. value ≡ default_named property.now) }
{
    if is_user_name(property) {
        return Ok(None);
    }
    match prop_named(property) {
        Some(prop) => default_of(alloc, prop),
        None => Ok(None),
    }
}

/// The value of a property that can be set, with its source.
fn settable_told<T: Datasets>(
    alloc: Global,
    tree: &T,
    property: &[u8],
    item: &Item,
) -> Result<Option<Reply>, NoMemory>
    requires { IsWellFormed (T.tree tree.now) }
    ensures { IfOk result (λ told. told ≡ settable_told (T.tree tree.now) property.now item.now) }
{
    match tree.effective(item.id(), property) {
        Some(Effective::Set { value, id }) => Ok(Some(Reply::Prop {
            value: Some(value.copy(alloc)?),
            source: full_name_at(alloc, tree, id)?,
        })),
        Some(Effective::ByDefault) => Ok(Some(Reply::Prop {
            value: default_named(alloc, property)?,
            source: Some(Bytes::from_bytes(alloc, b"default")?),
        })),
        None => Ok(None),
    }
}

/// The value of a property that a dataset of this kind is told, with its source.
pub(crate) fn told_of<T: Datasets>(
    alloc: Global,
    tree: &T,
    property: &[u8],
    item: &Item,
    kind: Kind3,
) -> Result<Option<Reply>, NoMemory>
    requires { IsWellFormed (T.tree tree.now) }
    ensures { IfOk result (λ told. told ≡ property_told (T.tree tree.now) property.now item.now kind) }
{
    if can_have(kind, property) {
        return settable_told(alloc, tree, property, item);
    }
    match prop_named(property) {
        Some(prop) => Ok(Some(Reply::Prop {
            value: value_told(alloc, tree, kind, item, prop)?,
            source: None,
        })),
        None => Ok(None),
    }
}
