//! The records of a tree as JSON.

ghost use Rattle.std.specs.Prelude.{◌≡◌, ◌++◌, true, Some, IfOk, IfSome, IsSome};
ghost use Rattle.std.specs.Str.{IsUtf8};
ghost use Rattle.serde_json.specs.Data.{string};
ghost use Rattle.serde_json.specs.View.{view};
ghost use Rattle.zp_names.specs.Names.{is_valid_short};
ghost use Rattle.zp_props.specs.Settings.{AreSettings, IsValue};
ghost use Rattle.zp_tree.specs.Tree.{at, id_of, head_name};
ghost use Rattle.zp_tree.specs.WellFormed.{IsWellFormed, Agrees, IsSnapshot, head_in, snapshot_in};
ghost use Rattle.zc_reply.specs.Journal.{array_of};
ghost use Rattle.zc_reply.specs.Records.{value_data, settings_data, hold_data, kind_text, name_data, origin_data, head_data, snapshot_data, bookmark_data, record_data};

use crate::json::{ToJson, array_of, text_of};
use serde_json::{Map, Value, json, put};
use std::alloc::{AllocError, Global};
use zp_props::{PropValue, Setting};
use zp_tree::{Bookmark, Datasets, Head, HeadKind, Hold, Item, Snapshot};

fn kind_text(kind: HeadKind) -> &'static str
    ensures { result.now ≡ kind_text kind }
{
    match kind {
        HeadKind::Filesystem => "filesystem",
        HeadKind::Volume => "volume",
    }
}

pub(crate) fn setting_value(alloc: Global, value: &PropValue) -> Result<Value, AllocError>
    requires { IsValue value.now }
    ensures { IfOk result (λ v. view v ≡ value_data value.now) }
{
    match value {
        PropValue::Number(number) => Ok(Value::from(*number)),
        PropValue::Text(text) => text.to_json(alloc),
    }
}

/// The settings by name, in byte order.
fn settings_value(alloc: Global, settings: &[Setting]) -> Result<Value, AllocError>
    requires { AreSettings settings.now }
    ensures { IfOk result (λ v. view v ≡ settings_data settings.now) }
{
    let mut members = Map::new(alloc);
    for setting in settings {
        let value = setting_value(alloc, &setting.value)?;
        put(&mut members, alloc, text_of(setting.name.as_slice()), value)?;
    }
    Ok(Value::Object(members))
}

impl ToJson for Hold {
    ghost as_data = { hold_data };

    ghost can_print = { λ hold. IsUtf8 hold.tag };

    fn to_json(&self, alloc: Global) -> Result<Value, AllocError> {
        json!(in alloc; [text_of(self.tag.as_slice()), self.at])
    }
}

/// The name of the head with this id.
fn owner_name<T: Datasets>(tree: &T, owner: u64) -> &str
    requires { IsSome (head_in (at (T.tree tree.now).records) owner) }
    ensures { head_name (T.tree tree.now).records owner ≡ Some result.now }
{
    match tree.item(owner) {
        Some(Item::Head(head)) => head.name.text(),
        _ => unreachable!(),
    }
}

/// A full name: the owner's name, the mark and the short name.
pub(crate) fn full_name(
    alloc: Global,
    owner: &str,
    mark: &str,
    short: &[u8],
) -> Result<Value, AllocError>
    requires { is_valid_short short.now ≡ true }
    ensures { IfOk result (λ v. view v ≡ string (owner.now ++ mark.now ++ short.now)) }
{
    let mut name = String::from_str(alloc, owner)?;
    name.push_str(mark)?;
    name.push_str(text_of(short))?;
    Ok(Value::from(name))
}

fn snapshot_name<T: Datasets>(
    alloc: Global,
    tree: &T,
    snapshot: &Snapshot,
) -> Result<Value, AllocError>
    requires owner { IsSome (head_in (at (T.tree tree.now).records) snapshot.now.owner) }
    requires short { is_valid_short snapshot.now.short ≡ true }
    ensures { IfOk result (λ v. view v ≡ name_data (T.tree tree.now).records (Item.Snap snapshot.now)) }
{
    let owner = owner_name(tree, snapshot.owner);
    full_name(alloc, owner, "@", snapshot.short.as_slice())
}

fn bookmark_name<T: Datasets>(
    alloc: Global,
    tree: &T,
    bookmark: &Bookmark,
) -> Result<Value, AllocError>
    requires owner { IsSome (head_in (at (T.tree tree.now).records) bookmark.now.owner) }
    requires short { is_valid_short bookmark.now.short ≡ true }
    ensures { IfOk result (λ v. view v ≡ name_data (T.tree tree.now).records (Item.Mark bookmark.now)) }
{
    let owner = owner_name(tree, bookmark.owner);
    full_name(alloc, owner, "#", bookmark.short.as_slice())
}

/// The name of the snapshot that a clone was made from, or null.
fn origin_value<T: Datasets>(
    alloc: Global,
    tree: &T,
    origin: Option<u64>,
) -> Result<Value, AllocError>
    requires agrees { Agrees (at (T.tree tree.now).records) }
    requires there { IfSome origin (λ id. IsSome (snapshot_in (at (T.tree tree.now).records) id)) }
    ensures { IfOk result (λ v. view v ≡ origin_data (T.tree tree.now).records origin) }
{
    let Some(id) = origin else {
        return Ok(Value::Null);
    };
    match tree.item(id) {
        Some(Item::Snap(snapshot)) => snapshot_name(alloc, tree, snapshot),
        _ => unreachable!(),
    }
}

pub(crate) fn head_value(alloc: Global, head: &Head, origin: Value) -> Result<Value, AllocError>
    requires { AreSettings head.now.settings }
    ensures { IfOk result (λ v. view v ≡ head_data (view origin) head.now) }
{
    let settings = settings_value(alloc, head.settings.as_slice())?;
    json!(in alloc; {
        "createtxg": head.createtxg,
        "id": head.id,
        "kind": kind_text(head.kind),
        "mounted": head.mounted,
        "name": head.name.text(),
        "origin": origin,
        "settings": settings,
        "stamp": head.stamp,
    })
}

pub(crate) fn snapshot_value(
    alloc: Global,
    snapshot: &Snapshot,
    name: Value,
) -> Result<Value, AllocError>
    requires { IsSnapshot snapshot.now }
    ensures { IfOk result (λ v. view v ≡ snapshot_data (view name) snapshot.now) }
{
    let holds = array_of(alloc, snapshot.holds.as_slice())?;
    let settings = settings_value(alloc, snapshot.settings.as_slice())?;
    json!(in alloc; {
        "createtxg": snapshot.createtxg,
        "deferred": snapshot.deferred,
        "holds": holds,
        "id": snapshot.id,
        "kind": "snapshot",
        "name": name,
        "settings": settings,
        "stamp": snapshot.stamp,
    })
}

pub(crate) fn bookmark_value(
    alloc: Global,
    bookmark: &Bookmark,
    name: Value,
) -> Result<Value, AllocError>
    ensures { IfOk result (λ v. view v ≡ bookmark_data (view name) bookmark.now) }
{
    json!(in alloc; {
        "createtxg": bookmark.createtxg,
        "id": bookmark.id,
        "kind": "bookmark",
        "name": name,
        "source": bookmark.source,
    })
}

fn record_value<T: Datasets>(alloc: Global, tree: &T, item: &Item) -> Result<Value, AllocError>
    requires agrees { Agrees (at (T.tree tree.now).records) }
    requires there { at (T.tree tree.now).records (id_of item.now) ≡ Some item.now }
    ensures { IfOk result (λ v. view v ≡ record_data (T.tree tree.now).records item.now) }
{
    match item {
        Item::Head(head) => {
            let origin = origin_value(alloc, tree, head.origin)?;
            head_value(alloc, head, origin)
        }
        Item::Snap(snapshot) => {
            let name = snapshot_name(alloc, tree, snapshot)?;
            snapshot_value(alloc, snapshot, name)
        }
        Item::Mark(bookmark) => {
            let name = bookmark_name(alloc, tree, bookmark)?;
            bookmark_value(alloc, bookmark, name)
        }
    }
}

/// The records in order of birth: their ids rise in that order.
pub(crate) fn records_value<T: Datasets>(alloc: Global, tree: &T) -> Result<Value, AllocError>
    requires { IsWellFormed (T.tree tree.now) }
    ensures { IfOk result (λ v. let records = (T.tree tree.now).records in view v ≡ array_of (record_data records) records) }
{
    let mut values = Vec::new(alloc);
    for id in 0..tree.next_id() {
        if let Some(item) = tree.item(id) {
            values.push(record_value(alloc, tree, item)?)?;
        }
    }
    Ok(Value::Array(values))
}
