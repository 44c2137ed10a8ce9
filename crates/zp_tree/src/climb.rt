//! The value of a property in a tree as a vector: from a head up, parent by parent.

ghost use Rattle.std.specs.Prelude.{◌≡◌, Some, None, MatchOption, IfSome, find, option_map, option_and_then};
ghost use Rattle.zp_names.specs.NameParts.{parent_of};
ghost use Rattle.zp_tree.specs.declared.item.Item.TheVariants as item;
ghost use Rattle.zp_tree.specs.Tree.{at, id_of, as_head};
ghost use Rattle.zp_tree.specs.Inherited.{holds_property, nearest_setter, setter_for, own_value, value_set_on, default_told, effective_on_head, effective_on_snapshot, effective_on, told_by};
ghost use Rattle.zp_tree.specs.Climbing.{is_head_called, AreOfTree};

use crate::plain::item_at;
use crate::{Effective, Head, Item, Snapshot};
use zp_props::{Kind3, Setting, can_have, has_default, is_inherited, setting_named};

fn holds_property(property: &[u8], head: &Head) -> bool
    ensures { result ≡ holds_property property.now head.now }
{
    can_have(head.kind.kind(), property)
        && setting_named(head.settings.as_slice(), property).is_some()
}

fn is_head_called(name: &[u8], item: &Item) -> bool
    ensures { result ≡ is_head_called name.now item.now }
{
    match item {
        Item::Head(head) => head.name.text().as_bytes() == name,
        _ => false,
    }
}

fn first_called<'a>(records: &'a [Item], name: &[u8]) -> Option<&'a Item>
    ensures { option_map (λ r. r.now) result ≡ find (is_head_called name.now) records.now }
{
    records.iter().find(|item| is_head_called(name, item))
}

fn head_called<'a>(records: &'a [Item], name: &[u8]) -> Option<&'a Head>
    ensures { option_map (λ d. d.now) result ≡ option_and_then as_head (find (is_head_called name.now) records.now) }
{
    match first_called(records, name) {
        Some(Item::Head(head)) => Some(head),
        _ => None,
    }
}

/// The head right above another; none above the pool's.
fn head_above<'a>(records: &'a [Item], head: &Head) -> Option<&'a Head>
    requires tree { AreOfTree records.now }
    requires there { at records.now head.now.id ≡ Some (item.Head head.now) }
    ensures { MatchOption result (parent_of head.now.name ≡ None)
        (λ d. (parent_of head.now.name ≡ Some d.now.name) × (at records.now d.now.id ≡ Some (item.Head d.now))) }
{
    let parent = head.name.parent()?;
    head_called(records, parent.as_bytes())
}

/// The first head, from this one up, that has the property set.
fn nearest_setter<'a>(records: &'a [Item], property: &[u8], head: &'a Head) -> Option<&'a Head>
    requires tree { AreOfTree records.now }
    requires there { at records.now head.now.id ≡ Some (item.Head head.now) }
    ensures { option_map (λ d. d.now) result ≡ nearest_setter records.now property.now head.now.name }
{
    if holds_property(property, head) {
        return Some(head);
    }
    match head_above(records, head) {
        Some(above) => nearest_setter(records, property, above),
        None => None,
    }
}

/// The head that a head has the property from.
fn setter_for<'a>(records: &'a [Item], property: &[u8], head: &'a Head) -> Option<&'a Head>
    requires tree { AreOfTree records.now }
    requires there { at records.now head.now.id ≡ Some (item.Head head.now) }
    ensures { option_map (λ d. d.now) result ≡ setter_for records.now property.now head.now }
{
    if is_inherited(property) {
        return nearest_setter(records, property, head);
    }
    if holds_property(property, head) {
        Some(head)
    } else {
        None
    }
}

fn own_value<'a>(property: &[u8], id: u64, settings: &'a [Setting]) -> Option<Effective<'a>>
    ensures { option_map told_by result ≡ own_value property.now id settings.now }
{
    match setting_named(settings, property) {
        Some(setting) => Some(Effective::Set {
            value: &setting.value,
            id,
        }),
        None => None,
    }
}

fn default_told<'a>(property: &[u8]) -> Option<Effective<'a>>
    ensures { option_map told_by result ≡ default_told property.now }
{
    if has_default(property) {
        Some(Effective::ByDefault)
    } else {
        None
    }
}

/// The value that a head has set, on itself or above.
fn set_value<'a>(records: &'a [Item], property: &[u8], head: &'a Head) -> Option<Effective<'a>>
    requires tree { AreOfTree records.now }
    requires there { at records.now head.now.id ≡ Some (item.Head head.now) }
    ensures { option_map told_by result ≡ option_and_then (value_set_on property.now) (setter_for records.now property.now head.now) }
{
    match setter_for(records, property, head) {
        Some(setter) => own_value(property, setter.id, setter.settings.as_slice()),
        None => None,
    }
}

/// The value that a head has.
fn effective_on_head<'a>(
    records: &'a [Item],
    property: &[u8],
    head: &'a Head,
) -> Option<Effective<'a>>
    requires tree { AreOfTree records.now }
    requires there { at records.now head.now.id ≡ Some (item.Head head.now) }
    ensures { option_map told_by result ≡ effective_on_head records.now property.now head.now }
{
    if !can_have(head.kind.kind(), property) {
        return None;
    }
    if let Some(value) = set_value(records, property, head) {
        return Some(value);
    }
    default_told(property)
}

/// The record with this id.
fn record_at(records: &[Item], id: u64) -> Option<&Item>
    ensures record { option_map (λ r. r.now) result ≡ at records.now id }
    // It stands at its own id.
    ensures there { IfSome result (λ r. at records.now (id_of r.now) ≡ Some r.now) }
{
    item_at(records, id)
}

/// The value that the head with this id has.
fn value_of_owner<'a>(records: &'a [Item], property: &[u8], owner: u64) -> Option<Effective<'a>>
    requires { AreOfTree records.now }
    ensures { option_map told_by result ≡ option_and_then (effective_on_head records.now property.now) (option_and_then as_head (at records.now owner)) }
{
    match record_at(records, owner) {
        Some(Item::Head(head)) => effective_on_head(records, property, head),
        _ => None,
    }
}

/// The value that a snapshot has: its own, else that of its head.
fn effective_on_snapshot<'a>(
    records: &'a [Item],
    property: &[u8],
    snapshot: &'a Snapshot,
) -> Option<Effective<'a>>
    requires { AreOfTree records.now }
    ensures { option_map told_by result ≡ effective_on_snapshot records.now property.now snapshot.now }
{
    if !can_have(Kind3::Snapshot, property) {
        return None;
    }
    if let Some(own) = own_value(property, snapshot.id, snapshot.settings.as_slice()) {
        return Some(own);
    }
    value_of_owner(records, property, snapshot.owner)
}

/// The value that the dataset with this id has.
pub(crate) fn effective<'a>(records: &'a [Item], id: u64, property: &[u8]) -> Option<Effective<'a>>
    requires { AreOfTree records.now }
    ensures { option_map told_by result ≡ option_and_then (effective_on records.now property.now) (at records.now id) }
{
    match record_at(records, id) {
        Some(Item::Head(head)) => effective_on_head(records, property, head),
        Some(Item::Snap(snapshot)) => effective_on_snapshot(records, property, snapshot),
        _ => None,
    }
}
