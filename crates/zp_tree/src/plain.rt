//! The tree as a vector of its records.

ghost use Rattle.std.specs.Prelude.{◌≡◌, ◌≤◌, ◌-◌, ◌++◌, ◌∷◌, true, bytes_eq, option_map, IfOk, IsSome, position, sum_by, vec_len, vec_capacity};
ghost use Rattle.zp_names.specs.NameParts.{is_pool};
ghost use Rattle.zp_tree.specs.Tree.{at, has_id, id_of, put, without, head_name, is_called, named};
ghost use Rattle.std.specs.Option.{option_or};
ghost use Rattle.zp_tree.specs.NextByName.{IsNext, is_child_above, is_snapshot_above, is_clone_above, is_bookmark_above};
ghost use Rattle.zp_tree.specs.NewPool.{new_pool};
ghost use Rattle.zp_tree.specs.Rollback.{own_snapshot, latest};
ghost use Rattle.zp_tree.specs.WellFormed.{IsWellFormed, user_settings, most_user_settings};

use crate::climb::effective;
use crate::full_name::name_of;
use crate::next_by_name::{Bookmarks, Children, Clones, Snapshots, first_by_name};
use crate::{Datasets, Effective, Head, HeadKind, Item, Snapshot};
use std::alloc::Global;
use std::marker::Model;
use zc_io::NoMemory;
use zp_names::Name;
use zp_props::{Settings, user_count};

/// A tree as a vector of its records: each look-up walks it.
#[derive(Debug, Drop)]
pub struct PlainTree {
    records: Vec<Item>,
    next: u64,
}

impl Model for PlainTree {
    ghost use Rattle.std.specs.Prelude.{◌-◌, vec_len, vec_capacity};
    ghost use Rattle.zp_tree.specs.Tree.{Rises};
    ghost use Rattle.zp_tree.specs.Kept.{Kept};

    ghost Value = { Kept };

    ghost view = { λ a. record { tree = record { records = a.records.items; next = a.next }; room = vec_capacity a.records - vec_len a.records } };

    ghost invariant = { λ a. Rises 0 a.records.items a.next };
}

impl PlainTree {
    /// The tree of a new pool: its root alone, with id 1.
    pub fn new(alloc: Global, pool: &Name) -> Result<PlainTree, NoMemory>
        requires { is_pool pool.now ≡ true }
        ensures tree { IfOk result (λ t. t.tree ≡ new_pool pool.now) }
        ensures well { IfOk result (λ t. IsWellFormed t.tree) }
    {
        let root = Head {
            id: 1,
            name: pool.copy(alloc)?,
            kind: HeadKind::Filesystem,
            origin: None,
            settings: Settings::new(alloc),
            stamp: 0,
            mounted: false,
            createtxg: 0,
        };
        let mut records = Vec::new(alloc);
        records.push(Item::Head(root))?;
        Ok(PlainTree { records, next: 2 })
    }
}

pub(crate) fn item_at(records: &[Item], id: u64) -> Option<&Item>
    ensures { option_map (λ r. r.now) result ≡ at records.now id }
{
    records.iter().find(|item| item.id() == id)
}

fn place_of(records: &[Item], id: u64) -> Option<usize>
    ensures { result ≡ position (has_id id) records.now }
{
    records.iter().position(|item| item.id() == id)
}

fn head_name(records: &[Item], id: u64) -> Option<&str>
    ensures { option_map (λ n. n.now) result ≡ head_name records.now id }
{
    match item_at(records, id) {
        Some(Item::Head(head)) => Some(head.name.text()),
        _ => None,
    }
}

/// Whether the text is the mark and the short name.
fn is_marked(text: &[u8], mark: u8, short: &[u8]) -> bool
    ensures { result ≡ bytes_eq (mark ∷ short.now) text.now }
{
    match text.split_first() {
        Some((first, rest)) => mark == *first && short == rest,
        None => false,
    }
}

/// Whether the name is the owner's, the mark, and the short name.
fn is_joined(name: &[u8], owner: &[u8], mark: u8, short: &[u8]) -> bool
    ensures { result ≡ bytes_eq (owner.now ++ (mark ∷ short.now)) name.now }
{
    match name.strip_prefix(owner) {
        Some(rest) => is_marked(rest, mark, short),
        None => false,
    }
}

fn is_called(records: &[Item], name: &[u8], item: &Item) -> bool
    ensures { result ≡ is_called records.now name.now item.now }
{
    match item {
        Item::Head(head) => head.name.text().as_bytes() == name,
        Item::Snap(snapshot) => match head_name(records, snapshot.owner) {
            Some(owner) => is_joined(name, owner.as_bytes(), b'@', snapshot.short.as_slice()),
            None => false,
        },
        Item::Mark(bookmark) => match head_name(records, bookmark.owner) {
            Some(owner) => is_joined(name, owner.as_bytes(), b'#', bookmark.short.as_slice()),
            None => false,
        },
    }
}

/// The first record with this full name.
fn named<'a>(records: &'a [Item], name: &[u8]) -> Option<&'a Item>
    ensures { option_map (λ r. r.now) result ≡ named records.now name.now }
{
    records.iter().find(|item| is_called(records, name, item))
}

/// The record, where it is a snapshot of this head, else what was found before it.
fn later<'a>(found: Option<&'a Snapshot>, owner: u64, item: &'a Item) -> Option<&'a Snapshot>
    ensures { option_map (λ s. s.now) result ≡ option_or (own_snapshot owner item.now) (option_map (λ s. s.now) found.entry) }
{
    match item {
        Item::Snap(snapshot) if snapshot.owner == owner => Some(snapshot),
        _ => found,
    }
}

fn latest_snapshot(records: &[Item], owner: u64) -> Option<&Snapshot>
    ensures { option_map (λ s. s.now) result ≡ latest owner records.now }
{
    let mut found = None;
    for item in records {
        found = later(found, owner, item);
    }
    found
}

fn id_of(item: Option<&Item>) -> Option<u64>
    ensures { result ≡ option_map id_of (option_map (λ r. r.now) item.entry) }
{
    match item {
        Some(item) => Some(item.id()),
        None => None,
    }
}

fn children_after(records: &[Item], parent: u64, after: &[u8]) -> Option<u64>
    ensures { IsNext records.now (is_child_above records.now parent after.now) result }
{
    match head_name(records, parent) {
        None => None,
        Some(name) => {
            let parent = name.as_bytes();
            id_of(first_by_name(records, &Children { parent, after }))
        }
    }
}

fn snapshots_after(records: &[Item], owner: u64, after: &[u8]) -> Option<u64>
    ensures { IsNext records.now (is_snapshot_above records.now owner after.now) result }
{
    match head_name(records, owner) {
        None => None,
        Some(name) => {
            let name = name.as_bytes();
            id_of(first_by_name(records, &Snapshots { owner, name, after }))
        }
    }
}

fn clones_after(records: &[Item], snapshot: u64, after: &[u8]) -> Option<u64>
    ensures { IsNext records.now (is_clone_above snapshot after.now) result }
{
    id_of(first_by_name(records, &Clones { snapshot, after }))
}

fn user_settings_of(item: &Item) -> u64
    ensures { result ≡ user_settings item.now }
{
    match item {
        Item::Head(head) => user_count(head.settings.as_slice()) as u64,
        Item::Snap(snapshot) => user_count(snapshot.settings.as_slice()) as u64,
        Item::Mark(_) => 0,
    }
}

fn user_settings(records: &[Item]) -> u64
    requires { sum_by user_settings records.now ≤ most_user_settings }
    ensures { result ≡ sum_by user_settings records.now }
{
    let mut sum = 0;
    for item in records {
        sum += user_settings_of(item);
    }
    sum
}

fn bookmarks_after(records: &[Item], owner: u64, after: &[u8]) -> Option<u64>
    ensures { IsNext records.now (is_bookmark_above records.now owner after.now) result }
{
    match head_name(records, owner) {
        None => None,
        Some(name) => {
            let name = name.as_bytes();
            id_of(first_by_name(records, &Bookmarks { owner, name, after }))
        }
    }
}

fn copy_records(alloc: Global, records: &[Item]) -> Result<Vec<Item>, NoMemory>
    ensures { IfOk result (λ copy. copy.items ≡ records.now) }
{
    let mut copies = Vec::new(alloc);
    for item in records {
        copies.push(item.copy(alloc)?)?;
    }
    Ok(copies)
}

fn remove_record(records: &mut Vec<Item>, id: u64)
    requires { IsSome (at records.old.items id) }
    ensures items { records.new.items ≡ without id records.old.items }
    ensures room { vec_capacity records.old - vec_len records.old ≤ vec_capacity records.new - vec_len records.new }
{
    if let Some(place) = place_of(records.as_slice(), id) {
        let _ = records.remove(place);
    }
}

fn replace_record(records: &mut Vec<Item>, id: u64, item: Item)
    requires there { IsSome (at records.old.items id) }
    requires same { id_of item ≡ id }
    ensures items { records.new.items ≡ put item records.old.items }
    ensures room { vec_capacity records.old - vec_len records.old ≤ vec_capacity records.new - vec_len records.new }
{
    if let Some(place) = place_of(records.as_slice(), id) {
        records[place] = item;
    }
}

impl Datasets for PlainTree {
    ghost tree = { λ t. t.tree };

    ghost room = { λ t. t.room };

    fn find(&self, name: &Name) -> Option<u64> {
        match named(self.records.as_slice(), name.text().as_bytes()) {
            Some(item) => Some(item.id()),
            None => None,
        }
    }

    fn item(&self, id: u64) -> Option<&Item> {
        item_at(self.records.as_slice(), id)
    }

    fn nth(&self, place: u64) -> Option<&Item> {
        self.records.get(place as usize)
    }

    fn heads_after(&self, parent: u64, after: &[u8]) -> Option<u64> {
        children_after(self.records.as_slice(), parent, after)
    }

    fn snaps_after(&self, owner: u64, after: &[u8]) -> Option<u64> {
        snapshots_after(self.records.as_slice(), owner, after)
    }

    fn clones_after(&self, snapshot: u64, after: &[u8]) -> Option<u64> {
        clones_after(self.records.as_slice(), snapshot, after)
    }

    fn marks_after(&self, owner: u64, after: &[u8]) -> Option<u64> {
        bookmarks_after(self.records.as_slice(), owner, after)
    }

    fn name_of(&self, alloc: Global, id: u64) -> Result<Option<Name>, NoMemory> {
        name_of(alloc, self.records.as_slice(), id)
    }

    fn latest_snapshot(&self, owner: u64) -> Option<&Snapshot> {
        latest_snapshot(self.records.as_slice(), owner)
    }

    fn effective(&self, id: u64, name: &[u8]) -> Option<Effective<'_>> {
        effective(self.records.as_slice(), id, name)
    }

    fn user_settings(&self) -> u64 {
        user_settings(self.records.as_slice())
    }

    fn len(&self) -> u64 {
        self.records.len() as u64
    }

    fn next_id(&self) -> u64 {
        self.next
    }

    fn copy(&self, alloc: Global) -> Result<PlainTree, NoMemory> {
        Ok(PlainTree {
            records: copy_records(alloc, self.records.as_slice())?,
            next: self.next,
        })
    }

    fn reserve(&mut self, records: u64) -> Result<(), NoMemory> {
        self.records.reserve(records as usize)?;
        Ok(())
    }

    fn add(&mut self, item: Item) {
        self.records.push_reserved(item);
        self.next += 1;
    }

    fn remove(&mut self, id: u64) {
        remove_record(&mut self.records, id);
    }

    fn replace(&mut self, id: u64, item: Item) {
        replace_record(&mut self.records, id, item);
    }
}
