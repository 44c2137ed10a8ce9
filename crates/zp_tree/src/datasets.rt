//! What a tree of datasets promises, whatever keeps it.

ghost use Rattle.std.specs.Prelude.{◌≡◌, ℕ, ◌+◌, ◌<◌, ◌≤◌, ◌^◌, length, slice_get, IsSome, OnOk, IfOk, option_map, sum_by};
ghost use Rattle.zp_tree.specs.Inherited.{effective, told_by};
ghost use Rattle.zp_tree.specs.NextByName.{IsNext, is_child_above, is_snapshot_above, is_clone_above, is_bookmark_above};
ghost use Rattle.zp_tree.specs.Rollback.{latest};
ghost use Rattle.zp_tree.specs.Tree.{Tree, at, record_name, id_of, put, without, Finds, Rises, added};
ghost use Rattle.zp_tree.specs.WellFormed.{IsWellFormed, user_settings};

use crate::{Effective, Item, Snapshot};
use std::alloc::Global;
use zc_io::NoMemory;
use zp_names::Name;

/// A tree of datasets, however it is kept. None of its look-ups takes memory, but `name_of`, which makes a name.
pub trait Datasets: Drop {
    /// What it contains.
    ghost tree: { Self → Tree };

    /// How many records it takes without memory.
    ghost room: { Self → ℕ };

    /// The id of a record with this full name; none where no record has it.
    fn find(&self, name: &Name) -> Option<u64>
        ensures { Finds (tree self.now).records name.now result };

    /// The record with this id; none where there is none.
    fn item(&self, id: u64) -> Option<&Item>
        ensures { option_map (λ r. r.now) result ≡ at (tree self.now).records id };

    /// The record at this place in the order of birth, from 0; none past the last.
    fn nth(&self, place: u64) -> Option<&Item>
        ensures { option_map (λ r. r.now) result ≡ slice_get (tree self.now).records place };

    /// The child of this head whose name comes first above a text, by bytes; none where no child has a name above it.
    fn heads_after(&self, parent: u64, after: &[u8]) -> Option<u64>
        ensures { IsNext (tree self.now).records (is_child_above (tree self.now).records parent after.now) result };

    /// The same of the full names of this head's snapshots.
    fn snaps_after(&self, owner: u64, after: &[u8]) -> Option<u64>
        ensures { IsNext (tree self.now).records (is_snapshot_above (tree self.now).records owner after.now) result };

    /// The same of the names of the heads whose origin is this snapshot.
    fn clones_after(&self, snapshot: u64, after: &[u8]) -> Option<u64>
        ensures { IsNext (tree self.now).records (is_clone_above snapshot after.now) result };

    /// The bookmark of this head whose full name comes first above a text, by bytes; none where it has none above it.
    fn marks_after(&self, owner: u64, after: &[u8]) -> Option<u64>
        ensures { IsNext (tree self.now).records (is_bookmark_above (tree self.now).records owner after.now) result };

    /// The full name of the record with this id; none where there is none, or where its name is longer than 255 bytes.
    fn name_of(&self, alloc: Global, id: u64) -> Result<Option<Name>, NoMemory>
        requires { IsWellFormed (tree self.now) }
        ensures { IfOk result (λ name. name ≡ record_name (tree self.now).records id) };

    /// The latest snapshot of a head; none where it has none.
    fn latest_snapshot(&self, owner: u64) -> Option<&Snapshot>
        ensures { option_map (λ s. s.now) result ≡ latest owner (tree self.now).records };

    /// The value of a property that a dataset has, with where it is set. None where there is no dataset with this id, of
    /// a bookmark, where the dataset can't have the property set, and of a user property that is set nowhere.
    fn effective(&self, id: u64, name: &[u8]) -> Option<Effective<'_>>
        requires { IsWellFormed (tree self.now) }
        ensures { option_map told_by result ≡ effective (tree self.now) id name.now };

    /// How many settings of user properties all records together have.
    fn user_settings(&self) -> u64
        requires { IsWellFormed (tree self.now) }
        ensures { result ≡ sum_by user_settings (tree self.now).records };

    /// How many records there are.
    fn len(&self) -> u64
        ensures { result ≡ length (tree self.now).records };

    /// The id that the next record takes. The ids of the records rise in order of birth and are below it.
    fn next_id(&self) -> u64
        ensures next { result ≡ (tree self.now).next }
        ensures rises { Rises 0 (tree self.now).records (tree self.now).next };

    /// A tree with the same contents.
    fn copy(&self, alloc: Global) -> Result<Self, NoMemory>
        ensures { IfOk result (λ t. tree t ≡ tree self.now) };

    /// Takes room for so many further records.
    fn reserve(&mut self, records: u64) -> Result<(), NoMemory>
        ensures same { tree self.new ≡ tree self.old }
        ensures room { OnOk result (records ≤ room self.new) };

    /// Adds a record, which goes last.
    fn add(&mut self, item: Item)
        requires room { 0 < room self.old }
        requires next { id_of item ≡ (tree self.old).next }
        requires fits { (tree self.old).next + 1 < 2 ^ 64 }
        ensures tree { tree self.new ≡ added (tree self.old) item }
        ensures room { room self.old ≤ room self.new + 1 };

    /// Takes the record with this id out.
    fn remove(&mut self, id: u64)
        requires { IsSome (at (tree self.old).records id) }
        ensures tree { tree self.new ≡ record (tree self.old) { records = without id (tree self.old).records } }
        ensures room { room self.old ≤ room self.new };

    /// Puts a record in the place of the one with this id.
    fn replace(&mut self, id: u64, item: Item)
        requires there { IsSome (at (tree self.old).records id) }
        requires same { id_of item ≡ id }
        ensures tree { tree self.new ≡ record (tree self.old) { records = put item (tree self.old).records } }
        ensures room { room self.old ≤ room self.new };
}
