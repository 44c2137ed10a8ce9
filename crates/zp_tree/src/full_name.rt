//! The full names of records.

ghost use Rattle.std.specs.Prelude.{◌≡◌, ℕ, Some, IfOk};
ghost use Rattle.zp_tree.specs.declared.item.Item.{Item};
ghost use Rattle.zp_tree.specs.Tree.{at, record_name};
ghost use Rattle.zp_tree.specs.WellFormed.{IsRecord};

use crate::Item;
use crate::plain::item_at;
use std::alloc::Global;
use zc_io::NoMemory;
use zp_names::Name;

/// The full name of the record with this id; none where there is none, or where its name is longer than a name may be.
#[tactic(auto, using(crate::proofs::RecordNames::name_of_head, crate::proofs::RecordNames::name_of_snapshot, crate::proofs::RecordNames::name_of_bookmark))]
pub(crate) fn name_of(alloc: Global, records: &[Item], id: u64) -> Result<Option<Name>, NoMemory>
    requires { (i : ℕ) (r : Item) → at records.now i ≡ Some r → IsRecord r }
    ensures { IfOk result (λ name. name ≡ record_name records.now id) }
{
    match item_at(records, id) {
        None => Ok(None),
        Some(Item::Head(head)) => Ok(Some(head.name.copy(alloc)?)),
        Some(Item::Snap(snapshot)) => match item_at(records, snapshot.owner) {
            Some(Item::Head(owner)) => {
                Ok(owner.name.snapshot_name(alloc, snapshot.short.as_slice())?)
            }
            _ => Ok(None),
        },
        Some(Item::Mark(bookmark)) => match item_at(records, bookmark.owner) {
            Some(Item::Head(owner)) => {
                Ok(owner.name.bookmark_name(alloc, bookmark.short.as_slice())?)
            }
            _ => Ok(None),
        },
    }
}
