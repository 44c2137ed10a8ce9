//! A change over the whole list: all memory is taken first, then the records are changed in place.

ghost use Rattle.std.specs.Prelude.{◌≡◌, ℕ, ◌++◌, slice_get, option_and_then, option_map, IfOk, IfSome, OnOk, OnErr};
ghost use Rattle.std.specs.List.{filter_map};
ghost use Rattle.zp_tree.specs.Tree.{Rises, changed};
ghost use Rattle.zp_tree.specs.declared.item.Item.{Item};
ghost use Rattle.zp_changes.specs.Replacements.{listed};

use std::alloc::Global;
use zc_io::NoMemory;
use zp_tree::{Datasets, Item};

/// A change of some records, each by itself.
pub(crate) trait Change {
    ghost use Rattle.std.specs.Prelude.{Some};
    ghost use Rattle.std.specs.declared.option.Option.{Option};
    ghost use Rattle.zp_tree.specs.declared.item.Item.{Item};
    ghost use Rattle.zp_tree.specs.Tree.{id_of};

    /// What becomes of a record; none where it stays.
    ghost gives: { Self → Item → Option Item };

    /// What the change relies on, of each record.
    ghost relies: { Self → Item → Type 0 };

    /// What becomes of a record; none where it stays.
    fn change(&self, alloc: Global, item: &Item) -> Result<Option<Item>, NoMemory>
        requires { relies self.now item.now }
        ensures { IfOk result (λ now. now ≡ gives self.now item.now) };

    /// Each record keeps its id.
    ghost keeps: { (c : Self) (r x : Item) → gives c r ≡ Some x → id_of x ≡ id_of r };
}

/// Adds what becomes of the record, where it changes.
fn push_changed<C: Change>(
    alloc: Global,
    items: &mut Vec<Item>,
    change: &C,
    item: Option<&Item>,
) -> Result<(), NoMemory>
    requires { IfSome item (λ r. C.relies change.now r.now) }
    ensures { OnOk result (items.new.items ≡ items.old.items ++ listed (option_and_then (C.gives change.now) (option_map (λ r. r.now) item.entry))) }
{
    let Some(item) = item else {
        return Ok(());
    };
    if let Some(changed) = change.change(alloc, item)? {
        items.push(changed)?;
    }
    Ok(())
}

/// The records that change, as they are then.
fn replacements<T: Datasets, C: Change>(
    alloc: Global,
    tree: &T,
    change: &C,
) -> Result<Vec<Item>, NoMemory>
    requires { (place : ℕ) (r : Item) → slice_get (T.tree tree.now).records place ≡ Some r → C.relies change.now r }
    ensures { IfOk result (λ v. v.items ≡ filter_map (C.gives change.now) (T.tree tree.now).records) }
{
    let mut items = Vec::new(alloc);
    for place in 0..tree.len() {
        push_changed(alloc, &mut items, change, tree.nth(place))?;
    }
    Ok(items)
}

/// Changes all records that the change speaks of; none after want of memory.
pub(crate) fn change_all<T: Datasets, C: Change>(
    alloc: Global,
    tree: &mut T,
    change: &C,
) -> Result<(), NoMemory>
    requires rises { Rises 0 (T.tree tree.old).records (T.tree tree.old).next }
    requires relies { (place : ℕ) (r : Item) → slice_get (T.tree tree.old).records place ≡ Some r → C.relies change.now r }
    ensures ok { OnOk result (T.tree tree.new ≡ record (T.tree tree.old) { records = changed (C.gives change.now) (T.tree tree.old).records }) }
    ensures err { OnErr result (T.tree tree.new ≡ T.tree tree.old) }
{
    let mut items = replacements(alloc, tree, change)?;
    while let Some(item) = items.pop() {
        let id = item.id();
        tree.replace(id, item);
    }
    Ok(())
}
