//! The change of `promote`: zfs-promote(8).

ghost use Rattle.std.specs.Prelude.{◌≡◌, IfOk, OnOk, OnErr};
ghost use Rattle.zp_tree.specs.declared.item.Item.TheVariants as item;
ghost use Rattle.zp_tree.specs.WellFormed.{IsWellFormed};
ghost use Rattle.zp_tree.specs.Rows.{passed};
ghost use Rattle.zp_tree.specs.Promote.{promote_check, promote_change};

use crate::change::{Change, change_all};
use std::alloc::Global;
use zc_io::NoMemory;
use zp_names::Name;
use zp_tree::{Datasets, Head, Item, Promotion};

/// The head with this origin in place of its own.
fn with_origin(alloc: Global, head: &Head, origin: Option<u64>) -> Result<Item, NoMemory>
    ensures { IfOk result (λ r. r ≡ item.Head (record head.now { origin = origin })) }
{
    let mut head = head.copy(alloc)?;
    head.origin = origin;
    Ok(Item::Head(head))
}

impl Change for Promotion {
    ghost use Rattle.zp_tree.specs.Promote.{promoted};
    ghost use Rattle.zp_tree.specs.PromoteKeeps.{promoted-keeps};

    ghost gives = { promoted };

    ghost relies = { λ promotion r. Unit {0} };

    ghost keeps = { promoted-keeps };

    fn change(&self, alloc: Global, item: &Item) -> Result<Option<Item>, NoMemory> {
        match item {
            Item::Head(head) if head.id == self.clone => {
                Ok(Some(with_origin(alloc, head, self.owner_origin)?))
            }
            Item::Head(head) if head.id == self.owner => {
                Ok(Some(with_origin(alloc, head, Some(self.origin))?))
            }
            Item::Snap(snapshot) if self.moves(snapshot) => {
                let mut snapshot = snapshot.copy(alloc)?;
                snapshot.owner = self.clone;
                Ok(Some(Item::Snap(snapshot)))
            }
            _ => Ok(None),
        }
    }
}

/// Promotes the clone of this name.
pub(crate) fn apply<T: Datasets>(alloc: Global, tree: &mut T, name: &Name) -> Result<(), NoMemory>
    requires well { IsWellFormed (T.tree tree.old) }
    requires passed { promote_check (T.tree tree.old) name.now ≡ passed }
    ensures ok { OnOk result (T.tree tree.new ≡ promote_change (T.tree tree.old) name.now) }
    ensures well { IsWellFormed (T.tree tree.new) }
    ensures err { OnErr result (T.tree tree.new ≡ T.tree tree.old) }
{
    let Some(promotion) = Promotion::of(tree, name) else {
        return Ok(());
    };
    change_all(alloc, tree, &promotion)
}
