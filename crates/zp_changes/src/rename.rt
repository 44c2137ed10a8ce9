//! The change of `rename`: zfs-rename(8).

ghost use Rattle.std.specs.Prelude.{◌≡◌, true, OnOk, OnErr};
ghost use Rattle.zp_names.specs.Names.{is_valid_name};
ghost use Rattle.zp_tree.specs.WellFormed.{IsWellFormed};
ghost use Rattle.zp_tree.specs.Rows.{passed};
ghost use Rattle.zp_tree.specs.Rename.{rename_check, rename_change};

use crate::change::{Change, change_all};
use std::alloc::Global;
use zc_io::NoMemory;
use zp_names::Name;
use zp_tree::{Datasets, Item};

/// A dataset and its new name.
#[derive(Drop)]
struct Renaming<'a> {
    name: &'a Name,
    to: &'a Name,
}

impl Change for Renaming<'_> {
    ghost use Rattle.zp_tree.specs.Rename.{renamed};
    ghost use Rattle.zp_changes.specs.Renaming.{FitsRename, renamed-keeps};

    ghost gives = { λ c. renamed c.name.now c.to.now };

    ghost relies = { λ c. FitsRename c.name.now c.to.now };

    ghost keeps = { λ c. renamed-keeps c.name.now c.to.now };

    fn change(&self, alloc: Global, item: &Item) -> Result<Option<Item>, NoMemory> {
        let Item::Head(head) = item else {
            return Ok(None);
        };
        if !head.name.is_at_or_below(self.name) {
            return Ok(None);
        }
        let name = head.name.after_rename(alloc, self.name, self.to)?;
        let mut head = head.copy(alloc)?;
        head.name = name;
        Ok(Some(Item::Head(head)))
    }
}

/// Renames the dataset of this name, and with it all that is below it.
pub(crate) fn apply<T: Datasets>(
    alloc: Global,
    tree: &mut T,
    name: &Name,
    to: &Name,
) -> Result<(), NoMemory>
    requires well { IsWellFormed (T.tree tree.old) }
    requires passed { rename_check (T.tree tree.old) name.now to.now ≡ passed }
    ensures ok { OnOk result (T.tree tree.new ≡ rename_change (T.tree tree.old) name.now to.now) }
    ensures well { IsWellFormed (T.tree tree.new) }
    ensures err { OnErr result (T.tree tree.new ≡ T.tree tree.old) }
{
    // Asking for the text tells the proof that the new name is valid.
    let _ = to.text();
    change_all(alloc, tree, &Renaming { name, to })
}
