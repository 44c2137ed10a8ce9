//! Laws of the changes. Each function's contract is the law, and the function changes nothing.

ghost use Rattle.std.specs.Prelude.{◌≡◌, ℕ, List, map, Some, true, false};
ghost use Rattle.zp_names.specs.Names.{is_valid_name};
ghost use Rattle.zp_tree.specs.Tree.{Tree, at, id_of};
ghost use Rattle.zp_names.specs.declared.command.Command.{Command as CommandOf};
ghost use Rattle.zp_tree.specs.declared.item.Item.{Item as ItemOf};
ghost use Rattle.zp_tree.specs.WellFormed.{IsWellFormed};
ghost use Rattle.zp_tree.specs.Commands.{change_of};
ghost use Rattle.zp_tree.specs.NamedRecords.{names_record};
ghost use Rattle.zp_tree.specs.Rows.{passed};
ghost use Rattle.zp_tree.specs.Promote.{promote_check, promote_change};
ghost use Rattle.zp_tree.specs.Rename.{rename_check, rename_change};
ghost use Rattle.zp_changes.specs.PromotionLaws.{origin_owner, OwnAreYounger};
ghost use Rattle.zp_changes.specs.RenameLaws.{NamesFit};
ghost use Rattle.zp_changes.specs.Deferral.{DeferredGoWithTheLast};

/// A promotion leaves which ids there are, their order, and the id that the next record takes.
pub fn promotion_keeps_ids()
    ensures ids { (t : Tree) (name : List ℕ) → map id_of (promote_change t name).records ≡ map id_of t.records }
    ensures next { (t : Tree) (name : List ℕ) → (promote_change t name).next ≡ t.next }
{}

/// Where a clone was promoted whose own snapshots are all younger than its origin, the head that had the origin can be
/// promoted in its turn, and the tree is then as it was.
pub fn promotion_there_and_back()
    ensures passes { (t : Tree) (name old : List ℕ) → IsWellFormed t → promote_check t name ≡ passed →
        origin_owner t name ≡ Some old → OwnAreYounger t name → promote_check (promote_change t name) old ≡ passed }
    ensures back { (t : Tree) (name old : List ℕ) → IsWellFormed t → promote_check t name ≡ passed →
        origin_owner t name ≡ Some old → OwnAreYounger t name → promote_change (promote_change t name) old ≡ t }
{}

/// A record that the command's table doesn't name is the same record after the command.
pub fn others_stay()
    ensures { (t : Tree) (c : CommandOf) (txg now i : ℕ) (r : ItemOf) → IsWellFormed t → at t.records i ≡ Some r →
        names_record t c r ≡ false → at (change_of t c txg now).records i ≡ Some r }
{}

/// A rename leaves which ids there are, their order, and the id that the next record takes.
pub fn rename_keeps_ids()
    ensures ids { (t : Tree) (name to : List ℕ) → map id_of (rename_change t name to).records ≡ map id_of t.records }
    ensures next { (t : Tree) (name to : List ℕ) → (rename_change t name to).next ≡ t.next }
{}

/// Where a rename passes its check, the rename back gives the tree that was. It passes its check too, where no name was
/// too long or too deep before.
pub fn rename_there_and_back()
    ensures passes { (t : Tree) (name to : List ℕ) → IsWellFormed t → is_valid_name to ≡ true → rename_check t name to ≡ passed →
        NamesFit t name → rename_check (rename_change t name to) to name ≡ passed }
    ensures back { (t : Tree) (name to : List ℕ) → IsWellFormed t → rename_check t name to ≡ passed → rename_change (rename_change t name to) to name ≡ t }
{}

/// A deferred snapshot is gone after a command exactly where that took the last of its holds and clones.
pub fn deferred_snapshot_goes_with_the_last()
    ensures { DeferredGoWithTheLast }
{}
