//! The check of `promote`: zfs-promote(8).

ghost use Rattle.std.specs.Prelude.{◌≡◌, ◌&&◌, bytes_eq, IfOk};
ghost use Rattle.std.specs.List.{list_any};
ghost use Rattle.zp_tree.specs.WellFormed.{IsWellFormed};
ghost use Rattle.zp_tree.specs.Promote.{moves, is_owned_by, names_in_the_way, promote_check};

use crate::short_names::{Passing, ShortNames, names_of};
use std::alloc::Global;
use zc_io::NoMemory;
use zp_names::errno::{EEXIST, EINVAL, ENOENT};
use zp_names::{Name, Texts, Verdict};
use zp_tree::{Datasets, Item, Promotion, Snapshot, named};

/// The snapshots of the head with this id.
#[derive(Drop)]
struct OwnedBy {
    head: u64,
}

impl Passing for OwnedBy {
    ghost passes = { λ o. is_owned_by o.head };

    fn passes(&self, snapshot: &Snapshot) -> bool {
        snapshot.owner == self.head
    }
}

/// The snapshots that would move and have one of the clone's own short names.
#[derive(Drop)]
struct InTheWay<'a> {
    promotion: &'a Promotion,
    own: &'a ShortNames,
}

impl<'a> Passing for InTheWay<'a> {
    ghost passes = { λ w s. moves w.promotion.now s && list_any (bytes_eq s.short) w.own.now };

    fn passes(&self, snapshot: &Snapshot) -> bool {
        self.promotion.moves(snapshot) && self.own.contains(snapshot.short.as_slice())
    }
}

/// The short names that stand in the way of a promotion, in byte order.
fn names_in_the_way<T: Datasets>(
    alloc: Global,
    tree: &T,
    promotion: &Promotion,
) -> Result<Texts, NoMemory>
    ensures { IfOk result (λ names. names ≡ names_in_the_way (T.tree tree.now) promotion.now) }
{
    let own = names_of(
        alloc,
        tree,
        &OwnedBy {
            head: promotion.clone,
        },
    )?;
    let own = &own;
    let names = names_of(alloc, tree, &InTheWay { promotion, own })?;
    names.into_texts(alloc)
}

/// Whether the clone of this name can be promoted.
pub(crate) fn check<T: Datasets>(alloc: Global, tree: &T, name: &Name) -> Result<Verdict, NoMemory>
    requires { IsWellFormed (T.tree tree.now) }
    ensures { IfOk result (λ verdict. verdict ≡ promote_check (T.tree tree.now) name.now) }
{
    if !name.is_head() {
        return Ok(Verdict::plain(alloc, EINVAL));
    }
    let Some(Item::Head(_)) = named(tree, name) else {
        return Ok(Verdict::plain(alloc, ENOENT));
    };
    let Some(promotion) = Promotion::of(tree, name) else {
        return Ok(Verdict::plain(alloc, EINVAL));
    };
    let details = names_in_the_way(alloc, tree, &promotion)?;
    if !details.as_slice().is_empty() {
        return Ok(Verdict {
            errno: EEXIST,
            details,
        });
    }
    Ok(Verdict::plain(alloc, 0))
}
