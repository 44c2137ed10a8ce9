//! What the promotion of a clone moves: zfs-promote(8).

ghost use Rattle.std.specs.Prelude.{◌≡◌};
ghost use Rattle.zp_tree.specs.Promote.{promotion_of, moves};
ghost use Rattle.zp_tree.specs.WellFormed.{IsWellFormed};

use crate::{Datasets, Item, Snapshot, named};
use zp_names::Name;

/// A clone and the head whose snapshots it takes, by their ids.
#[derive(Clone, Copy, Debug, Drop)]
pub struct Promotion {
    /// The clone.
    pub clone: u64,
    /// The snapshot that the clone was made from.
    pub origin: u64,
    /// The head that has this snapshot.
    pub owner: u64,
    /// The origin of that head.
    pub owner_origin: Option<u64>,
}

impl Promotion {
    /// The promotion of the head of this name; none where there is none, or it is no clone.
    pub fn of<T: Datasets>(tree: &T, name: &Name) -> Option<Promotion>
        requires { IsWellFormed (T.tree tree.now) }
        ensures { result ≡ promotion_of (T.tree tree.now) name.now }
    {
        let Some(Item::Head(clone)) = named(tree, name) else {
            return None;
        };
        let Some(Item::Snap(origin)) = tree.item(clone.origin?) else {
            return None;
        };
        let Some(Item::Head(owner)) = tree.item(origin.owner) else {
            return None;
        };
        Some(Promotion {
            clone: clone.id,
            origin: origin.id,
            owner: owner.id,
            owner_origin: owner.origin,
        })
    }

    /// Whether a snapshot gets the clone as its owner: it is the origin, or another of the origin's owner that is older.
    pub fn moves(&self, snapshot: &Snapshot) -> bool
        ensures { result ≡ moves self.now snapshot.now }
    {
        snapshot.owner == self.owner && snapshot.id <= self.origin
    }
}
