//! The tree of a pool: file systems, volumes, snapshots and bookmarks in order of birth.
#![tactic(auto)]

mod climb;
mod datasets;
mod dependents;
mod effective;
mod full_name;
mod holds;
mod item;
mod lookup;
mod next_by_name;
mod plain;
mod promotion;

pub use datasets::Datasets;
pub use dependents::{has_children, has_clones, has_snapshots, is_held};
pub use effective::Effective;
pub use holds::{has_tag, holds_after, holds_without, is_tag};
pub use item::{Bookmark, Head, HeadKind, Hold, Holds, Item, PointInTime, Snapshot};
pub use lookup::{exists, is_full, is_readonly, named, point_named, rollback_source};
pub use plain::PlainTree;
pub use promotion::Promotion;

/// The most settings of user properties that all records together have.
pub const MOST_USER_SETTINGS: u64 = 20_000;

/// The most records that a tree has.
pub const MOST_RECORDS: u64 = 100_000;

#[cfg(test)]
mod tests;
