//! The records of a tree.

ghost use Rattle.std.specs.Prelude.{◌≡◌, IfOk};

use std::alloc::Global;
use zc_io::NoMemory;
use zp_names::{Bytes, Name, Sequence};
use zp_props::{Kind3, Setting, Settings, copy_settings};

/// What a head is: zfs(8), "file system" and "volume".
#[derive(Clone, Copy, Debug, PartialEq, Eq, Drop)]
pub enum HeadKind {
    /// It may have datasets below it.
    Filesystem,
    /// A block device of a fixed size; no dataset is below it.
    Volume,
}

impl HeadKind {
    ghost use Rattle.zp_tree.specs.Inherited.{kind_of_head};

    /// The kind of the dataset.
    pub fn kind(self) -> Kind3
        ensures { result ≡ kind_of_head self }
    {
        match self {
            HeadKind::Filesystem => Kind3::Filesystem,
            HeadKind::Volume => Kind3::Volume,
        }
    }
}

/// A file system or a volume, by its name in the pool.
#[derive(Debug, Drop)]
pub struct Head {
    /// The number of the record in order of birth, from 1; it is never used again.
    pub id: u64,
    /// The full name, without a mark.
    pub name: Name,
    /// File system or volume.
    pub kind: HeadKind,
    /// The id of the snapshot that a clone was made from.
    pub origin: Option<u64>,
    /// The properties that were set here, in the order in which they were first set.
    pub settings: Settings,
    /// The content: a number in place of data.
    pub stamp: u64,
    /// Whether it is mounted (zfsprops(7), mounted): a flag, nothing is mounted.
    pub mounted: bool,
    /// The transaction group in which the record was born (zfsprops(7), createtxg).
    pub createtxg: u64,
}

/// A user reference on a snapshot: zfs-hold(8).
#[derive(Debug, Drop)]
pub struct Hold {
    /// The name of the reference, UTF-8.
    pub tag: Bytes,
    /// The moment at which the hold was placed, in seconds.
    pub at: u64,
}

/// Holds in the order in which they were placed. Contracts see a list.
pub type Holds = Sequence<Hold>;

/// A snapshot of a head, by its owner's id and the name after the `@`.
#[derive(Debug, Drop)]
pub struct Snapshot {
    /// The number of the record in order of birth.
    pub id: u64,
    /// The id of the head that it is a snapshot of.
    pub owner: u64,
    /// The name after the `@`.
    pub short: Bytes,
    /// The user properties that were set on it.
    pub settings: Settings,
    /// The content of its head when it was made.
    pub stamp: u64,
    /// The transaction group in which it was born.
    pub createtxg: u64,
    /// Whether it goes with its last hold or clone: zfs-destroy(8), `-d`.
    pub deferred: bool,
    /// Its user references.
    pub holds: Holds,
}

/// A bookmark of a snapshot: zfs-bookmark(8).
#[derive(Debug, Drop)]
pub struct Bookmark {
    /// The number of the record in order of birth.
    pub id: u64,
    /// The id of the head that it belongs to.
    pub owner: u64,
    /// The name after the `#`.
    pub short: Bytes,
    /// The id of the snapshot that it was made from.
    pub source: u64,
    /// The transaction group in which it was born.
    pub createtxg: u64,
}

/// The point in time at which a snapshot was taken, which a bookmark marks: zfs-bookmark(8).
#[derive(Clone, Copy, Debug, PartialEq, Eq, Drop)]
pub struct PointInTime {
    /// The id of the snapshot.
    pub source: u64,
    /// The transaction group in which the snapshot was born.
    pub createtxg: u64,
}

/// A record of the tree.
#[derive(Debug, Drop)]
pub enum Item {
    /// A file system or a volume.
    Head(Head),
    /// A snapshot.
    Snap(Snapshot),
    /// A bookmark.
    Mark(Bookmark),
}

impl Item {
    ghost use Rattle.zp_tree.specs.Settable.{kind_of_item, settings_of_item, with_settings};
    ghost use Rattle.zp_tree.specs.MakeBookmark.{point_of};
    ghost use Rattle.zp_tree.specs.Tree.{id_of};

    /// The id of the record.
    pub fn id(&self) -> u64
        ensures { result ≡ id_of self.now }
    {
        match self {
            Item::Head(head) => head.id,
            Item::Snap(snapshot) => snapshot.id,
            Item::Mark(bookmark) => bookmark.id,
        }
    }

    /// The kind of the dataset; none of a bookmark.
    pub fn kind(&self) -> Option<Kind3>
        ensures { result ≡ kind_of_item self.now }
    {
        match self {
            Item::Head(head) => Some(head.kind.kind()),
            Item::Snap(_) => Some(Kind3::Snapshot),
            Item::Mark(_) => None,
        }
    }

    /// The point in time for which a snapshot or a bookmark stands; none of a head.
    pub fn point_in_time(&self) -> Option<PointInTime>
        ensures { result ≡ point_of self.now }
    {
        match self {
            Item::Head(_) => None,
            Item::Snap(snapshot) => Some(PointInTime {
                source: snapshot.id,
                createtxg: snapshot.createtxg,
            }),
            Item::Mark(bookmark) => Some(PointInTime {
                source: bookmark.source,
                createtxg: bookmark.createtxg,
            }),
        }
    }

    /// The properties that are set on the dataset; none of a bookmark.
    pub fn settings(&self) -> &[Setting]
        ensures { result.now ≡ settings_of_item self.now }
    {
        match self {
            Item::Head(head) => head.settings.as_slice(),
            Item::Snap(snapshot) => snapshot.settings.as_slice(),
            Item::Mark(_) => &[],
        }
    }

    /// The record with these settings; a bookmark as it is.
    pub fn with_settings(self, settings: Settings) -> Item
        ensures { result ≡ with_settings settings self }
    {
        match self {
            Item::Head(mut head) => {
                head.settings = settings;
                Item::Head(head)
            }
            Item::Snap(mut snapshot) => {
                snapshot.settings = settings;
                Item::Snap(snapshot)
            }
            Item::Mark(bookmark) => Item::Mark(bookmark),
        }
    }

    /// The same record once more.
    pub fn copy(&self, alloc: Global) -> Result<Item, NoMemory>
        ensures { IfOk result (λ r. r ≡ self.now) }
    {
        match self {
            Item::Head(head) => Ok(Item::Head(head.copy(alloc)?)),
            Item::Snap(snapshot) => Ok(Item::Snap(snapshot.copy(alloc)?)),
            Item::Mark(bookmark) => Ok(Item::Mark(bookmark.copy(alloc)?)),
        }
    }
}

impl Head {
    /// The same head once more.
    pub fn copy(&self, alloc: Global) -> Result<Head, NoMemory>
        ensures { IfOk result (λ d. d ≡ self.now) }
    {
        Ok(Head {
            id: self.id,
            name: self.name.copy(alloc)?,
            kind: self.kind,
            origin: self.origin,
            settings: copy_settings(alloc, self.settings.as_slice())?,
            stamp: self.stamp,
            mounted: self.mounted,
            createtxg: self.createtxg,
        })
    }
}

impl Snapshot {
    /// The same snapshot once more.
    pub fn copy(&self, alloc: Global) -> Result<Snapshot, NoMemory>
        ensures { IfOk result (λ s. s ≡ self.now) }
    {
        Ok(Snapshot {
            id: self.id,
            owner: self.owner,
            short: self.short.copy(alloc)?,
            settings: copy_settings(alloc, self.settings.as_slice())?,
            stamp: self.stamp,
            createtxg: self.createtxg,
            deferred: self.deferred,
            holds: copy_holds(alloc, self.holds.as_slice())?,
        })
    }
}

impl Bookmark {
    /// The same bookmark once more.
    pub fn copy(&self, alloc: Global) -> Result<Bookmark, NoMemory>
        ensures { IfOk result (λ m. m ≡ self.now) }
    {
        Ok(Bookmark {
            id: self.id,
            owner: self.owner,
            short: self.short.copy(alloc)?,
            source: self.source,
            createtxg: self.createtxg,
        })
    }
}

impl Hold {
    /// The same hold once more.
    pub fn copy(&self, alloc: Global) -> Result<Hold, NoMemory>
        ensures { IfOk result (λ h. h ≡ self.now) }
    {
        Ok(Hold {
            tag: self.tag.copy(alloc)?,
            at: self.at,
        })
    }
}

fn copy_holds(alloc: Global, holds: &[Hold]) -> Result<Holds, NoMemory>
    ensures { IfOk result (λ r. r ≡ holds.now) }
{
    let mut items = Vec::new(alloc);
    for hold in holds {
        items.push(hold.copy(alloc)?)?;
    }
    Ok(Sequence::from_vec(items))
}
