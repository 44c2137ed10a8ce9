//! What administrators ask for: changes and questions.

ghost use Rattle.std.specs.Prelude.{◌≡◌, IfOk};

use crate::{Bytes, ListKind, Name};
use std::alloc::Global;
use zc_io::NoMemory;

/// A change that is asked for.
#[derive(Debug, Drop)]
pub enum Command {
    /// Make a filesystem of this name: zfs-create(8).
    Create {
        name: Name,
    },
    /// Make a volume of this name and this size in bytes: zfs-create(8), `-V`.
    CreateVolume {
        name: Name,
        volsize: u64,
    },
    /// Take a snapshot of this name: zfs-snapshot(8).
    Snapshot {
        name: Name,
    },
    /// Make a clone of this name from a snapshot: zfs-clone(8).
    Clone {
        source: Name,
        name: Name,
    },
    /// Make a bookmark of this name from a snapshot or from a bookmark: zfs-bookmark(8).
    Bookmark {
        source: Name,
        name: Name,
    },
    /// Mount this dataset: zfs-mount(8). Only a flag is set.
    Mount {
        name: Name,
    },
    /// Unmount this dataset: zfs-unmount(8). Only a flag is taken away.
    Unmount {
        name: Name,
    },
    /// Write a number that stands for the content of this dataset.
    Stamp {
        name: Name,
        value: u64,
    },
    /// Take this dataset back to its latest snapshot: zfs-rollback(8).
    Rollback {
        name: Name,
    },
    /// Rename a snapshot of this dataset, from one short name to another: zfs-rename(8).
    RenameSnapshot {
        name: Name,
        old: Bytes,
        new: Bytes,
    },
    /// Destroy the dataset, the snapshot or the bookmark of this name: zfs-destroy(8). With `defer` (`-d`) a snapshot that
    /// has user references or clones is marked, and goes with the last of them.
    Destroy {
        name: Name,
        defer: bool,
    },
    /// Make this clone the owner of the snapshots up to its origin: zfs-promote(8).
    Promote {
        name: Name,
    },
    /// Rename this dataset, and with it all that is below it: zfs-rename(8).
    Rename {
        name: Name,
        to: Name,
    },
    /// Set a property of this dataset to the value that a text is: zfs-set(8).
    Set {
        name: Name,
        prop: Bytes,
        value: Bytes,
    },
    /// Take the setting of a property away from this dataset: zfs-inherit(8).
    Inherit {
        name: Name,
        prop: Bytes,
    },
    /// Place a user reference with this tag on this snapshot: zfs-hold(8).
    Hold {
        name: Name,
        tag: Bytes,
    },
    /// Take the user reference with this tag off this snapshot: zfs-release(8).
    Release {
        name: Name,
        tag: Bytes,
    },
}

/// A question, which changes nothing.
#[derive(Debug, Drop)]
pub enum Query {
    /// Whether there is a dataset of this name, as `zfs.exists` of zfs-program(8) tells.
    Exists {
        name: Name,
    },
    /// The names that stand in a relation to this dataset, as `zfs.list` of zfs-program(8) gives them: those above a text
    /// by bytes, and of these so many.
    List {
        kind: ListKind,
        name: Name,
        after: Bytes,
        limit: u64,
    },
    /// The value of a property of this dataset, with where it comes from: `zfs.get_prop` of zfs-program(8).
    Get {
        name: Name,
        prop: Bytes,
    },
}

impl Command {
    /// A copy of this command.
    pub fn copy(&self, alloc: Global) -> Result<Command, NoMemory>
        ensures { IfOk result (λ copy. copy ≡ self.now) }
    {
        match self {
            Command::Create { name } => Ok(Command::Create {
                name: name.copy(alloc)?,
            }),
            Command::CreateVolume { name, volsize } => Ok(Command::CreateVolume {
                name: name.copy(alloc)?,
                volsize: *volsize,
            }),
            Command::Snapshot { name } => Ok(Command::Snapshot {
                name: name.copy(alloc)?,
            }),
            Command::Clone { source, name } => Ok(Command::Clone {
                source: source.copy(alloc)?,
                name: name.copy(alloc)?,
            }),
            Command::Bookmark { source, name } => Ok(Command::Bookmark {
                source: source.copy(alloc)?,
                name: name.copy(alloc)?,
            }),
            Command::Mount { name } => Ok(Command::Mount {
                name: name.copy(alloc)?,
            }),
            Command::Unmount { name } => Ok(Command::Unmount {
                name: name.copy(alloc)?,
            }),
            Command::Stamp { name, value } => Ok(Command::Stamp {
                name: name.copy(alloc)?,
                value: *value,
            }),
            Command::Rollback { name } => Ok(Command::Rollback {
                name: name.copy(alloc)?,
            }),
            Command::RenameSnapshot { name, old, new } => Ok(Command::RenameSnapshot {
                name: name.copy(alloc)?,
                old: old.copy(alloc)?,
                new: new.copy(alloc)?,
            }),
            Command::Destroy { name, defer } => Ok(Command::Destroy {
                name: name.copy(alloc)?,
                defer: *defer,
            }),
            Command::Promote { name } => Ok(Command::Promote {
                name: name.copy(alloc)?,
            }),
            Command::Rename { name, to } => Ok(Command::Rename {
                name: name.copy(alloc)?,
                to: to.copy(alloc)?,
            }),
            Command::Set { name, prop, value } => Ok(Command::Set {
                name: name.copy(alloc)?,
                prop: prop.copy(alloc)?,
                value: value.copy(alloc)?,
            }),
            Command::Inherit { name, prop } => Ok(Command::Inherit {
                name: name.copy(alloc)?,
                prop: prop.copy(alloc)?,
            }),
            Command::Hold { name, tag } => Ok(Command::Hold {
                name: name.copy(alloc)?,
                tag: tag.copy(alloc)?,
            }),
            Command::Release { name, tag } => Ok(Command::Release {
                name: name.copy(alloc)?,
                tag: tag.copy(alloc)?,
            }),
        }
    }
}

impl Query {
    /// A copy of this query.
    pub fn copy(&self, alloc: Global) -> Result<Query, NoMemory>
        ensures { IfOk result (λ copy. copy ≡ self.now) }
    {
        match self {
            Query::Exists { name } => Ok(Query::Exists {
                name: name.copy(alloc)?,
            }),
            Query::List {
                kind,
                name,
                after,
                limit,
            } => Ok(Query::List {
                kind: *kind,
                name: name.copy(alloc)?,
                after: after.copy(alloc)?,
                limit: *limit,
            }),
            Query::Get { name, prop } => Ok(Query::Get {
                name: name.copy(alloc)?,
                prop: prop.copy(alloc)?,
            }),
        }
    }
}
