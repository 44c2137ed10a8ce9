//! Kinds of datasets.

ghost use Rattle.std.specs.Prelude.{◌≡◌};
ghost use Rattle.zp_props.specs.Lines.{includes};

/// What a dataset is: zfsprops(7), `type`.
#[derive(Clone, Copy, Debug, PartialEq, Eq, Drop)]
pub enum Kind3 {
    /// A file system.
    Filesystem,
    /// A volume.
    Volume,
    /// A snapshot of either.
    Snapshot,
}

/// The kinds of datasets that a property is for.
#[derive(Clone, Copy, Debug, Drop)]
pub(crate) enum Kinds {
    /// All three.
    Every,
    /// File systems and volumes.
    Heads,
    /// File systems alone.
    Filesystems,
    /// Volumes alone.
    Volumes,
    /// Snapshots alone.
    Snapshots,
}

impl Kinds {
    /// Whether this kind is one of them.
    pub(crate) fn includes(self, kind: Kind3) -> bool
        ensures { result ≡ includes self kind }
    {
        match (self, kind) {
            (Kinds::Every, _) => true,
            (Kinds::Heads, Kind3::Snapshot) => false,
            (Kinds::Heads, _) => true,
            (Kinds::Filesystems, Kind3::Filesystem) => true,
            (Kinds::Volumes, Kind3::Volume) => true,
            (Kinds::Snapshots, Kind3::Snapshot) => true,
            _ => false,
        }
    }
}
