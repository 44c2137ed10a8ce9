//! What a list goes over.

/// What a list of names goes over, as `zfs.list` of zfs-program(8) offers it.
#[derive(Clone, Copy, Debug, PartialEq, Eq, Drop)]
pub enum ListKind {
    /// The heads right below a head.
    Children,
    /// The snapshots of a head.
    Snapshots,
    /// The clones of a snapshot.
    Clones,
    /// The bookmarks of a head.
    Bookmarks,
    /// The holds of a snapshot.
    Holds,
    /// The user properties of a head or a snapshot.
    UserProperties,
}
