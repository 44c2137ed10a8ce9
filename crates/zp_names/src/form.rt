//! What kind of thing a name names.

/// What a name names.
#[derive(Clone, Copy, Debug, PartialEq, Eq, Drop)]
pub enum Form {
    /// A filesystem or a volume.
    Head,
    /// A snapshot, marked by `@`.
    Snap,
    /// A bookmark, marked by `#`.
    Bookmark,
}
