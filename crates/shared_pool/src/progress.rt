//! How far a session is.

/// How far a session is in the history that its pass has seen.
#[derive(Debug, Drop)]
pub(crate) struct Progress {
    /// The number of the session's next call.
    pub(crate) next: u32,
    /// Whether a call of the session is under way.
    pub(crate) busy: bool,
    /// How many entries the history has.
    pub(crate) seen: u64,
}
