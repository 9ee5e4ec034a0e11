//! Whether a session's rounds go on.

/// Whether a session's rounds go on.
#[derive(Clone, Copy, Debug, PartialEq, Eq)]
pub enum Phase {
    /// A further round may be run.
    Going,
    /// The last round added nothing, and every rule has begun.
    Finished,
    /// As many rounds were run as the session's limit, and it is not finished.
    AtLimit,
}
