//! How far the expansion of a variable is known.
use crate::bounded::Bounded;

/// The state of a variable.
#[derive(Debug, Drop)]
pub(crate) enum State {
    /// It was not met yet.
    Unseen,
    /// Its expansion is under way.
    Open,
    /// Its expansion.
    Known(Bounded),
}
