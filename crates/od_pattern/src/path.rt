//! Paths over the dependency edges of a sentence.
use crate::pattern::{Constraint, Value};
use od_text::list::List;
use sqlite_items::Boxed;

/// A path from token to token: along edges from governor to dependent, or against them.
#[derive(Debug, Drop)]
pub enum Path {
    /// From governor to dependent, over an edge whose label fits, or any edge.
    Along(Option<Value>),
    /// From dependent to governor.
    Against(Option<Value>),
    /// To the same token, where the constraint holds.
    Filter(Constraint),
    /// One after another.
    Seq(List<Path>),
    /// By one of them.
    Alt(List<Path>),
    /// At least so many times, and at most, where there is a most.
    Repeat(Boxed<Path>, u32, Option<u32>),
}
