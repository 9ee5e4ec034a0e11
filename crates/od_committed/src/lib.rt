//! Committed documents.
#![tactic(auto)]

mod committed;

pub use committed::Committed;
