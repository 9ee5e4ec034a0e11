//! Documents and sessions as they are kept.
#![tactic(auto)]

pub mod workspace;
