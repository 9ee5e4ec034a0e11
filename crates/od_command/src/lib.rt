//! Commands, replies and entries.
#![tactic(auto)]

pub mod history;
