//! Replies and effects of commands, histories and runs.
#![tactic(auto)]

pub mod history_laws;
pub mod status;
