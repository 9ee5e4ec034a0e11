//! The one-thread object and its sessions.
#![tactic(auto)]

pub mod object;
