//! Mentions, and what a round gives.
#![tactic(auto)]

pub mod mention;
pub mod phase;
