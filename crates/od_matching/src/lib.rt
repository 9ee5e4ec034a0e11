//! What patterns, rules and rounds find, and the laws of it.
#![tactic(auto)]

pub mod matching_laws;
pub mod round_laws;
