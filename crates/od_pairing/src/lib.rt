//! The pairs of a hop: what its parts match in a sentence, joined by where its paths lead.
#![tactic(auto)]

pub mod laws;
pub mod pairs;
mod progress;
mod targets;
