//! What constraints, patterns and rules ask of a sentence, and tables of its truths.
#![tactic(auto)]

pub mod asked_laws;
pub mod columns;
