//! Patterns, paths, rules and grammars as values.
#![tactic(auto)]

mod constraint_walks;
pub mod grammar;
pub mod path;
pub mod pattern;
pub mod rule;
