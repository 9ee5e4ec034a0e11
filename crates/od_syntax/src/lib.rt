//! The grammars of surface patterns, paths, steps, hops and event patterns, with their laws.
#![tactic(auto)]

pub mod syntax_laws;
