//! Surface patterns, paths, hops and event patterns written out as lexemes, and the laws of that.
#![tactic(auto)]

pub mod written_laws;
