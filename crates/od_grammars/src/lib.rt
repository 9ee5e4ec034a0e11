//! Grammars whole: what rule files and queries say, with their patterns as the grammars of patterns
//! read them, and the laws of that.
#![tactic(auto)]

pub mod grammar_laws;
