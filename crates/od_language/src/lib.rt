//! How patterns and rules are written: lexemes, grammars and first faults.
#![tactic(auto)]

pub mod language_laws;
pub mod lexeme;
pub mod limits;
pub mod pattern_fault;
