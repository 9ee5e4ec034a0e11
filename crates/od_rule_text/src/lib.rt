//! Rule files and grammars: types, limits, faults, and the laws of what their texts say.
#![tactic(auto)]

pub mod grammar_fault;
pub mod limits;
pub mod rule_file;
pub mod rule_laws;
