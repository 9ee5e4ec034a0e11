//! What stored bytes say: numbers, texts and lists of mentions as bytes, their faults and their laws.
#![tactic(auto)]

pub mod fault;
pub mod limits;
pub mod number;
pub mod stored_laws;
