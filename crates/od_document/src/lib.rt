//! Documents: their types, what can be wrong with them, and the laws of their reading.
#![tactic(auto)]

pub mod conllu;
pub mod doc;
pub mod document_laws;
pub mod limits;
pub mod sentence;
pub mod token;
