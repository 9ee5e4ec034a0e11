//! What an index of documents is: where sentences stand, tables of their terms, postings, and segments,
//! and the laws of these.
#![tactic(auto)]

pub mod index_laws;
