//! The dictionary of a document's texts, each different text of each field once in ascending order,
//! and sentences as the numbers of their texts.
#![tactic(auto)]

mod arrivals;
mod collect;
mod drafts;
mod indexing;
mod merging;
mod numbers;
mod optional;
mod ordering;
mod reading;
mod renumbering;
mod search;
mod sentence;
mod slots;
mod table;

pub use indexing::IndexedDoc;
pub use sentence::IdSentence;
pub use table::{TermTable, Union};

#[cfg(test)]
mod tests;
