//! Reading documents in CoNLL-U, the format of Universal Dependencies, one pass over the bytes.
#![tactic(auto)]

mod column;
mod content;
mod draft;
mod fault;
mod line_columns;
mod reader;
mod sentence;
#[cfg(test)]
mod tests;
mod word_line;

pub use fault::ReadDocFault;
pub use reader::read_doc;
