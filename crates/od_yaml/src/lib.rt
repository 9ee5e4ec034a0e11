//! Reading rule files, a small part of YAML, in one pass over the text.
#![tactic(auto)]

mod below;
mod blank;
mod entries;
mod entry;
mod line;
mod literal;
mod part;
mod plain;
mod quoted;
mod reader;
mod rules_file;
mod scalar;
mod section;
#[cfg(test)]
mod tests;

pub use rules_file::read_rules_file;
