//! Reading scripts.
#![tactic(auto)]

mod lines;
mod reader;
mod script;
pub mod script_laws;
mod statement;
#[cfg(test)]
mod tests;
mod words;

pub use script::{ScriptFault, read_script};
