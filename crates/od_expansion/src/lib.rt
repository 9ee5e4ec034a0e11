//! Replacing the variables of patterns by their texts. Each variable is expanded once.
#![tactic(auto)]

mod bounded;
mod expander;
mod name;
mod state;
#[cfg(test)]
mod tests;
mod walk;

pub use expander::{Expander, ExpansionFault};
