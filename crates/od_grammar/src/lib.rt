//! Grammars built from their texts: rules made ready, and a runner of each regular expression.
#![tactic(auto)]

mod building;
mod expressions;
mod labels;
mod limit;
mod making;
mod reading;
mod runners;
#[cfg(test)]
mod tests;

pub use building::{Built, build};
