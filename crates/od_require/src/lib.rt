//! What a sentence needs so that a rule finds anything there.
#![tactic(auto)]

mod constraints;
mod patterns;
mod rules;

pub use rules::needs;

#[cfg(test)]
mod tests;
