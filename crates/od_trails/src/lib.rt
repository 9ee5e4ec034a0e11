//! Rows of choices that share their beginnings, in which hops and events keep what they find, and
//! why finding stops.
#![tactic(auto)]

pub mod fault;
#[cfg(test)]
mod tests;
pub mod trails;
