//! The rows that a store keeps, and the names of its tables.
#![tactic(auto)]

pub mod rows;
pub mod table;
#[cfg(test)]
mod tests;
