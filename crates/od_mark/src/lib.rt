//! What a turn at the desk leaves behind, and where a history goes on from.
#![tactic(auto)]

pub mod mark;
pub mod mark_laws;
pub mod origin;
#[cfg(test)]
mod tests;
