//! Rules made ready, and what they find on a sentence of numbers.
#![tactic(auto)]

pub mod code;
pub mod compiled;
pub mod event;
pub mod finder;
mod hop;
pub mod mentions;
mod scans;
