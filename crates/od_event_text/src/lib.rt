//! Event patterns: a trigger, and the paths to its arguments, line by line.
#![tactic(auto)]

mod captures;
pub mod event;
mod head;
mod lines;

pub use event::parse_event;
