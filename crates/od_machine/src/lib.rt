//! Programs of surface patterns, and the machine that finds their matches.
#![tactic(auto)]

pub mod compile;
mod instruction;
mod machine;
mod marks;
mod points;
pub mod program;
pub mod scan;
pub mod spans;
mod thread;
