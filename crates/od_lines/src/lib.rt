//! The output lines.
#![tactic(auto)]

mod lines;

pub use lines::{entry_line, session_lines};
