//! The exit status of each way to end, and the line that tells it on the diagnostic sink.
#![tactic(auto)]

mod line;

pub use line::{exit_status, warn};
