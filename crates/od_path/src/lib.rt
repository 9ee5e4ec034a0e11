//! Paths over dependency edges, and the steps of hops: their parsers.
#![tactic(auto)]

mod ahead;
pub mod path;
pub mod size;
pub mod step;
pub mod steps;
pub mod text;

pub use path::{parse_path, path_at};
pub use step::Found;
pub use steps::{parse_steps, steps_at};
pub use text::{Measured, path_of_text};
