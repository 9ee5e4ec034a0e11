//! Hops, read from their texts: surface patterns joined by steps.
#![tactic(auto)]

mod ends;
pub mod joints;
pub mod surface;
pub mod text;

pub use text::{Measured, hop_at, parse_hop};
