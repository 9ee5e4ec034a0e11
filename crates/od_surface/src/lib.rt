//! Surface patterns, read from their texts.
#![tactic(auto)]

pub mod again;
pub mod lexemes;
pub mod single;
pub mod sizes;
pub mod surface;
pub mod text;
mod turns;

pub use text::{Measured, parse_surface, surface_at};
