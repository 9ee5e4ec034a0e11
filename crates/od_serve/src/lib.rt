//! The server: reads a script, answers its commands by the one-thread object, and writes the lines.
#![tactic(auto)]

mod clients;
mod run;
mod serve;

pub use serve::{Ended, is_serve, odinson};
