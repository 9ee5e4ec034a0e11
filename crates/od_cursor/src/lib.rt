//! Cursors over posting lists.
#![tactic(auto)]

pub mod cursor;
