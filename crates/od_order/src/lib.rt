//! Scripts: what they ask of clients, which bytes are one, and the first fault of those that are none.
#![tactic(auto)]

pub mod keyword;
pub mod script;
pub mod script_kind;
pub mod script_laws;
