//! The desk: documents, sessions, the history of answered commands and the sink of their lines, as one value.
#![tactic(auto)]

pub mod desk;
mod shown;
