//! Sessions that run rules over a view of segments, and their rounds.
#![tactic(auto)]

mod fault;
mod meet;
mod moving;
mod planning;
mod resolving;
mod resuming;
mod rules;
mod session;
mod visit;

pub use fault::RoundFault;
pub use session::Session;
