//! The mentions of a session: a list without repeats, in which a mention, the mentions of a
//! sentence and the sentences of a label are found through maps.
#![tactic(auto)]

mod hashes;
mod index;
mod notes;
mod places;
mod state;

pub use state::State;

#[cfg(test)]
mod tests;
