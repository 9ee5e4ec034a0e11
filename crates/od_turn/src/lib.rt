//! The turn lock: callers have a value one after another, in the order in which they asked for it.
//!
//! The value stands for a list of marks, each of which names the caller that left it. A turn adds
//! at most one mark of its own. A caller's pass stands for the marks that the caller has seen: each
//! turn begins with a value whose marks go on from those, and the further ones name other callers.
//!
//! It is a ticket lock. A caller draws a ticket and waits until that ticket is served. No call but
//! `Turnstile::take` waits.
#![tactic(auto)]

mod counted;
mod laws;
mod pass;
mod rule;
mod steps;
#[cfg(test)]
mod tests;
mod turn;
mod turnstile;
mod view;

pub use counted::Counted;
pub use laws::own_marks_stay;
pub use pass::Pass;
pub use rule::{Opening, TurnRule};
pub use turn::Turn;
pub use turnstile::Turnstile;
pub use view::{PassView, SeatView, Stage};
