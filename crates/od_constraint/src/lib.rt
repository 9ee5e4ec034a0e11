//! Where token constraints and label values hold in sentences that are numbers of a table. Texts
//! are compared once, with the texts of the table; a sentence costs numbers alone.
#![tactic(auto)]

mod fitting;
mod hits;
mod noted;
mod places;
mod resolving;
mod rows;
mod runners;
mod steps;
mod truths;

pub use fitting::{numbers_equal, numbers_matching};
pub use resolving::{Resolved, ResolvedLabel, resolve, resolve_label};
pub use runners::Runners;
pub use truths::{edge_truth, truth};
