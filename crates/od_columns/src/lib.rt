//! What rules ask of a sentence: resolved once over the texts of a table, and then a table of truths
//! for each sentence of numbers.
#![tactic(auto)]

mod asks;
mod expressions;
mod resolved;
mod tables;

pub use asks::{Asking, asked_of, push_path, push_surface};
pub use expressions::expressions_asked;
pub use resolved::{ResolvedRule, resolve_rule};
pub use tables::columns_on;
