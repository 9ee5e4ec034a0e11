//! The items of a rule file, each read as a rule, and queries, each of which is one rule.
#![tactic(auto)]

mod body;
mod entries;
mod fault;
mod fields;
mod identifier;
mod priority;
mod query;
mod rule;

pub use priority::read_priority;
pub use query::read_query;
pub use rule::read_rule;
