//! What rules find, as tables: patterns and documents as texts, and beside them the mentions.
#![tactic(auto)]

#[cfg(test)]
mod calls;
#[cfg(test)]
mod constraints;
#[cfg(test)]
mod costs;
#[cfg(test)]
mod documents;
#[cfg(test)]
mod events;
#[cfg(test)]
mod finding;
#[cfg(test)]
mod hops;
#[cfg(test)]
mod surfaces;
