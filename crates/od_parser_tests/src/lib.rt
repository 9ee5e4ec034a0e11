//! What the parsers of the pattern language answer, as tables: texts, and beside each the measure of
//! what is read, or the first fault with its place in bytes from 0.
#![tactic(auto)]

#[cfg(test)]
mod constraints;
#[cfg(test)]
mod depths;
#[cfg(test)]
mod events;
#[cfg(test)]
mod harness;
#[cfg(test)]
mod hops;
#[cfg(test)]
mod lexemes;
#[cfg(test)]
mod likeness;
#[cfg(test)]
mod paths;
#[cfg(test)]
mod shared;
#[cfg(test)]
mod surfaces;
