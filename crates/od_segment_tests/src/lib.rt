//! Tests of the posting lists of a segment.
#![tactic(auto)]

#[cfg(test)]
mod tests;
