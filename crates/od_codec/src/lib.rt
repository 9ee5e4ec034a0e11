//! Lists of mentions as bytes, as rounds are stored: `encode` writes one, `decode` reads one.
#![tactic(auto)]

pub mod reading;
#[cfg(test)]
mod tests;
pub mod writing;
