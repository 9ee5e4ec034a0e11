//! The limits of stored bytes.

/// A number that is stored is below this.
pub const NUMBER_END: u64 = 1 << 32;

/// A block of packed pairs has so many, but for the last one, which has the rest.
pub const BLOCK_PAIRS: usize = 64;
