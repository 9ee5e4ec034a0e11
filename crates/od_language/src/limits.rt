//! The limits of the pattern language. The definitions cite them.

/// How many brackets may be open at a place.
pub const OPEN_BRACKETS: usize = 100;

/// How many bytes a regular expression may have, after its escaped slashes were replaced.
pub const EXPRESSION_BYTES: usize = 200;

/// How many bytes an identifier may have.
pub const IDENTIFIER_BYTES: usize = 64;

/// The greatest number that a range of turns may name.
pub const GREATEST_NUMBER: u32 = 1_000;

/// How large a pattern may be.
pub const PATTERN_SIZE: usize = 10_000;
