//! The limits of a grammar. What is exactly at a limit is accepted.

/// The most bytes that a grammar's text may have.
pub const GRAMMAR_BYTES: u32 = 65_536;

/// The most rules that a rule file may have.
pub const GRAMMAR_RULES: u32 = 200;

/// The most variables that a rule file may have.
pub const GRAMMAR_VARS: u32 = 100;

/// The most bytes that a pattern may have once its variables are replaced.
pub const PATTERN_BYTES: u32 = 16_384;

/// The most different regular expressions that the grammars of a script may have together.
pub const GRAMMAR_EXPRESSIONS: u32 = 64;

/// The most bytes that the name of a rule may have.
pub const RULE_NAME_BYTES: u32 = 64;

/// The last round that a priority may name.
pub const LAST_ROUND: u32 = 100;
