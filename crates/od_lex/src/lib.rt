//! The lexemes of the pattern language, and the constraints that are written with them.
#![tactic(auto)]

pub mod constraint;
pub mod form;
pub mod lexer;
pub mod scan;

pub use constraint::{constraint_at, depth_at, parse_constraint};
pub use lexer::{Lexed, lex, lex_at, tokens};
